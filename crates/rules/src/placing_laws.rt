// The laws of gaps, fit rules, fabrics and placing: each function's contract is one of them.

ghost use Rattle.rules.specs.PlacingLaws.{GapsExistOnce, GapsAreTheMaximalStretches, RoundingUp, FirstAndBestFit, LayersAreFitRules, FabricsAreLawful};
ghost use Rattle.rules.specs.PlacingLaws.{PlacingAsksProperQuestions, PlacingIsDetermined, LaidOutIsSound, FootprintsExistOnce, FootprintsHoldEveryClique, FootprintsAreBounded};

// Every list of blocked stretches leaves exactly one list of gaps.
pub fn gaps_exist_once()
    ensures { GapsExistOnce }
{}

// The gaps are the maximal non-empty stretches below the capacity that meet no blocked stretch.
pub fn gaps_are_the_maximal_stretches()
    ensures { GapsAreTheMaximalStretches }
{}

// A rounded number is the least multiple of the grain that is not below.
pub fn rounding_up()
    ensures { RoundingUp }
{}

// First fit and best fit are fit rules, and each has one answer to a proper question.
pub fn first_and_best_fit()
    ensures { FirstAndBestFit }
{}

// A layer over a fit rule is a fit rule.
pub fn layers_are_fit_rules()
    ensures { LayersAreFitRules }
{}

// The fabrics of the sheet keep the laws of a fabric.
pub fn fabrics_are_lawful()
    ensures { FabricsAreLawful }
{}

// What an object asks at its turn is a question that no rule may refuse.
pub fn placing_asks_proper_questions()
    ensures { PlacingAsksProperQuestions }
{}

// The placing equation has one solution, or one object of one bank lacks space, and never both.
pub fn placing_is_determined()
    ensures { PlacingIsDetermined }
{}

// The places that the rules give make a sound layout.
pub fn laid_out_is_sound()
    ensures { LaidOutIsSound }
{}

// Every bank has exactly one footprint.
pub fn footprints_exist_once()
    ensures { FootprintsExistOnce }
{}

// A footprint is at least the sizes of objects of the bank that exclude one another.
pub fn footprints_hold_every_clique()
    ensures { FootprintsHoldEveryClique }
{}

// A footprint is at most the sizes of all objects of the bank, each rounded up to the grain.
pub fn footprints_are_bounded()
    ensures { FootprintsAreBounded }
{}
