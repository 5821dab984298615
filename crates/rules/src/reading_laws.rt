// The laws of reading a sheet: each function's contract is one of them.

ghost use Rattle.rules.specs.FaultyTexts.{FaultyTextsAreRefused};
ghost use Rattle.rules.specs.ReadingLaws.{LinesAreDecided, SpellingIsInjective, AcceptedTextsAreSpellings, EveryTextHasOneOutcome, ValidSheetsCanBePlaced};

// A line is decided to say an entry exactly when it is the entry's spelling.
pub fn lines_are_decided()
    ensures { LinesAreDecided }
{}

// No two entries are written alike.
pub fn spelling_is_injective()
    ensures { SpellingIsInjective }
{}

// A text is accepted as a sheet exactly when the sheet is valid and the text is its spelling.
pub fn accepted_texts_are_spellings()
    ensures { AcceptedTextsAreSpellings }
{}

// Every text has exactly one outcome.
pub fn every_text_has_one_outcome()
    ensures { EveryTextHasOneOutcome }
{}

// A valid sheet is ordered and runs on its own fabric, which is lawful; it can be placed on every lawful fabric that has
// its cores.
pub fn valid_sheets_can_be_placed()
    ensures { ValidSheetsCanBePlaced }
{}

// Small texts, each refused with its number and line.
pub fn faulty_texts()
    ensures { FaultyTextsAreRefused }
{}
