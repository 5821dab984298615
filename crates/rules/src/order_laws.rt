// The laws of order: each function's contract is one of them.

ghost use Rattle.rules.specs.OrderLaws.{APairCloses, LinkTestsExact, BeforeIsDecided, ApartOrExcluding, ExclusionIsAGraph};

// A pair added to an order relates what was related, and all up to its first with all from its second on.
pub fn a_pair_closes()
    ensures { APairCloses }
{}

// The tests of a link keep the order of a sheet, and none of them is needless.
pub fn link_tests_exact()
    ensures { LinkTestsExact }
{}

// Whether one actor is before another can be decided.
pub fn before_is_decided()
    ensures { BeforeIsDecided }
{}

// Two different objects of a sheet do not exclude each other exactly when they are apart.
pub fn apart_or_excluding()
    ensures { ApartOrExcluding }
{}

// No object excludes itself, and exclusion goes both ways.
pub fn exclusion_is_a_graph()
    ensures { ExclusionIsAGraph }
{}
