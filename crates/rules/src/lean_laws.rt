// The laws of the lean order and its peak: each function's contract is one of them.

ghost use Rattle.rules.specs.LeanLaws.{LeanOrderExistsOnce, LeanListingsRun, PeakExistsOnce, LiveTestExact};

// A sheet without a circle has exactly one lean order.
pub fn lean_order_exists_once()
    ensures { LeanOrderExistsOnce }
{}

// When each of a lean listing starts, then finishes, every call is granted and all actors finish.
pub fn lean_listings_run()
    ensures { LeanListingsRun }
{}

// The lean listing of a sheet with an actor has exactly one peak.
pub fn peak_exists_once()
    ensures { PeakExistsOnce }
{}

// The test of a live object is exact.
pub fn live_test_exact()
    ensures { LiveTestExact }
{}
