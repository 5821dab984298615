// What the plain rules promise, in terms of the gaps alone.
ghost use Rattle.rules.specs.Fitting.{IsBestFit, IsFirstFit};
ghost use Rattle.rules.specs.Choosing.{best_of, first_of};

// First fit takes the lowest gap that holds the object.
pub fn first_fit_takes_the_lowest()
    ensures { IsFirstFit first_of }
{}

// Best fit takes the gap with the fewest bytes, the lowest of equals.
pub fn best_fit_takes_the_tightest()
    ensures { IsBestFit best_of }
{}
