// The laws of runs: each function's contract is one of them.

ghost use Rattle.rules.specs.RunLaws.{EveryCallIsAnswered, PredecessorsAreFinished, EveryActorHasAPhase, AddedOrderingCloses, OrderingsLast, NeverBeforeItself, LiveObjectsExclude, ExclusionIsExact, ExclusionIsExactForAll, WitnessShows};

// Every call in every state has exactly one outcome.
pub fn every_call_is_answered()
    ensures { EveryCallIsAnswered }
{}

// In every reached state a started actor's predecessors are finished.
pub fn predecessors_are_finished()
    ensures { PredecessorsAreFinished }
{}

// A reached state has a phase for each actor of the sheet.
pub fn every_actor_has_a_phase()
    ensures { EveryActorHasAPhase }
{}

// An added ordering relates what was related, and all up to its first actor with all from its second on.
pub fn added_ordering_closes()
    ensures { AddedOrderingCloses }
{}

// What is ahead stays ahead, whatever is called: an added ordering outlives its round.
pub fn orderings_last()
    ensures { OrderingsLast }
{}

// No reached state's order has an actor before itself.
pub fn never_before_itself()
    ensures { NeverBeforeItself }
{}

// Two different objects that are live in a reached state exclude each other.
pub fn live_objects_exclude()
    ensures { LiveObjectsExclude }
{}

// Two different objects exclude each other exactly when some list of starts and finishes leaves both live.
pub fn exclusion_is_exact()
    ensures { ExclusionIsExact }
{}

// Objects exclude each other, every two, exactly when some list of starts and finishes leaves all live.
pub fn exclusion_is_exact_for_all()
    ensures { ExclusionIsExactForAll }
{}

// A list of objects has one witness, which is granted and leaves all live exactly when every two exclude each other.
pub fn witness_shows()
    ensures { WitnessShows }
{}
