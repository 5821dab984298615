// The worked examples.

ghost use Rattle.rules.specs.Examples.{WorkedExamples};

// Sheets, maps, exclusions, answers and orders that are worked out, all of them true of the rules.
pub fn worked_examples()
    ensures { WorkedExamples }
{}
