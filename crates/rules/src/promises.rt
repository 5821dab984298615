// What is promised of every sheet that is placed: each function's contract is one of the promises.

ghost use Rattle.rules.specs.Promises.{SoundLayoutsNeverClash, TheWholePromise};

// A sound layout never has a clash, however its places were found.
pub fn sound_layouts_never_clash()
    ensures { SoundLayoutsNeverClash }
{}

// Under any fit rule and any fabric, what is live together shares no byte and is in reach, exclusion is exact, and footprints are bounded.
pub fn the_whole_promise()
    ensures { TheWholePromise }
{}
