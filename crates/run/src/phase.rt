// The phases of actors.

ghost use Rattle.std.specs.Prelude.{◌≡◌};
ghost use Rattle.run.specs.Records.{are_done, begun, ended};

// An actor waits, then runs, then is finished, until the next round.
#[derive(Clone, Copy, Debug, PartialEq, Eq)]
pub enum Phase {
    Waiting,
    Running,
    Finished,
}

// What a run keeps of an actor.
#[derive(Clone, Copy, Debug, PartialEq, Eq)]
pub struct ActorRecord {
    pub(crate) phase: Phase,
}

pub(crate) const IDLE: ActorRecord = ActorRecord {
    phase: Phase::Waiting,
};

impl ActorRecord {
    pub(crate) fn begin(&mut self)
        ensures { self.new ≡ begun }
    {
        self.phase = Phase::Running;
    }

    pub(crate) fn end(&mut self)
        ensures { self.new ≡ ended }
    {
        self.phase = Phase::Finished;
    }
}

// Whether the actors of all these records are finished.
pub(crate) fn are_done(records: &[ActorRecord]) -> bool
    ensures { result ≡ are_done records.now }
{
    records
        .iter()
        .all(|record| matches!(record.phase, Phase::Finished))
}
