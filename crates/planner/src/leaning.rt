// The lean order of a plan, and the net changes of its actors.

ghost use Rattle.std.specs.Prelude.{◌≡◌, ◌<◌, ◌-ℤ◌, pos};
ghost use Rattle.planner.specs.Replies.{Lists, Replies, sheet_of};
ghost use Rattle.rules.specs.Lean.{consumed, produced};
ghost use Rattle.rules.specs.Sheets.{actor_count};

use crate::faults::JobFault;
use crate::plan::Plan;
use lean::lean_order::{LeanPeak, lean_order};
use lean::ready::{ReadyActor, net_change_of};

impl Plan {
    // Writes the numbers of the actors in lean order, and answers how many they are and their peak.
    // The memory lent needs room for each actor, and so does the output.
    pub fn lean_order(
        &self,
        memory: &mut [ReadyActor],
        out: &mut [u32],
    ) -> Result<LeanPeak, JobFault>
        ensures { Lists self.now memory.old memory.new out.old out.new result }
    {
        Ok(lean_order(&self.graph, memory, out)?)
    }

    // The net change of actor a: what it produces minus what it consumes, by FIFOs without initial tokens.
    pub fn net_change(&self, a: u32) -> Result<i64, JobFault>
        ensures { Replies (a < actor_count (sheet_of self.now)) (λ n. n ≡ pos (produced (sheet_of self.now).links a) -ℤ pos (consumed (sheet_of self.now).links a)) result }
    {
        net_change_of(&self.graph, a).ok_or(JobFault::Unknown)
    }
}
