// The lean order of a sheet that was read.

ghost use Rattle.lean.specs.Leaning.{Leans};

use crate::faults::LeanFault;
use crate::listing::list;
use crate::peak::peak_of;
use crate::ready::ReadyActor;
use graph::sheet_graph::Graph;

// How many actors were listed, and the largest total size that is live when they run in this order.
#[derive(Clone, Copy, Debug, PartialEq, Eq)]
pub struct LeanPeak {
    pub actors: u32,
    pub peak: u64,
}

// Writes the numbers of the actors in lean order, and answers how many they are and their peak.
// The memory lent needs room for each actor, and so does the output. A sheet has an actor, so where there is none,
// no sheet was read.
pub fn lean_order(
    graph: &Graph,
    memory: &mut [ReadyActor],
    out: &mut [u32],
) -> Result<LeanPeak, LeanFault>
    ensures { Leans graph.now.sheet memory.old memory.new out.old out.new result }
{
    let n = graph.actors().len();
    if n == 0 {
        return Err(LeanFault::Empty);
    }
    if memory.len() < n || out.len() < n {
        return Err(LeanFault::ShortMemory);
    }
    list(graph.links(), graph.order(), memory, &mut out[0..n]);
    let peak = peak_of(graph.objects(), &out[0..n]);
    Ok(LeanPeak {
        actors: n as u32,
        peak,
    })
}
