// What `lampmap` prints.

use fabric::Fabric;
use fit::FitRule;
use graph::objects::MOST_OBJECTS;
use layout::turns::Candidate;
use map::writing::MOST_MAP;
use planner::faults::JobFault;
use planner::plan::Plan;
use std::alloc::{AllocError, Global};

// The map of a sheet, or its fault line.
pub(crate) fn printed(heap: Global, text: &[u8]) -> Result<String, AllocError> {
    printed_by(heap, |plan, memory, out| plan.answer(text, memory, out))
}

// The same for a sheet that the rule places on the fabric.
pub(crate) fn placed<R: FitRule, F: Fabric>(
    heap: Global,
    text: &[u8],
    rule: &R,
    fabric: &F,
) -> Result<String, AllocError> {
    printed_by(heap, |plan, memory, out| {
        plan.plan_with(text, rule, fabric, memory)?;
        plan.write_map(out)
    })
}

// What an answer of an empty plan prints: the map that it writes, or the line of its fault.
fn printed_by<A>(heap: Global, answer: A) -> Result<String, AllocError>
where
    A: FnOnce(&mut Plan, &mut [Candidate], &mut [u8]) -> Result<usize, JobFault>,
    requires { A.IsAlwaysCallable answer }
{
    let mut plan = Plan::new(heap)?;
    // kept: a plan takes no memory of its own; its caller lends room for 256 candidates
    let mut memory = [Candidate::default(); MOST_OBJECTS];
    let mut out = vec![in heap; 0; MOST_MAP]?;
    match answer(&mut plan, &mut memory, out.as_mut_slice()) {
        Ok(end) => {
            out.truncate(end);
            String::from_utf8_lossy(heap, out.as_slice())
        }
        Err(fault) => format!(in heap; "{}\n", fault.report()),
    }
}
