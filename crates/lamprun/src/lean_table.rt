// The lean order of a sheet, and what is live as it runs.

use crate::refused;
use graph::order::MOST_ACTORS;
use lean::ready::ReadyActor;
use planner::plan::Plan;

// Starts and finishes the actors in lean order, and prints a line for each, and then the peak.
pub fn print_lean_order(rt: &HostRuntime, plan: &Plan) -> anyhow::Result<()> {
    // kept: a plan takes no memory of its own; its caller lends room for 64 actors
    let mut memory = [ReadyActor::default(); MOST_ACTORS];
    let mut order = [0; MOST_ACTORS];
    let lean = plan.lean_order(&mut memory, &mut order).map_err(refused)?;
    let mut run = plan.run();
    for a in order.iter().copied().take(lean.actors as usize) {
        let change = plan.net_change(a).map_err(refused)?;
        run.start(a).map_err(refused)?;
        let running = run.live_bytes();
        run.finish(a).map_err(refused)?;
        let after = run.live_bytes();
        println!(rt;
            "actor {a}: net change {change}, {running} bytes live while it runs, {after} after"
        )?;
    }
    println!(rt; "peak {}", lean.peak)?;
    Ok(())
}
