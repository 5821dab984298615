// A run of a plan.

ghost use Rattle.std.specs.Prelude.{◌≡◌};

use crate::plan::Plan;
use run::sheet_run::Run;

// The plan is only read while the run exists.
#[derive(Drop)]
pub struct PlanRun<'p> {
    pub(crate) plan: &'p Plan,
    pub(crate) run: Run<'p>,
    ghost of_plan: { run.graph.now ≡ plan.now.graph },
}
