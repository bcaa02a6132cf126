ghost use Rattle.std.specs.Prelude.{◌≡◌, true};
ghost use Rattle.plan.specs.Figures.{Figures, numbers};
ghost use Rattle.plan.specs.Plan.{planned};

use crate::numbers::{Job, Plan};
use crate::yields::yield_rule;

// The ten worked figures, worked out again: the eight plans, and the yield rule on either side of its edge.
pub fn figures_hold() -> bool
    ensures answer { result ≡ true }
    ensures figures { Figures }
{
    gives((16, 20, 2), (160, 16, 1))
        && gives((16, 200, 5), (600, 15, 1))
        && gives((13, 20, 2), (120, 12, 1))
        && gives((8, 200, 5), (200, 5, 1))
        && gives((16, 20, 30), (20, 30, 2))
        && gives((16, 20, 16), (20, 16, 1))
        && gives((16, 20, 17), (20, 17, 2))
        && gives((1, 1, 1), (1, 1, 1))
        && yield_rule(4, 4, 6, 4, 2)
        && !yield_rule(4, 4, 6, 5, 2)
}

// Are these the three numbers of the plan? The job is a yield, a period and its writes. Both come as plain numbers, so
// that each figure above is one line; spelled out as a `Job` and a `Plan` it takes twelve.
fn gives(job: (u32, u32, u32), answer: (u32, u32, u32)) -> bool
    ensures { planned job.0 job.1 job.2 ≡ numbers answer.0 answer.1 answer.2 → result ≡ true }
{
    let (alpha, period, writes) = job;
    let (meta_period, most, runs) = answer;
    let plan = Plan {
        meta_period,
        writes: most,
        runs,
    };
    Plan::of(alpha, Job { period, writes }) == Some(plan)
}
