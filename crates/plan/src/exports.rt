// The plan as C asks for it: one number a call, and 0 where a number is out of its range.
// The crate plan_c exports these three functions. They differ in a field alone: C gets one number a call.
ghost use Rattle.std.specs.Prelude.{◌≡◌, if◌then◌else◌};
ghost use Rattle.plan.specs.Plan.{in_range, plan_of};

use crate::numbers::{Job, Plan};

// The meta-period σ in ticks.
pub fn plan_meta_period(alpha: u32, period: u32, writes: u32) -> u32
    ensures { result ≡ (if in_range alpha period writes then (plan_of alpha period writes).meta_period else 0) }
{
    Plan::of(alpha, Job { period, writes }).map_or(0, |plan| plan.meta_period)
}

// How many pages a meta-period may write, W.
pub fn plan_writes(alpha: u32, period: u32, writes: u32) -> u32
    ensures { result ≡ (if in_range alpha period writes then (plan_of alpha period writes).writes else 0) }
{
    Plan::of(alpha, Job { period, writes }).map_or(0, |plan| plan.writes)
}

// How many runs the collector makes in a meta-period, k.
pub fn plan_runs(alpha: u32, period: u32, writes: u32) -> u32
    ensures { result ≡ (if in_range alpha period writes then (plan_of alpha period writes).runs else 0) }
{
    Plan::of(alpha, Job { period, writes }).map_or(0, |plan| plan.runs)
}
