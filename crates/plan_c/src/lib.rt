// The plan as the firmware's C asks for it: one number a call, and 0 where a number is out of its range.
// include/plan.h declares these. An export needs a function of its own, so each hands on to the one of `plan`.
#![tactic(auto)]

ghost use Rattle.std.specs.Prelude.{◌≡◌, if◌then◌else◌};
ghost use Rattle.plan.specs.Plan.{in_range, plan_of};

// The meta-period σ in ticks.
#[unsafe(no_mangle)]
pub extern "C" fn plan_meta_period(alpha: u32, period: u32, writes: u32) -> u32
    ensures { result ≡ (if in_range alpha period writes then (plan_of alpha period writes).meta_period else 0) }
{
    plan::plan_meta_period(alpha, period, writes)
}

// How many pages a meta-period may write, W.
#[unsafe(no_mangle)]
pub extern "C" fn plan_writes(alpha: u32, period: u32, writes: u32) -> u32
    ensures { result ≡ (if in_range alpha period writes then (plan_of alpha period writes).writes else 0) }
{
    plan::plan_writes(alpha, period, writes)
}

// How many runs the collector makes in a meta-period, k.
#[unsafe(no_mangle)]
pub extern "C" fn plan_runs(alpha: u32, period: u32, writes: u32) -> u32
    ensures { result ≡ (if in_range alpha period writes then (plan_of alpha period writes).runs else 0) }
{
    plan::plan_runs(alpha, period, writes)
}
