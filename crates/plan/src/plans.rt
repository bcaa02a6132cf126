ghost use Rattle.std.specs.Prelude.{◌≡◌, Some};
ghost use Rattle.plan.specs.Plan.{PlanLaw, planned};

use crate::numbers::{Job, Plan};

impl Plan {
    // The plan of a job where a run wins back `alpha` pages; none where a number is out of its range.
    pub fn of(alpha: u32, job: Job) -> Option<Plan>
        ensures plan { result ≡ planned alpha job.period job.writes }
        ensures law { (plan : Plan) → result ≡ Some plan → PlanLaw alpha job.period job.writes plan }
    {
        let Job { period, writes } = job;
        let in_range = (1..=32).contains(&alpha)
            && (1..=60_000).contains(&period)
            && (1..=1024).contains(&writes);
        if !in_range {
            return None;
        }
        if writes > alpha {
            let runs = writes.div_ceil(alpha);
            return Some(Plan {
                meta_period: period,
                writes,
                runs,
            });
        }
        let periods = alpha / writes;
        Some(Plan {
            meta_period: period * periods,
            writes: writes * periods,
            runs: 1,
        })
    }

    // The three numbers together: meta-period, writes, runs. The fields tell the same;
    // this call was there before, and stays.
    pub fn numbers(self) -> (u32, u32, u32)
        ensures { result ≡ (self.meta_period, self.writes, self.runs) }
    {
        (self.meta_period, self.writes, self.runs)
    }
}
