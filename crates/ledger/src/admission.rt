// Admission: what the pool and the yield rule allow.
ghost use Rattle.std.specs.Prelude.{◌≡◌, ◌≤◌, IfOk};
ghost use Rattle.plan.specs.Plan.{plan_of, planned};
ghost use Rattle.ledger.specs.Books.{answer, unless, asks_plan, asks_admit, rule_with, admitted};
ghost use Rattle.ledger.specs.Fair.{Affordable};
ghost use Rattle.ledger.specs.Keeps.{Keeps};
ghost use Rattle.ledger.specs.Of.{books_of};

use crate::ledger::Ledger;
use crate::refusal::Refusal;
use crate::seat::Seat;
use plan::{Job, Plan};

impl Ledger {
    // Admits a job to an empty seat, and answers its plan.
    pub fn admit(&mut self, seat: u8, job: Job) -> Result<Plan, Refusal>
        ensures answer { result ≡ answer (asks_admit (books_of self.old) seat job.period job.writes) (plan_of self.old.frame.alpha job.period job.writes) }
        ensures books { let before = books_of self.old in let plan = plan_of self.old.frame.alpha job.period job.writes in books_of self.new ≡ unless (asks_admit before seat job.period job.writes) (admitted before seat plan) before }
        ensures law { Keeps (books_of self.old) (books_of self.new) }
    {
        let found = self
            .seats
            .get(usize::from(seat))
            .ok_or(Refusal::NoSuchSeat)?;
        if found.is_in_use() {
            return Err(Refusal::SeatInUse);
        }
        let plan = self.plan_for(job)?;
        let share = self.frame.collector_share();
        self.pool -= plan.writes + share;
        self.seats[usize::from(seat)] = Seat::admitted(plan, share);
        Ok(plan)
    }

    // The plan of a job, if pool and yield rule allow it.
    fn plan_for(&self, job: Job) -> Result<Plan, Refusal>
        ensures answer { result ≡ answer (asks_plan (books_of self.now) (planned self.now.frame.alpha job.period job.writes)) (plan_of self.now.frame.alpha job.period job.writes) }
        ensures affordable { IfOk result (λ plan. Affordable (books_of self.now) plan) }
    {
        let plan = Plan::of(self.frame.alpha, job).ok_or(Refusal::JobOutOfRange)?;
        if plan.writes + self.frame.collector_share() > self.pool {
            return Err(Refusal::PoolTooSmall);
        }
        if !self.rule_with(plan) {
            return Err(Refusal::YieldRuleWouldFail);
        }
        Ok(plan)
    }

    // Does the yield rule hold with one more seat of this plan?
    fn rule_with(&self, plan: Plan) -> bool
        requires some { 1 ≤ plan.runs }
        requires few { plan.runs ≤ 1024 }
        ensures { result ≡ rule_with (books_of self.now) plan }
    {
        let most = self.highest() + (plan.runs - 1) * self.frame.alpha;
        self.frame.yields(u64::from(most))
    }
}
