// What each deed and each part of a tick make of one seat. What a seat of fair books keeps is a premise here, and no
// ghost field: the fields of a seat are public, and anyone may make one.
ghost use Rattle.std.specs.Prelude.{◌≡◌, ◌+◌, ◌^◌, ◌<◌, ◌≤◌};
ghost use Rattle.ledger.specs.Books.{leaves};
ghost use Rattle.ledger.specs.Seats.{
  nobody,
  is_serving,
  in_use,
  seated,
  warned,
  took,
  gave_back,
  saved,
  one_later,
  due,
  ran,
  turned,
};

use crate::seat::{Seat, Status};
use plan::Plan;

impl Seat {
    pub(crate) fn admitted(plan: Plan, collector: u32) -> Seat
        ensures { result ≡ seated plan collector }
    {
        Seat {
            status: Status::Serving,
            plan,
            account: plan.writes,
            collector,
            ..Seat::default()
        }
    }

    pub(crate) fn is_in_use(self) -> bool
        ensures { result ≡ in_use self }
    {
        self.status != Status::Empty
    }

    pub(crate) fn serves(self) -> bool
        ensures { result ≡ is_serving self }
    {
        self.status == Status::Serving
    }

    pub(crate) fn warned(self) -> Seat
        ensures { result ≡ warned self }
    {
        Seat {
            status: Status::OnNotice,
            ..self
        }
    }

    pub(crate) fn took(self) -> Seat
        requires { (self.out ≤ self.charge) × (self.charge < self.plan.writes) }
        ensures { result ≡ took self }
    {
        Seat {
            charge: self.charge + 1,
            out: self.out + 1,
            ..self
        }
    }

    pub(crate) fn gave_back(self) -> Seat
        requires { (0 < self.out) × (self.out ≤ self.charge) }
        ensures { result ≡ gave_back self }
    {
        Seat {
            charge: self.charge - 1,
            out: self.out - 1,
            ..self
        }
    }

    pub(crate) fn saved(self) -> Seat
        requires { (0 < self.out) × (self.out ≤ self.account) }
        ensures { result ≡ saved self }
    {
        Seat {
            account: self.account - 1,
            out: self.out - 1,
            ..self
        }
    }

    pub(crate) fn one_later(self) -> Seat
        requires { self.elapsed < self.plan.meta_period }
        ensures { result ≡ one_later self }
    {
        Seat {
            elapsed: self.elapsed + 1,
            ..self
        }
    }

    // ⌊e·k/σ⌋ of a seat whose clock has not passed its meta-period: no more runs than its plan has, so the cast
    // loses nothing.
    pub(crate) fn due(self) -> u32
        requires { (1 ≤ self.plan.meta_period) × (self.elapsed ≤ self.plan.meta_period) }
        ensures { result ≡ due self }
    {
        let runs = u64::from(self.elapsed) * u64::from(self.plan.runs)
            / u64::from(self.plan.meta_period);
        runs as u32
    }

    pub(crate) fn ran(self, alpha: u32) -> Seat
        requires { (self.account + alpha < 2 ^ 32) × (self.runs + 1 < 2 ^ 32) }
        ensures { result ≡ ran alpha self }
    {
        Seat {
            account: self.account + alpha,
            runs: self.runs + 1,
            ..self
        }
    }

    // Is this the end of a seat under notice?
    pub(crate) fn leaves(self) -> bool
        ensures { result ≡ leaves self }
    {
        self.status == Status::OnNotice && self.elapsed == self.plan.meta_period
    }

    pub(crate) fn turned(self) -> Seat
        ensures { result ≡ turned self }
    {
        if self.elapsed != self.plan.meta_period {
            return self;
        }
        match self.status {
            Status::Empty => self,
            Status::Serving => Seat {
                account: self.plan.writes,
                charge: self.out,
                elapsed: 0,
                runs: 0,
                ..self
            },
            Status::OnNotice => Seat::default(),
        }
    }
}
