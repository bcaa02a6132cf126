// The calls on one seat: a question of the store, and then the ledger's call.
ghost use Rattle.std.specs.Prelude.{◌≡◌};
ghost use Rattle.history.specs.History.{History};
ghost use Rattle.store.specs.State.{Sound};
ghost use Rattle.store.specs.Seen.{seen};
ghost use Rattle.store.specs.Effects.{Admits, Notices, Takes, Returns};
ghost use Rattle.store.specs.Calls.{Run, Entered, entry_admit, entry_notice, entry_take, entry_return};

use crate::store::{Permit, Store};
use chip::Chip;
use chooser::Chooser;
use ledger::Refusal;
use plan::{Job, Plan};

impl<C: Chip, H: Chooser> Store<C, H> {
    // Admits a job to an empty seat, and answers its plan.
    pub fn admit(&mut self, seat: u8, job: Job) -> Result<Plan, Refusal>
        ensures effect { Admits (seen C.Chip.means self.old) seat job.period job.writes result (seen C.Chip.means self.new) }
        ensures sound { Sound (seen C.Chip.means self.new) }
        ensures promise { (h : History) → Run h (seen C.Chip.means self.old) → Entered (entry_admit seat job.period job.writes result) h (seen C.Chip.means self.new) }
    {
        let open = self.opened.as_mut().ok_or(Refusal::NotOpen)?;
        open.ledger.admit(seat, job)
    }

    // Puts a serving seat under notice: it is emptied at its meta-period's end.
    pub fn notice(&mut self, seat: u8) -> Result<(), Refusal>
        ensures effect { Notices (seen C.Chip.means self.old) seat result (seen C.Chip.means self.new) }
        ensures sound { Sound (seen C.Chip.means self.new) }
        ensures promise { (h : History) → Run h (seen C.Chip.means self.old) → Entered (entry_notice seat result) h (seen C.Chip.means self.new) }
    {
        let open = self.opened.as_mut().ok_or(Refusal::NotOpen)?;
        open.ledger.notice(seat)
    }

    // Takes a permit for one page write of a serving seat.
    pub fn take(&mut self, seat: u8) -> Result<Permit, Refusal>
        ensures effect { Takes (seen C.Chip.means self.old) seat result (seen C.Chip.means self.new) }
        ensures sound { Sound (seen C.Chip.means self.new) }
        ensures promise { (h : History) → Run h (seen C.Chip.means self.old) → Entered (entry_take seat result) h (seen C.Chip.means self.new) }
    {
        let open = self.opened.as_mut().ok_or(Refusal::NotOpen)?;
        open.ledger.take(seat)?;
        Ok(Permit { seat })
    }

    // Hands a permit back. The permit is spent whatever the answer.
    pub fn hand_back(&mut self, permit: Permit) -> Result<(), Refusal>
        ensures effect { Returns (seen C.Chip.means self.old) permit.seat result (seen C.Chip.means self.new) }
        ensures sound { Sound (seen C.Chip.means self.new) }
        ensures promise { (h : History) → Run h (seen C.Chip.means self.old) → Entered (entry_return permit.seat result) h (seen C.Chip.means self.new) }
    {
        let Permit { seat } = permit;
        let open = self.opened.as_mut().ok_or(Refusal::NotOpen)?;
        open.ledger.hand_back(seat)
    }
}
