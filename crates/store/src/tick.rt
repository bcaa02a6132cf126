ghost use Rattle.std.specs.Prelude.{◌≡◌, ℕ, ◌+◌, ◌^◌, ◌<◌, Some};
ghost use Rattle.history.specs.History.{History};
ghost use Rattle.store.specs.State.{standing, Sound, OpenSound};
ghost use Rattle.store.specs.Seen.{seen};
ghost use Rattle.store.specs.Effects.{Ticks};
ghost use Rattle.store.specs.Calls.{Run, Entered, entry_tick};
ghost use Rattle.store.specs.Walking.{one_run, one_recycle, CanRun, Runs, CanServe, Serves};

use crate::open::Open;
use crate::store::Store;
use crate::ticked::Ticked;
use chip::Chip;
use chooser::Chooser;
use ledger::{Refusal, SEATS};
use pages::Emptied;

impl Ticked {
    // One run more that needed no recycle. Not by `Add`, here and below: no second `Ticked` is added.
    fn with_run(self) -> Ticked
        ensures { self.runs + 1 < 2 ^ 32 → result ≡ one_run self }
    {
        Ticked {
            runs: self.runs.saturating_add(1),
            ..self
        }
    }

    // One run more that emptied a block.
    fn with_recycle(self, done: Emptied) -> Ticked
        ensures { self.runs + 1 < 2 ^ 32 → self.recycles + 1 < 2 ^ 32 → self.copies + done.copies < 2 ^ 32 → self.tries + done.tries < 2 ^ 32 → result ≡ one_recycle self done }
    {
        Ticked {
            runs: self.runs.saturating_add(1),
            recycles: self.recycles.saturating_add(1),
            copies: self.copies.saturating_add(done.copies),
            tries: self.tries.saturating_add(done.tries),
        }
    }
}

// Chip and chooser are lent to these side by side: a store has both while it is shut too, so `Open` holds neither,
// and a struct of three borrows would be one more type for three private functions.
impl Open {
    // One run for a seat: unless there are pages to spare, a block is recycled first; then the seat's account
    // gains the yield.
    fn run<C: Chip, H: Chooser>(
        &mut self,
        chip: &mut C,
        chooser: &mut H,
        seat: u8,
        so_far: Ticked,
    ) -> Result<Ticked, Refusal>
        ensures { let before = standing C.Chip.means chip.old chooser.old (Some self.old) in let after = standing C.Chip.means chip.new chooser.new (Some self.new) in (n : ℕ) → CanRun n seat so_far before → Runs n seat so_far before result after }
    {
        let wanted = u64::from(self.ledger.tokens()) + u64::from(self.ledger.alpha());
        if u64::from(self.tables.free) >= wanted {
            self.ledger.ran(seat);
            return Ok(so_far.with_run());
        }
        let done = self.tables.recycle(chip, chooser)?;
        self.ledger.pay_for(done.tries.saturating_sub(done.copies));
        self.ledger.ran(seat);
        Ok(so_far.with_recycle(done))
    }

    // A tick for one seat: its clock, the runs that are due then, and the end of its meta-period.
    fn serve<C: Chip, H: Chooser>(
        &mut self,
        chip: &mut C,
        chooser: &mut H,
        seat: u8,
        so_far: Ticked,
    ) -> Result<Ticked, Refusal>
        ensures { let before = standing C.Chip.means chip.old chooser.old (Some self.old) in let after = standing C.Chip.means chip.new chooser.new (Some self.new) in (n : ℕ) → CanServe n seat so_far before → Serves n seat so_far before result after }
    {
        if !self.ledger.enter(seat) {
            return Ok(so_far);
        }
        let due = self.ledger.runs_due(seat);
        let mut count = so_far;
        for _ in 0..due {
            count = self.run(chip, chooser, seat, count)?;
        }
        self.ledger.end(seat);
        Ok(count)
    }

    // A tick for every seat, in ascending order.
    fn pass<C: Chip, H: Chooser>(
        &mut self,
        chip: &mut C,
        chooser: &mut H,
    ) -> Result<Ticked, Refusal>
        ensures { let before = standing C.Chip.means chip.old chooser.old (Some self.old) in let after = standing C.Chip.means chip.new chooser.new (Some self.new) in OpenSound before → Ticks before result after }
    {
        let mut count = Ticked::default();
        // There are eight, so the cast loses nothing.
        for seat in 0..SEATS as u8 {
            count = self.serve(chip, chooser, seat, count)?;
        }
        Ok(count)
    }
}

impl<C: Chip, H: Chooser> Store<C, H> {
    // A tick of the clock: every seat in use makes the runs that are due.
    pub fn tick(&mut self) -> Result<Ticked, Refusal>
        ensures effect { Ticks (seen C.Chip.means self.old) result (seen C.Chip.means self.new) }
        ensures sound { Sound (seen C.Chip.means self.new) }
        ensures promise { (h : History) → Run h (seen C.Chip.means self.old) → Entered (entry_tick result) h (seen C.Chip.means self.new) }
    {
        let open = self.opened.as_mut().ok_or(Refusal::NotOpen)?;
        open.pass(&mut self.chip, &mut self.chooser)
    }
}
