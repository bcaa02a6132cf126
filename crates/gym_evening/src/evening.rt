// The evening itself, on values: nothing here prints.
use chip::Flawed;
use chooser::Greedy;
use ledger::Refusal;
use plan::Job;
use store::{Store, Ticked};

// What stands in the gym: a store over a flawed chip.
pub(crate) type Console<'a> = Store<Flawed<'a>, Greedy>;

// The seats of the two jobs.
pub(crate) const ROWER: u8 = 0;

pub(crate) const RANKING: u8 = 1;

// The jobs, and one that comes too late.
pub(crate) const SPLITS: Job = Job {
    period: 4,
    writes: 2,
};

pub(crate) const TABLE: Job = Job {
    period: 6,
    writes: 3,
};

pub(crate) const GUEST: Job = Job {
    period: 10,
    writes: 1,
};

// What was done in an evening, summed up. It holds no `Ticked`, which has no sum of its own.
// Not by `Add`, below: a save or a `Ticked` is added, and no second `Totals`.
#[derive(Clone, Copy, Default)]
pub(crate) struct Totals {
    pub(crate) saves: u32,
    pub(crate) tries: u32,
    pub(crate) refused: u32,
    pub(crate) runs: u32,
    pub(crate) recycles: u32,
    pub(crate) copies: u32,
    pub(crate) copy_tries: u32,
}

impl Totals {
    fn saved(self, answer: Result<u32, Refusal>) -> Totals {
        match answer {
            Ok(tries) => Totals {
                saves: self.saves.saturating_add(1),
                tries: self.tries.saturating_add(tries),
                ..self
            },
            Err(_) => self.refused(),
        }
    }

    fn refused(self) -> Totals {
        Totals {
            refused: self.refused.saturating_add(1),
            ..self
        }
    }

    fn ticked(self, answer: Result<Ticked, Refusal>) -> Totals {
        match answer {
            Ok(done) => Totals {
                runs: self.runs.saturating_add(done.runs),
                recycles: self.recycles.saturating_add(done.recycles),
                copies: self.copies.saturating_add(done.copies),
                copy_tries: self.copy_tries.saturating_add(done.tries),
                ..self
            },
            Err(_) => self.refused(),
        }
    }
}

// Saves one page of a job: a permit is taken and spent.
pub(crate) fn record(
    store: &mut Console<'_>,
    seat: u8,
    number: u16,
    bytes: &[u8],
) -> Result<u32, Refusal> {
    let permit = store.take(seat)?;
    store.save(permit, number, bytes)
}

// One tick, and what the jobs save after it: at each second tick a split, and in between the ranking. The first
// page of the ranking's job is the club record, which is then saved no more: when its block is emptied, the
// collector copies it.
fn minute(store: &mut Console<'_>, at: u8, day: Totals) -> Totals {
    let day = day.ticked(store.tick());
    if at % 2 == 0 {
        return day.saved(record(store, ROWER, u16::from(at / 2 % 2), &[at, 240]));
    }
    let number = if at == 1 { 3 } else { 2 };
    day.saved(record(store, RANKING, number, &[at, 42]))
}

// Forty ticks.
pub(crate) fn whole(store: &mut Console<'_>) -> Totals {
    let mut day = Totals::default();
    for at in 1..=40u8 {
        day = minute(store, at, day);
    }
    day
}
