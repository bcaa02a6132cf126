// What the program says of an answer.
use crate::evening::{Console, Totals};
use ledger::Refusal;
use plan::Plan;
use std::{fmt, io};

// What was done, where nothing was refused.
#[derive(Clone, Copy)]
pub(crate) enum Deed {
    Done,
    Admitted(Plan),
    Saved(u32),
    Read(Front, usize),
}

// The first two bytes of a page.
pub(crate) type Front = [u8; 2];

impl From<()> for Deed {
    fn from(_: ()) -> Deed {
        Deed::Done
    }
}

impl From<Plan> for Deed {
    fn from(plan: Plan) -> Deed {
        Deed::Admitted(plan)
    }
}

impl fmt::Display for Deed {
    fn fmt<W: fmt::Write>(&self, f: &mut fmt::Formatter<W>) -> fmt::Result {
        match self {
            Deed::Done => f.write_str("done"),
            Deed::Admitted(plan) => {
                let (ticks, writes, runs) = plan.numbers();
                write!(
                    f,
                    "saves {writes}, collector runs {runs}, in each {ticks} ticks"
                )
            }
            Deed::Saved(tries) => write!(f, "saved, tries {tries}"),
            Deed::Read([first, second], length) => {
                write!(f, "{length} bytes read back, {first} {second}")
            }
        }
    }
}

// What the jobs and the collector did between them.
impl fmt::Display for Totals {
    fn fmt<W: fmt::Write>(&self, f: &mut fmt::Formatter<W>) -> fmt::Result {
        let Totals {
            saves,
            tries,
            refused,
            runs,
            recycles,
            copies,
            copy_tries,
        } = *self;
        writeln!(
            f,
            "saves: {saves} stored in {tries} tries, {refused} refused"
        )?;
        writeln!(f, "collector: {runs} runs, {recycles} recycles")?;
        write!(f, "collector: {copies} pages copied in {copy_tries} tries")
    }
}

pub(crate) fn say<T: Into<Deed>>(
    rt: &HostRuntime,
    what: &str,
    answer: Result<T, Refusal>,
) -> io::Result<()> {
    match answer {
        Ok(done) => {
            let deed = done.into();
            println!(rt; "{what}: {deed}")
        }
        Err(refusal) => {
            let number = refusal.number();
            println!(rt; "{what}: refused with {number}")
        }
    }
}

// Reads a page number back: its first two bytes, and how many are stored.
pub(crate) fn read_back(store: &mut Console<'_>, number: u16) -> Result<Deed, Refusal> {
    let mut buffer = [0u8; 8];
    let length = store.read(number, &mut buffer)?;
    let [first, second, ..] = buffer;
    Ok(Deed::Read([first, second], length))
}
