// An evening on a gym console: a rower's splits and a club ranking are saved on a chip whose page writes fail
// now and then, while the collector wins pages back on the clock.
#![tactic(auto)]

mod evening;
mod told;

use chip::{Flawed, Size};
use chooser::Greedy;
use evening::{Console, GUEST, RANKING, ROWER, SPLITS, TABLE, record, whole};
use std::io;
use store::Store;
use told::{Deed, read_back, say};

// Opens the store and admits the jobs. The third does not fit into the pool any more.
fn begin(rt: &HostRuntime, store: &mut Console<'_>) -> io::Result<()> {
    say(rt, "open with 4 page numbers", store.open(4, 2, 17))?;
    say(rt, "rower's splits", store.admit(ROWER, SPLITS))?;
    say(rt, "club ranking", store.admit(RANKING, TABLE))?;
    say(rt, "guest's splits", store.admit(2, GUEST))
}

// The first splits: the second page write and the third fail, and the splits are saved all the same. A permit
// that is handed back can be taken again; a permit beyond the plan is refused.
fn first_splits(rt: &HostRuntime, store: &mut Console<'_>) -> io::Result<()> {
    say(
        rt,
        "split 1",
        record(store, ROWER, 0, &[1, 240]).map(Deed::Saved),
    )?;
    let handed_back = store.take(ROWER).and_then(|permit| store.hand_back(permit));
    say(rt, "permit handed back", handed_back)?;
    say(
        rt,
        "split 2",
        record(store, ROWER, 1, &[2, 241]).map(Deed::Saved),
    )?;
    say(
        rt,
        "split 3, too early",
        record(store, ROWER, 0, &[3, 242]).map(Deed::Saved),
    )
}

// Four blocks of eight pages. The second program fails, the third, and the one in which the collector first copies
// a page.
fn main(rt: HostRuntime) -> io::Result<()> {
    let mut memory = [0u8; 768];
    let size = Size {
        blocks: 4,
        pages_per_block: 8,
        page_size: 8,
    };
    let chip = Flawed::new(&mut memory, size, &[2, 1, 12]);
    let mut store = Store::new(chip, Greedy);
    begin(&rt, &mut store)?;
    first_splits(&rt, &mut store)?;
    let day = whole(&mut store);
    println!(rt; "{day}")?;
    let pages = [
        "even split",
        "odd split",
        "ranking",
        "club record",
        "page number 4",
    ];
    for (number, what) in (0..).zip(pages) {
        say(&rt, what, read_back(&mut store, number))?;
    }
    Ok(())
}
