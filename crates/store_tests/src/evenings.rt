// Evenings of two jobs: a rower's splits and a club ranking. What is counted was worked out by another program.
use chip::{Chip, Flawed, Pair, Plain, Size};
use chooser::{Chooser, Greedy, Hand};
use ledger::Refusal;
use plan::Job;
use store::{Store, Ticked};

// Saves and their tries, then what the ticks did: runs, recycles, copies and their tries. The program has such totals
// of its own: to share them, a crate would have to stand between it and its tests.
#[derive(Clone, Copy, PartialEq, Eq, Debug, Default)]
struct Counts {
    saves: u32,
    tries: u32,
    runs: u32,
    recycles: u32,
    copies: u32,
    copy_tries: u32,
}

// The rows of numbers that the tests compare with are those of the other program.
impl From<Counts> for [u32; 6] {
    fn from(counts: Counts) -> [u32; 6] {
        let Counts {
            saves,
            tries,
            runs,
            recycles,
            copies,
            copy_tries,
        } = counts;
        [saves, tries, runs, recycles, copies, copy_tries]
    }
}

// Is this byte stored under a page number, and no other?
fn holds<C: Chip, H: Chooser>(store: &mut Store<C, H>, number: u16, byte: u8) -> bool {
    let mut buffer = [0u8; 8];
    store.read(number, &mut buffer) == Ok(1) && buffer[0] == byte
}

// Takes a permit, saves a byte with it and reads it back; answers the tries, if it is to be had.
fn record<C: Chip, H: Chooser>(
    store: &mut Store<C, H>,
    seat: u8,
    number: u16,
    byte: u8,
) -> Option<u32> {
    let answer = store
        .take(seat)
        .and_then(|permit| store.save(permit, number, &[byte]));
    answer.ok().filter(|_| holds(store, number, byte))
}

// A tick, and then a split or a page of the ranking. The first page of all is never saved again, and must stay.
fn minute<C: Chip, H: Chooser>(store: &mut Store<C, H>, at: u8, so_far: Counts) -> Counts {
    let Ok(done) = store.tick() else {
        return so_far;
    };
    let tries = match at {
        1 => record(store, 1, 3, 77),
        _ if at % 2 == 1 => record(store, 1, 2, at),
        _ => record(store, 0, u16::from(at / 2 % 2), at),
    };
    let good = tries.is_some() && holds(store, 3, 77);
    Counts {
        saves: so_far.saves.saturating_add(u32::from(good)),
        tries: so_far.tries.saturating_add(tries.unwrap_or_default()),
        runs: so_far.runs.saturating_add(done.runs),
        recycles: so_far.recycles.saturating_add(done.recycles),
        copies: so_far.copies.saturating_add(done.copies),
        copy_tries: so_far.copy_tries.saturating_add(done.tries),
    }
}

fn admitted<C: Chip, H: Chooser>(store: &mut Store<C, H>) -> Result<(), Refusal> {
    store.open(4, 2, 17)?;
    store.admit(
        0,
        Job {
            period: 4,
            writes: 2,
        },
    )?;
    store.admit(
        1,
        Job {
            period: 6,
            writes: 3,
        },
    )?;
    Ok(())
}

// A store over this chip and this chooser, opened, with both jobs for so many ticks.
fn evening<C: Chip + Drop, H: Chooser + Drop>(chip: C, chooser: H, ticks: u8) -> [u32; 6] {
    let mut store = Store::new(chip, chooser);
    let mut counts = Counts::default();
    if admitted(&mut store).is_ok() {
        for at in 1..=ticks {
            counts = minute(&mut store, at, counts);
        }
    }
    counts.into()
}

// So many blocks of eight pages of eight bytes.
fn sized(blocks: u16) -> Size {
    Size {
        blocks,
        pages_per_block: 8,
        page_size: 8,
    }
}

// An evening on a flawed chip of four blocks.
fn flawed<H: Chooser + Drop>(gaps: &[u16], chooser: H, ticks: u8) -> [u32; 6] {
    let mut memory = [0u8; 768];
    evening(Flawed::new(&mut memory, sized(4), gaps), chooser, ticks)
}

// Failures on a save, on the last page of a block, three in a row, on a copy, and on a save and a copy.
#[test]
fn failed_tries_are_counted_and_nothing_is_lost(rt: HostRuntime) {
    assert_eq!(rt; flawed(&[2], Greedy, 40), [40, 41, 23, 4, 2, 2]);
    assert_eq!(rt; flawed(&[8], Greedy, 40), [40, 41, 23, 4, 2, 2]);
    assert_eq!(rt; flawed(&[5, 1, 1], Greedy, 40), [40, 43, 23, 4, 2, 2]);
    assert_eq!(rt; flawed(&[16], Greedy, 40), [40, 40, 23, 4, 2, 3]);
    assert_eq!(rt; flawed(&[17, 9], Greedy, 40), [40, 41, 23, 4, 3, 4]);
}

#[test]
fn two_plans_over_hundreds_of_ticks(rt: HostRuntime) {
    assert_eq!(rt; flawed(&[], Greedy, 240), [240, 240, 140, 30, 15, 15]);
    assert_eq!(rt; flawed(&[17, 9], Greedy, 240), [240, 241, 140, 31, 17, 18]);
    assert_eq!(rt;
        flawed(&[17, 9], Hand::new(), 240),
        [240, 241, 140, 31, 17, 18]
    );
}

#[test]
fn a_pair_of_chips_is_one_chip(rt: HostRuntime) {
    let mut front = [0u8; 384];
    let mut back = [0u8; 384];
    let first = Flawed::new(&mut front, sized(2), &[2, 15]);
    let second = Plain::new(&mut back, sized(2));
    assert_eq!(rt;
        evening(Pair::new(first, second), Hand::new(), 40),
        [40, 42, 23, 4, 3, 3]
    );
}

// What a caller keeps over chips of any make: a store over two of them, and nothing else. It names what the chips have
// to be, and no bound on the pair: so a store has to stand in a field over a chip that an `impl` alone makes one.
#[derive(Drop)]
struct Desk<A: Chip, B: Chip> {
    store: Store<Pair<A, B>, Greedy>,
}

impl<A: Chip, B: Chip> Desk<A, B> {
    fn tick(&mut self) -> Result<Ticked, Refusal> {
        self.store.tick()
    }
}

#[test]
fn a_store_over_a_pair_stands_in_a_field_of_a_generic_struct(rt: HostRuntime) {
    let mut front = [0u8; 384];
    let mut back = [0u8; 384];
    let first = Plain::new(&mut front, sized(2));
    let second = Plain::new(&mut back, sized(2));
    let mut desk = Desk {
        store: Store::new(Pair::new(first, second), Greedy),
    };
    assert_eq!(rt; desk.tick(), Err(Refusal::NotOpen));
    assert_eq!(rt; admitted(&mut desk.store), Ok(()));
    // One run in four ticks for the first job, two in six for the second.
    let mut runs = 0u32;
    for _ in 0..12u8 {
        runs = runs.saturating_add(desk.tick().map_or(0, |done| done.runs));
    }
    assert_eq!(rt; runs, 7);
}
