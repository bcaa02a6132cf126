// Every refusal, by its number: that is what firmware and scripts see.
use chip::{Flawed, Plain, Size};
use chooser::Greedy;
use ledger::Refusal;
use plan::Job;
use store::Store;

// The number of a refusal, and 0 for a call that was accepted.
fn number_of<T: Drop>(answer: Result<T, Refusal>) -> u8 {
    answer.err().map_or(0, Refusal::number)
}

// So many blocks of so many pages of eight bytes.
fn sized(blocks: u16, pages_per_block: u16) -> Size {
    Size {
        blocks,
        pages_per_block,
        page_size: 8,
    }
}

// A chip of four blocks of four pages of eight bytes, not yet opened.
fn shut(memory: &mut [u8]) -> Store<Plain<'_>, Greedy> {
    Store::new(Plain::new(memory, sized(4, 4)), Greedy)
}

// One page in two ticks.
const SMALL: Job = Job {
    period: 2,
    writes: 1,
};

// The same, opened with two page numbers, a yield of one and a pool of 13. Seat 0 may write one page in two ticks.
fn small(memory: &mut [u8]) -> Store<Plain<'_>, Greedy> {
    let mut store = shut(memory);
    let _ = store.open(2, 1, 13);
    let _ = store.admit(0, SMALL);
    store
}

// Takes a permit and hands it back.
fn taken(store: &mut Store<Plain<'_>, Greedy>, seat: u8) -> u8 {
    number_of(store.take(seat).and_then(|permit| store.hand_back(permit)))
}

// Takes a permit and saves with it.
fn saved(store: &mut Store<Plain<'_>, Greedy>, number: u16, bytes: &[u8]) -> u8 {
    number_of(
        store
            .take(0)
            .and_then(|permit| store.save(permit, number, bytes)),
    )
}

// Opens a store over a chip of this size.
fn opened(size: Size, numbers: u32, alpha: u32, pool: u32) -> u8 {
    let mut memory = [0u8; 384];
    let chip = Flawed::new(&mut memory, size, &[3]);
    let mut store = Store::new(chip, Greedy);
    number_of(store.open(numbers, alpha, pool))
}

#[test]
fn openings(rt: HostRuntime) {
    assert_eq!(rt; opened(sized(4, 4), 5, 2, 4), 0);
    assert_eq!(rt; opened(sized(1, 16), 5, 2, 4), 2);
    assert_eq!(rt; opened(sized(5, 4), 5, 2, 4), 2);
    assert_eq!(rt; opened(sized(4, 4), 0, 2, 4), 3);
    assert_eq!(rt; opened(sized(4, 4), 1921, 2, 4), 3);
    assert_eq!(rt; opened(sized(4, 4), 5, 0, 4), 4);
    assert_eq!(rt; opened(sized(4, 4), 5, 5, 4), 4);
    assert_eq!(rt; opened(sized(4, 4), 5, 2, 5), 5);
    assert_eq!(rt; opened(sized(4, 4), 5, 2, u32::MAX), 5);
}

#[test]
fn a_shut_store(rt: HostRuntime) {
    let mut memory = [0u8; 384];
    let mut store = shut(&mut memory);
    assert_eq!(rt; number_of(store.admit(0, SMALL)), 6);
    assert_eq!(rt; number_of(store.notice(0)), 6);
    assert_eq!(rt; taken(&mut store, 0), 6);
    assert_eq!(rt; number_of(store.read(0, &mut [0; 8])), 6);
    assert_eq!(rt; number_of(store.tick()), 6);
    assert_eq!(rt; number_of(store.open(2, 1, 13)), 0);
    assert_eq!(rt; number_of(store.open(2, 1, 13)), 1);
}

#[test]
fn seats(rt: HostRuntime) {
    let mut memory = [0u8; 384];
    let mut store = small(&mut memory);
    let table: [(u8, u32, u32, u8); 7] = [
        (8, 2, 1, 7),
        (255, 0, 0, 7),
        (0, 2, 1, 8),
        (1, 0, 1, 9),
        (1, 2, 1025, 9),
        (1, 2, 7, 10),
        (1, 2, 2, 11),
    ];
    for (seat, period, writes, number) in table {
        assert_eq!(rt;
            number_of(store.admit(seat, Job { period, writes })),
            number
        );
    }
    assert_eq!(rt; taken(&mut store, 1), 12);
    assert_eq!(rt; number_of(store.notice(8)), 12);
    assert_eq!(rt; number_of(store.notice(0)), 0);
    assert_eq!(rt; number_of(store.notice(0)), 13);
    assert_eq!(rt; taken(&mut store, 0), 13);
    assert_eq!(rt; number_of(store.tick()), 0);
    assert_eq!(rt; number_of(store.tick()), 0);
    assert_eq!(rt; taken(&mut store, 0), 12);
}

// A save that is refused for its page number or its length hands its permit back, so the next take is granted.
#[test]
fn pages(rt: HostRuntime) {
    let mut memory = [0u8; 384];
    let mut store = small(&mut memory);
    assert_eq!(rt; number_of(store.read(2, &mut [0; 8])), 17);
    assert_eq!(rt; number_of(store.read(0, &mut [0; 8])), 19);
    assert_eq!(rt; saved(&mut store, 2, &[7]), 17);
    assert_eq!(rt; saved(&mut store, 0, &[7; 9]), 18);
    assert_eq!(rt; taken(&mut store, 0), 0);
    assert_eq!(rt; saved(&mut store, 0, &[7; 8]), 0);
    assert_eq!(rt; taken(&mut store, 0), 14);
    assert_eq!(rt; number_of(store.read(0, &mut [0; 7])), 20);
    assert_eq!(rt; number_of(store.read(0, &mut [0; 8])), 0);
}

// A permit counts by its seat, whatever store gave it: a store that has none out refuses it.
#[test]
fn permits(rt: HostRuntime) {
    let mut one_memory = [0u8; 384];
    let mut one = small(&mut one_memory);
    let mut other_memory = [0u8; 384];
    let mut other = small(&mut other_memory);
    // By `match`: the permit goes to the other store, between two calls on this one.
    let (noticed, returned) = match one.take(0) {
        Ok(permit) => (number_of(one.notice(0)), number_of(other.hand_back(permit))),
        Err(refusal) => (refusal.number(), 0),
    };
    assert_eq!(rt; (noticed, returned), (15, 16));
    let stored = number_of(
        other
            .take(0)
            .and_then(|permit| one.save(permit, 1, &[4, 2])),
    );
    assert_eq!(rt; stored, 0);
    assert_eq!(rt; taken(&mut one, 0), 14);
    assert_eq!(rt; number_of(other.notice(0)), 15);
}
