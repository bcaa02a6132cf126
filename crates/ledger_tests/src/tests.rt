use ledger::{Frame, Ledger, Refusal};
use plan::{Job, Plan};

// Four blocks of four pages, one failure allowed, five page numbers, a yield of two and a pool of four.
const SMALL: Frame = Frame {
    blocks: 4,
    pages_per_block: 4,
    page_size: 8,
    allowance: 1,
    numbers: 5,
    alpha: 2,
    pool: 4,
};

// A job of so many writes in each period of so many ticks.
fn job(period: u32, writes: u32) -> Job {
    Job { period, writes }
}

// One tick; says whether a run was made.
fn tick(ledger: &mut Ledger) -> bool {
    let mut ran = false;
    for seat in 0..8 {
        if ledger.enter(seat) {
            for _ in 0..ledger.runs_due(seat) {
                ledger.ran(seat);
                ran = true;
            }
            ledger.end(seat);
        }
    }
    ran
}

#[test]
fn a_seat_spends_what_its_plan_allows(rt: HostRuntime) {
    let mut ledger = Ledger::opened(SMALL).expect(&rt, "the frame stands");
    assert_eq!(rt; ledger.tokens(), 5);
    assert_eq!(rt; ledger.admit(8, job(3, 1)), Err(Refusal::NoSuchSeat));
    assert_eq!(rt; ledger.admit(0, job(0, 1)), Err(Refusal::JobOutOfRange));
    assert_eq!(rt; ledger.admit(0, job(3, 3)), Err(Refusal::PoolTooSmall));
    assert_eq!(rt;
        ledger.admit(0, job(3, 1)),
        Ok(Plan {
            meta_period: 6,
            writes: 2,
            runs: 1
        })
    );
    assert_eq!(rt; ledger.admit(0, job(3, 1)), Err(Refusal::SeatInUse));
    assert_eq!(rt; ledger.take(0), Ok(()));
    assert_eq!(rt; ledger.spend(0), Ok(()));
    assert_eq!(rt; ledger.take(0), Ok(()));
    assert_eq!(rt; ledger.take(0), Err(Refusal::AllCharged));
    ledger.pay();
    assert_eq!(rt; ledger.tokens(), 3);
    for ran in [false, false, false, false, false, true] {
        assert_eq!(rt; tick(&mut ledger), ran);
    }
    let seat = ledger.seat(0);
    // Three of its fields: the lines above have the others.
    assert_eq!(rt; (seat.account, seat.charge, seat.out), (2, 1, 1));
    assert_eq!(rt; ledger.tokens(), 4);
}

#[test]
fn a_seat_under_notice_gives_its_share_back(rt: HostRuntime) {
    let mut ledger = Ledger::opened(SMALL).expect(&rt, "the frame stands");
    assert_eq!(rt;
        ledger.admit(7, job(1, 2)),
        Ok(Plan {
            meta_period: 1,
            writes: 2,
            runs: 1
        })
    );
    assert_eq!(rt; ledger.take(7), Ok(()));
    assert_eq!(rt; ledger.notice(7), Err(Refusal::PermitsOut));
    assert_eq!(rt; ledger.hand_back(7), Ok(()));
    assert_eq!(rt; ledger.may_spend(7), Err(Refusal::NoPermitOut));
    assert_eq!(rt; ledger.notice(7), Ok(()));
    assert_eq!(rt; ledger.take(7), Err(Refusal::SeatNotServing));
    assert!(rt; tick(&mut ledger));
    assert!(rt; !ledger.in_use(7));
    assert_eq!(rt; ledger.take(7), Err(Refusal::SeatNotInUse));
    assert_eq!(rt; ledger.tokens(), 5);
}

#[test]
fn a_frame_past_its_limits_opens_nothing(rt: HostRuntime) {
    let table: [(u32, u32, u32, u32); 4] = [
        (4, 4, 5, 4),
        (4, 33, 1, 4),
        (65, 4, 1, 4),
        (4, 4, 2, u32::MAX),
    ];
    for (blocks, pages_per_block, alpha, pool) in table {
        let frame = Frame {
            blocks,
            pages_per_block,
            alpha,
            pool,
            ..SMALL
        };
        assert!(rt; Ledger::opened(frame).is_none());
    }
    assert_eq!(rt; Ledger::idle().tokens(), 0);
}

#[test]
fn the_refusals_have_their_numbers(rt: HostRuntime) {
    let table: [(Refusal, u8); 9] = [
        (Refusal::NoSuchSeat, 7),
        (Refusal::SeatInUse, 8),
        (Refusal::JobOutOfRange, 9),
        (Refusal::PoolTooSmall, 10),
        (Refusal::SeatNotInUse, 12),
        (Refusal::SeatNotServing, 13),
        (Refusal::AllCharged, 14),
        (Refusal::PermitsOut, 15),
        (Refusal::NoPermitOut, 16),
    ];
    for (refusal, number) in table {
        assert_eq!(rt; refusal.number(), number);
    }
}
