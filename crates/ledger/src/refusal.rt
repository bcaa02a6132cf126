ghost use Rattle.std.specs.Prelude.{◌≡◌};
ghost use Rattle.ledger.specs.Refusals.{number};

// Why a store did not do what it was asked: the first question that was answered "no".
#[derive(Clone, Copy, PartialEq, Eq, Debug)]
pub enum Refusal {
    // open
    AlreadyOpen = 1,
    BlocksOutOfRange = 2,
    NumbersOutOfRange = 3,
    AlphaOutOfRange = 4,
    YieldRuleFails = 5,
    // every other call
    NotOpen = 6,
    // admit
    NoSuchSeat = 7,
    SeatInUse = 8,
    JobOutOfRange = 9,
    PoolTooSmall = 10,
    YieldRuleWouldFail = 11,
    // a call on a seat
    SeatNotInUse = 12,
    SeatNotServing = 13,
    AllCharged = 14,
    PermitsOut = 15,
    NoPermitOut = 16,
    // save and read
    NoSuchNumber = 17,
    DataTooLong = 18,
    NothingStored = 19,
    BufferTooShort = 20,
    // never answered by a store that was only used through its calls: its tables and its chip disagree
    TablesDisagree = 99,
}

impl Refusal {
    // The number of a refusal, as firmware and scripts know it. Not by `Display`: a program says it in words of its own.
    // No `From` takes an enum to its number; each is below 256.
    pub fn number(self) -> u8
        ensures { result ≡ number self }
    {
        self as u8
    }
}
