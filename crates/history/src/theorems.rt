ghost use Rattle.std.specs.Prelude.{◌≡◌};
ghost use Rattle.history.specs.Coupled.{SeatsKept};
ghost use Rattle.history.specs.Joined.{PromiseStands, PromiseReaches};
ghost use Rattle.history.specs.Laws.{PlaceIsOne, WorkKeeps, WorkCounts, LiveEraseBreaks, ChoiceYields, WriteCosts, RecycleKeeps, RecycleRight};

// Each function's contract is a theorem. The number returned says nothing more; it is 0, since that is promised too.

// A search has one place.
pub fn place_is_one() -> u8
    ensures law { PlaceIsOne }
    ensures value { result ≡ 0 }
{
    0
}

// Whatever the store's work was, what was saved is kept, and every recycle is worth its while.
pub fn work_stands() -> u8
    ensures keeps { WorkKeeps }
    ensures counts { WorkCounts }
    ensures breaks { LiveEraseBreaks }
    ensures yields { ChoiceYields }
    ensures recycles { RecycleKeeps }
    ensures right { RecycleRight }
    ensures costs { WriteCosts }
    ensures value { result ≡ 0 }
{
    0
}

// Every history of the seats' moves is counted by its entries.
pub fn seats_stand() -> u8
    ensures law { SeatsKept }
    ensures value { result ≡ 0 }
{
    0
}

// Seats and pages together keep the promise, and so does a store at any time.
pub fn promise_stands() -> u8
    ensures stands { PromiseStands }
    ensures reaches { PromiseReaches }
    ensures value { result ≡ 0 }
{
    0
}
