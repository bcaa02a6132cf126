use plan::Plan;

// A seat is empty, serves a recording job, or is under notice: then it is emptied at its meta-period's end.
#[derive(Clone, Copy, PartialEq, Eq, Debug, Default)]
pub enum Status {
    #[default]
    Empty,
    Serving,
    OnNotice,
}

// The record of a seat: its plan, the tokens of its account and of its collector, and since the start of
// its meta-period what was charged, the ticks that have passed and the runs that were made. `out` counts
// the permits that were granted and are neither spent nor handed back. An empty seat has a record too, of zeros, and is
// no `None`: what a seat's number shows is a record whatever stands there, and the rules count it with the others.
#[derive(Clone, Copy, Default)]
pub struct Seat {
    pub status: Status,
    pub plan: Plan,
    pub account: u32,
    pub collector: u32,
    pub charge: u32,
    pub out: u32,
    pub elapsed: u32,
    pub runs: u32,
}
