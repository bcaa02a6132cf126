// A recording job: it writes so many pages in each period of so many ticks.
#[derive(Clone, Copy, PartialEq, Eq, Debug)]
pub struct Job {
    pub period: u32,
    pub writes: u32,
}

// The plan of a seat: in each meta-period of so many ticks the seat may write so many pages,
// and the collector makes so many runs for it.
#[derive(Clone, Copy, PartialEq, Eq, Debug, Default)]
pub struct Plan {
    pub meta_period: u32,
    pub writes: u32,
    pub runs: u32,
}
