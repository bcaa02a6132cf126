// What emptying a block took: the live pages that were copied, and the programs for them.
// The sums saturate, so that no call has a premise on the counts: that they stay small is proved of a tick.
#[derive(Clone, Copy, PartialEq, Eq, Debug, Default)]
pub struct Emptied {
    pub copies: u32,
    pub tries: u32,
}
