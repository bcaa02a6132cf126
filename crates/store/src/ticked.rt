// What a tick did: the runs it made, the blocks it recycled, the live pages it copied out of them, and the
// programs it called for the copies.
// The sums saturate, so that no part of a tick has a premise on the counts: that they stay small is proved. Not an
// `Emptied` within: these fields are public, and the clauses name them.
#[derive(Clone, Copy, PartialEq, Eq, Debug, Default)]
pub struct Ticked {
    pub runs: u32,
    pub recycles: u32,
    pub copies: u32,
    pub tries: u32,
}
