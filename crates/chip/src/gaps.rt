ghost use Rattle.std.specs.Prelude.{◌≡◌, ◌-◌, ◌≤◌, true, false, [], length, drop, if◌then◌else◌, MatchOption};
ghost use Rattle.chip.specs.Gaps.{strikes, worn, good_gaps};

// The most gaps that a chip may have.
const MOST: usize = 8;

// The gaps of a flawed chip, at the end of the table. The one at `next` counts, and those before it are spent.
// They are lent for the call of `new` alone, so they are copied, into a table as large as it may get: there is no heap.
// No ghost field says that `next` is at most 8: a chip that holds a `&mut` and such a struct is not proved where it is
// a type argument.
#[derive(Clone, Copy)]
pub(crate) struct Gaps {
    table: [u16; MOST],
    next: usize,
}

impl Gaps {
    pub(crate) fn none() -> Gaps
        ensures { drop result.next result.table ≡ [] }
    {
        Gaps {
            table: [0; MOST],
            next: MOST,
        }
    }

    pub(crate) fn new(gaps: &[u16]) -> Option<Gaps>
        ensures { MatchOption result (good_gaps gaps.now ≡ false) (λ g. (good_gaps gaps.now ≡ true) × (8 - g.next ≡ length gaps.now) × (drop g.next g.table ≡ gaps.now)) }
    {
        if gaps.len() > MOST || gaps.contains(&0) {
            return None;
        }
        let next = MOST - gaps.len();
        let mut table = [0; MOST];
        table[next..].copy_from_slice(gaps);
        Some(Gaps { table, next })
    }

    // How many gaps are left: 8 at most, so the cast loses nothing.
    pub(crate) fn left(&self) -> u16
        ensures { result ≡ 8 - self.now.next }
    {
        MOST.saturating_sub(self.next) as u16
    }

    // Whether the next accepted program fails.
    pub(crate) fn strike(&self) -> bool
        ensures value { result ≡ strikes (drop self.now.next self.now.table) }
        ensures some { result ≡ true → 1 ≤ 8 - self.now.next }
    {
        self.table.get(self.next).is_some_and(|gap| *gap <= 1)
    }

    // Counts an accepted program. Looked at by `get` and written by index: of `get_mut` a proof knows no element after the
    // write.
    pub(crate) fn wear(&mut self)
        ensures after { drop self.new.next self.new.table ≡ worn (drop self.old.next self.old.table) }
        ensures left { 8 - self.new.next ≡ (8 - self.old.next) - (if strikes (drop self.old.next self.old.table) then 1 else 0) }
    {
        match self.table.get(self.next) {
            Some(gap) if *gap > 1 => self.table[self.next] -= 1,
            Some(_) => self.next += 1,
            None => {}
        }
    }
}
