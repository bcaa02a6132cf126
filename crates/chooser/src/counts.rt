// A list of counts that a chooser has to answer, and what it comes to: its sum, its maximum and its average.
ghost use Rattle.std.specs.Prelude.{◌≡◌, ◌<◌, true, length, sum as all_dead, slice_index, IfSome};
ghost use Rattle.std.specs.Option.{option_map};
ghost use Rattle.chooser.specs.Counts.{Fullest, below_average, first_from, total_of};
ghost use Rattle.chooser.specs.Hand.{Passes, first_round};
ghost use Rattle.chooser.specs.Law.{Yields, askable};

// The most blocks that a chooser is asked about, and the most dead pages that one of them has.
const MOST_BLOCKS: usize = 64;

const MOST_DEAD: u8 = 32;

// The dead pages of each block, and of all blocks together.
#[derive(Clone, Copy)]
pub(crate) struct Counts<'a> {
    dead: &'a [u8],
    sum: u16,
    ghost asked: { askable dead.now ≡ true },
    ghost summed: { sum ≡ all_dead dead.now },
}

impl<'a> Counts<'a> {
    // Nothing where no chooser has to answer the list.
    pub(crate) fn of(dead: &'a [u8]) -> Option<Counts<'a>>
        ensures sum { option_map (λ counts. counts.sum) result ≡ total_of dead.now }
        ensures dead { IfSome result (λ counts. counts.dead.now ≡ dead.now) }
    {
        if !askable(dead) {
            return None;
        }
        Some(Counts {
            dead,
            sum: dead.iter().map(|count| u16::from(*count)).sum(),
        })
    }

    // How many blocks there are: at most 64, so the cast loses nothing.
    pub(crate) fn blocks(&self) -> u16
        ensures { result ≡ length self.now.dead.now }
    {
        self.dead.len() as u16
    }

    // A block with the most dead pages: the first of several, since `max_by_key` takes the last that it meets.
    pub(crate) fn fullest(&self) -> u16
        ensures { Fullest self.now.dead.now result }
    {
        (0..self.blocks())
            .rev()
            .max_by_key(|block| self.dead[usize::from(*block)])
            .unwrap()
    }

    // The first block that has at least the average, going up from `from` and round: there always is one.
    pub(crate) fn first_round(&self, from: u16) -> u16
        requires { from < length self.now.dead.now }
        ensures block { result ≡ first_round self.now.dead.now from }
        ensures passes { Passes self.now.dead.now from }
        ensures yields { Yields self.now.dead.now result }
    {
        // By cases. The closure of `or_else`, a FnOnce that lends a struct with ghost fields, promises nothing unless it has
        // clauses of its own, and these are longer than two cases. With one `find` over `(from..n).chain(0..from)` it
        // stays open that the closure may be called at each block.
        match self.first_from(from) {
            Some(block) => block,
            None => self.first_from(0).unwrap(),
        }
    }

    // The first block, at `from` or above it, that has at least the average.
    fn first_from(&self, from: u16) -> Option<u16>
        ensures { result ≡ first_from self.now.dead.now from }
    {
        (from..self.blocks()).find(|block| !self.below_average(*block))
    }

    // Whether a block has less than the average, without a division.
    fn below_average(&self, block: u16) -> bool
        requires { block < length self.now.dead.now }
        ensures { result ≡ below_average self.now.dead.now (slice_index self.now.dead.now block) }
    {
        u16::from(self.dead[usize::from(block)]) * self.blocks() < self.sum
    }
}

// Has a chooser to answer this list?
fn askable(dead: &[u8]) -> bool
    ensures { result ≡ askable dead.now }
{
    !dead.is_empty() && dead.len() <= MOST_BLOCKS && dead.iter().all(|count| *count <= MOST_DEAD)
}
