ghost use Rattle.std.specs.Prelude.{◌≡◌};
ghost use Rattle.plan.specs.Yield.{yield_rule};
ghost use Rattle.ledger.specs.Books.{collector_share};
ghost use Rattle.ledger.specs.Fair.{stands};

use plan::yield_rule;

// What the opening of a store fixes: the size of its chip and the allowance then, how many page numbers
// are offered, how many pages a run wins back, and the pool of tokens. The books reckon with 32 bits, so the chip's
// sizes are widened here once.
#[derive(Clone, Copy)]
pub struct Frame {
    pub blocks: u32,
    pub pages_per_block: u32,
    pub page_size: u32,
    pub allowance: u32,
    pub numbers: u32,
    pub alpha: u32,
    pub pool: u32,
}

impl Frame {
    // Can a ledger be opened with this frame? The bounds stand as numbers, as the rules list them.
    pub(crate) fn stands(self) -> bool
        ensures { result ≡ stands self }
    {
        (1..=self.pages_per_block).contains(&self.alpha)
            && self.pages_per_block <= 32
            && self.blocks <= 64
            && self.yields(u64::from(self.pool) + u64::from(self.allowance))
    }

    // Does every choice of a block win back its yield, where so many tokens at most are out?
    pub fn yields(self, held: u64) -> bool
        ensures { result ≡ yield_rule self.blocks self.pages_per_block self.numbers held self.alpha }
    {
        yield_rule(
            u64::from(self.blocks),
            u64::from(self.pages_per_block),
            u64::from(self.numbers),
            held,
            u64::from(self.alpha),
        )
    }

    // What each collector holds: it can copy every live page of a block with `alpha` dead ones. A seat is lent this and
    // its writes; the two are added where it is known that the sum fits.
    pub(crate) fn collector_share(self) -> u32
        ensures { result ≡ collector_share self }
    {
        self.pages_per_block.saturating_sub(self.alpha)
    }
}
