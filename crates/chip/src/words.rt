ghost use Rattle.std.specs.Prelude.{◌≡◌};
ghost use Rattle.chip.specs.Calls.{number};
ghost use Rattle.chip.specs.Pairs.{both_shapes};

// What a page is. The label and data of a written page are told by `fetch`.
#[derive(Clone, Copy, PartialEq, Eq, Debug)]
pub enum Kind {
    Free,
    Spoiled,
    Written,
}

// Why a chip did not do what it was asked: the first question that was answered "no".
// Each refusal has the number under which the rules list it.
#[derive(Clone, Copy, PartialEq, Eq, Debug)]
pub enum Refusal {
    // Is the page or the block there?
    NotThere = 21,
    // Is the page free, to program it, or written, to fetch it?
    WrongKind = 22,
    // Does the data fit the page, or the caller's buffer?
    TooLong = 23,
}

impl Refusal {
    // That number. No `From` takes an enum to it; each is below 256.
    pub fn number(self) -> u8
        ensures { result ≡ number self }
    {
        self as u8
    }
}

// How large a chip is, and how many of its page writes may still fail. By default it has no pages.
// Its numbers stand beside the allowance, and not in a `Size`: these fields are public, and the clauses name them.
#[derive(Clone, Copy, PartialEq, Eq, Debug, Default)]
pub struct Shape {
    pub blocks: u16,
    pub pages_per_block: u16,
    pub page_size: u16,
    pub allowance: u16,
}

impl Shape {
    // The shape of two chips as one, if they fit together.
    pub(crate) fn join(self, other: Shape) -> Option<Shape>
        ensures { result ≡ both_shapes self other }
    {
        let fit = self.pages_per_block == other.pages_per_block
            && self.page_size == other.page_size
            && u32::from(self.blocks) + u32::from(other.blocks) <= 64
            && u32::from(self.allowance) + u32::from(other.allowance) <= u32::from(u16::MAX);
        fit.then(|| Shape {
            blocks: self.blocks + other.blocks,
            allowance: self.allowance + other.allowance,
            ..self
        })
    }
}
