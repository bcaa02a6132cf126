// Putting a store together, and opening it.
ghost use Rattle.std.specs.Prelude.{◌≡◌, [], None};
ghost use Rattle.chip.specs.Meaning.{Meaning};
ghost use Rattle.chip.specs.Calls.{shape_of};
ghost use Rattle.ledger.specs.Books.{answer};
ghost use Rattle.history.specs.History.{History};
ghost use Rattle.store.specs.State.{frame_for, Sound};
ghost use Rattle.store.specs.Seen.{seen};
ghost use Rattle.store.specs.Effects.{asks_frame, blank, Opens};
ghost use Rattle.store.specs.Calls.{Run, Entered, entry_open};

use crate::open::Open;
use crate::store::Store;
use chip::{Chip, Shape};
use chooser::Chooser;
use ledger::{Frame, Ledger, Refusal};
use pages::{Geometry, Tables};

// What an opening fixes on a chip of this shape. Numbers, yield and pool come one by one, as the rules list them for
// an opening: `Frame` is the struct that they go into.
fn framed(shape: Shape, numbers: u32, alpha: u32, pool: u32) -> Frame
    ensures { (m : Meaning) → shape ≡ shape_of m → result ≡ frame_for m numbers alpha pool }
{
    Frame {
        blocks: u32::from(shape.blocks),
        pages_per_block: u32::from(shape.pages_per_block),
        page_size: u32::from(shape.page_size),
        allowance: u32::from(shape.allowance),
        numbers,
        alpha,
        pool,
    }
}

// Can a shut store be opened with this frame? The bounds stand as numbers, as the rules list them.
fn may_open(is_open: bool, frame: Frame) -> Result<(), Refusal>
    ensures { result ≡ answer (asks_frame is_open frame) tt }
{
    if is_open {
        return Err(Refusal::AlreadyOpen);
    }
    if !(2..=64).contains(&frame.blocks) {
        return Err(Refusal::BlocksOutOfRange);
    }
    if !(1..=1920).contains(&frame.numbers) {
        return Err(Refusal::NumbersOutOfRange);
    }
    if !(1..=frame.pages_per_block).contains(&frame.alpha) {
        return Err(Refusal::AlphaOutOfRange);
    }
    if !frame.yields(u64::from(frame.pool) + u64::from(frame.allowance)) {
        return Err(Refusal::YieldRuleFails);
    }
    Ok(())
}

// Erases every block, in ascending order. An erase of a block that is there is never refused.
fn erase_all<C: Chip>(chip: &mut C, blocks: u16)
    ensures { blocks ≡ (C.Chip.means chip.old).blocks → C.Chip.means chip.new ≡ blank (C.Chip.means chip.old) }
{
    for block in 0..blocks {
        let _ = chip.erase(block);
    }
}

impl<C: Chip, H: Chooser> Store<C, H> {
    // A store is put together from any chip and any chooser, and is shut.
    pub fn new(chip: C, chooser: H) -> Store<C, H>
        ensures shut { result.opened ≡ None }
        ensures chip { result.chip ≡ chip }
        ensures chooser { result.chooser ≡ chooser }
        ensures sound { Sound (seen C.Chip.means result) }
        ensures run { Run [] (seen C.Chip.means result) }
    {
        Store {
            chip,
            chooser,
            opened: None,
        }
    }

    // Opens the store: erases every block, and offers `numbers` page numbers over a pool of tokens. A run of the
    // collector wins back `alpha` pages.
    pub fn open(&mut self, numbers: u32, alpha: u32, pool: u32) -> Result<(), Refusal>
        ensures effect { Opens (seen C.Chip.means self.old) numbers alpha pool result (seen C.Chip.means self.new) }
        ensures sound { Sound (seen C.Chip.means self.new) }
        ensures promise { (h : History) → Run h (seen C.Chip.means self.old) → Entered (entry_open numbers alpha pool result) h (seen C.Chip.means self.new) }
    {
        let shape = self.chip.shape();
        let frame = framed(shape, numbers, alpha, pool);
        may_open(self.opened.is_some(), frame)?;
        // Asked again, since a ledger takes no caller's word for its frame: so this refusal is never given.
        let ledger = Ledger::opened(frame).ok_or(Refusal::TablesDisagree)?;
        let geometry = Geometry {
            blocks: shape.blocks,
            pages_per_block: shape.pages_per_block,
        };
        erase_all(&mut self.chip, shape.blocks);
        self.opened = Some(Open {
            ledger,
            tables: Tables::fresh(geometry),
        });
        Ok(())
    }
}
