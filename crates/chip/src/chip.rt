ghost use Rattle.std.specs.Prelude.{◌≡◌, length};
ghost use Rattle.chip.specs.Meaning.{Meaning, Shaped};
ghost use Rattle.chip.specs.Calls.{shape_of, kind_told, Programmed, fetched, fetched_into, erase_told, erased};

use crate::words::{Kind, Refusal, Shape};

// A flash chip, by what it means: its pages, block after block, and how many page writes may still fail.
// Every call takes the chip by `&mut`, since a chip behind a controller has registers to write.
pub trait Chip {
    ghost means: { Self → Meaning };

    // The law of the shape: every make shows it of whatever it means.
    ghost shaped: { (c : Self) → Shaped (means c) };

    // The size, and the allowance.
    fn shape(&mut self) -> Shape
        ensures value { result ≡ shape_of (means self.old) }
        ensures same { means self.new ≡ means self.old };

    // What a page is.
    fn kind(&mut self, page: u16) -> Result<Kind, Refusal>
        ensures value { result ≡ kind_told (means self.old) page }
        ensures same { means self.new ≡ means self.old };

    // Puts a label and data on a free page, and says whether the write was good. One that fails spoils the page.
    // The answer is a `bool` in a `Result`, as the rules list it: a refusal leaves the chip as it was, and a write that
    // was done is good or spoiled.
    // Page, label and data, and page and buffer of `fetch`, come one by one, as the rules of a chip list them; every make
    // and every caller has them so.
    fn program(&mut self, page: u16, label: u16, bytes: &[u8]) -> Result<bool, Refusal>
        ensures effect { Programmed (means self.old) page label bytes.now result (means self.new) };

    // Label and length of a written page; its data goes to the front of the buffer.
    fn fetch(&mut self, page: u16, buffer: &mut [u8]) -> Result<(u16, usize), Refusal>
        ensures value { result ≡ fetched (means self.old) page (length buffer.old) }
        ensures buffer { buffer.new ≡ fetched_into (means self.old) page result buffer.old }
        ensures same { means self.new ≡ means self.old };

    // Makes every page of a block free.
    fn erase(&mut self, block: u16) -> Result<(), Refusal>
        ensures value { result ≡ erase_told (means self.old) block }
        ensures after { means self.new ≡ erased (means self.old) block };
}
