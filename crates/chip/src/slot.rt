// One page as bytes. A slot has 16 bytes of header and then room for the page's data.
ghost use Rattle.std.specs.Prelude.{◌≡◌, ◌+◌, ◌^◌, ◌<◌, ◌≤◌, length};
ghost use Rattle.chip.specs.Calls.{kind_of, fetched_page};
ghost use Rattle.chip.specs.Slot.{room, header, slot_of, two, all_ones, is_written, page_of, fetched_onto};

use crate::words::{Kind, Refusal};

pub const HEADER: usize = 16;

const VERSION: u8 = 1;

// What an erased byte reads as.
pub(crate) const BLANK: u8 = 0xFF;

// Every byte is looked at, with no way out before the end: so the compiler can take many at a time.
fn is_blank(bytes: &[u8]) -> bool
    ensures { result ≡ all_ones bytes.now }
{
    bytes.iter().fold(BLANK, |common, b| common & *b) == BLANK
}

// A slot to read.
#[derive(Clone, Copy)]
pub(crate) struct Slot<'a> {
    pub(crate) bytes: &'a [u8],
    ghost whole: { 16 ≤ length bytes.now },
}

impl<'a> Slot<'a> {
    // How many bytes of data it says that it holds.
    fn count(&self) -> usize
        ensures { result ≡ two self.now.bytes.now 1 }
    {
        usize::from(u16::from_be_bytes([self.bytes[1], self.bytes[2]]))
    }

    fn label(&self) -> u16
        ensures { result ≡ two self.now.bytes.now 3 }
    {
        u16::from_be_bytes([self.bytes[3], self.bytes[4]])
    }

    fn is_written(&self) -> bool
        ensures { result ≡ is_written (room self.now.bytes.now) self.now.bytes.now }
    {
        self.bytes[0] == VERSION && self.count() <= self.bytes.len() - HEADER
    }

    // The first byte alone tells most slots that are not free.
    pub(crate) fn is_free(&self) -> bool
        ensures { result ≡ all_ones self.now.bytes.now }
    {
        self.bytes[0] == BLANK && is_blank(self.bytes)
    }

    #[tactic(auto, using(crate::proofs::Reading::page_written, crate::proofs::Reading::page_free, crate::proofs::Reading::page_spoiled))]
    pub(crate) fn kind(&self) -> Kind
        ensures { result ≡ kind_of (page_of (room self.now.bytes.now) self.now.bytes.now) }
    {
        if self.is_written() {
            Kind::Written
        } else if self.is_free() {
            Kind::Free
        } else {
            Kind::Spoiled
        }
    }

    #[tactic(auto, using(crate::proofs::Reading::fetched_unwritten, crate::proofs::Reading::fetched_too_long, crate::proofs::Reading::fetched_whole, crate::proofs::Reading::fetched_bytes))]
    pub(crate) fn fetch(&self, buffer: &mut [u8]) -> Result<(u16, usize), Refusal>
        ensures value { result ≡ fetched_page (page_of (room self.now.bytes.now) self.now.bytes.now) (length buffer.old) }
        ensures buffer { buffer.new ≡ fetched_onto (page_of (room self.now.bytes.now) self.now.bytes.now) result buffer.old }
    {
        if !self.is_written() {
            return Err(Refusal::WrongKind);
        }
        let long = self.count();
        if long > buffer.len() {
            return Err(Refusal::TooLong);
        }
        buffer[..long].copy_from_slice(&self.bytes[HEADER..HEADER + long]);
        Ok((self.label(), long))
    }
}

fn header(long: u16, label: u16) -> [u8; HEADER]
    ensures { result ≡ header long label }
{
    let [long_high, long_low] = long.to_be_bytes();
    let [label_high, label_low] = label.to_be_bytes();
    let mut front = [BLANK; HEADER];
    front[..5].copy_from_slice(&[VERSION, long_high, long_low, label_high, label_low]);
    front
}

// Writes the whole slot, whatever it held.
pub(crate) fn write(slot: &mut [u8], label: u16, bytes: &[u8])
    requires fits { 16 + length bytes.now ≤ length slot.old }
    requires small { length bytes.now < 2 ^ 16 }
    ensures { slot.new ≡ slot_of (room slot.old) label bytes.now }
{
    // The length is below 2 ^ 16, so the cast loses nothing.
    let front = header(bytes.len() as u16, label);
    let (head, rest) = slot.split_at_mut(HEADER);
    let (data, tail) = rest.split_at_mut(bytes.len());
    head.copy_from_slice(&front);
    data.copy_from_slice(bytes);
    tail.fill(BLANK);
}
