// Keeps the splits of a rowing workout on a flawed chip until a block is full, reads them back, and erases.
#![tactic(auto)]

mod split;

use chip::{Chip, Flawed, Kind, Shape, Size};
use split::{Split, Stored};
use std::io;

const SIZE: Size = Size {
    blocks: 2,
    pages_per_block: 4,
    page_size: 4,
};

const PAGES: u16 = SIZE.blocks * SIZE.pages_per_block;

// One character for each page: free, spoiled or written. What prints is handed the handle and the chip side by side:
// nothing else needs the two together.
fn map<C: Chip>(rt: &HostRuntime, chip: &mut C) -> io::Result<()> {
    print!(rt; "map")?;
    for page in 0..PAGES {
        let mark = match chip.kind(page) {
            Ok(Kind::Free) => " .",
            Ok(Kind::Spoiled) => " x",
            Ok(Kind::Written) => " #",
            Err(_) => " ?",
        };
        print!(rt; "{mark}")?;
    }
    println!(rt; "")
}

// Tries the pages of the first block from one on, and gives the page after the one that took the split. When the block is
// full that is past its last page, and the next split tries none.
fn keep<C: Chip>(
    rt: &HostRuntime,
    chip: &mut C,
    from: u16,
    number: u16,
    split: Split,
) -> io::Result<u16> {
    let bytes = Stored::from(split);
    for page in from..SIZE.pages_per_block {
        match chip.program(page, number, &bytes) {
            Ok(true) => {
                println!(rt; "split {number}, {split}: page {page}")?;
                return Ok(page + 1);
            }
            Ok(false) => println!(rt; "split {number}: page {page} failed")?,
            Err(refusal) => {
                let why = refusal.number();
                println!(rt; "split {number}: refused, {why}")?;
            }
        }
    }
    println!(rt; "split {number}, {split}: block 0 is full")?;
    Ok(SIZE.pages_per_block)
}

fn read_back<C: Chip>(rt: &HostRuntime, chip: &mut C) -> io::Result<()> {
    for page in 0..PAGES {
        let mut bytes = [0; 4];
        if let Ok((number, _)) = chip.fetch(page, &mut bytes) {
            let split = Split::from(bytes);
            println!(rt; "page {page} holds split {number}, {split}")?;
        }
    }
    Ok(())
}

fn main(rt: HostRuntime) -> io::Result<()> {
    let mut memory = [0xFF; 160];
    let mut chip = Flawed::new(&mut memory, SIZE, &[3, 9]);
    let Shape {
        blocks,
        allowance,
        ..
    } = chip.shape();
    println!(rt; "{blocks} blocks, {allowance} writes may fail")?;
    let workout = [
        Split {
            tenths: 1124,
            watts: 246,
        },
        Split {
            tenths: 1119,
            watts: 250,
        },
        Split {
            tenths: 1130,
            watts: 242,
        },
        Split {
            tenths: 1098,
            watts: 264,
        },
    ];
    let mut page = 0;
    for (number, split) in (1..).zip(workout) {
        page = keep(&rt, &mut chip, page, number, split)?;
    }
    map(&rt, &mut chip)?;
    read_back(&rt, &mut chip)?;
    if chip.erase(0).is_ok() {
        println!(rt; "block 0 erased")?;
    }
    map(&rt, &mut chip)
}
