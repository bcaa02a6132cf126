use chip::{Chip, Flawed, Kind, Pair, Plain, Refusal, Shape, Size};
use std::test::Fail;

// A chip of one block.
const ONE: Size = Size {
    blocks: 1,
    pages_per_block: 2,
    page_size: 2,
};

// Blocks 0 and 1 are plain, 2 is flawed, 3 is plain.
#[test]
fn a_pair_of_a_pair_is_one_chip(rt: HostRuntime) -> Result<(), Fail> {
    let mut low = [0xFF; 72];
    let mut middle = [0xFF; 36];
    let mut high = [0xFF; 36];
    let upper = Pair::new(
        Flawed::new(&mut middle, ONE, &[1]),
        Plain::new(&mut high, ONE),
    );
    let mut chip = Pair::new(Plain::new(&mut low, Size { blocks: 2, ..ONE }), upper);
    assert_eq!(rt;
        chip.shape(),
        Shape {
            blocks: 4,
            pages_per_block: 2,
            page_size: 2,
            allowance: 1,
        }
    );
    assert!(rt; chip.program(3, 30, b"lo")?);
    assert!(rt; !chip.program(4, 40, b"mi")?);
    assert!(rt; chip.program(6, 60, b"hi")?);
    let mut buffer = [0; 2];
    assert_eq!(rt; chip.fetch(6, &mut buffer)?, (60, 2));
    assert_eq!(rt; buffer, *b"hi");
    assert_eq!(rt; chip.kind(4)?, Kind::Spoiled);
    chip.erase(1)?;
    assert_eq!(rt; chip.kind(3)?, Kind::Free);
    assert_eq!(rt; chip.kind(6)?, Kind::Written);
    assert_eq!(rt; chip.shape().allowance, 0);
    assert_eq!(rt; chip.kind(8), Err(Refusal::NotThere));
    assert_eq!(rt; chip.erase(4), Err(Refusal::NotThere));
    Ok(())
}

#[test]
fn chips_of_unlike_pages_make_no_pair(rt: HostRuntime) {
    let mut one = [0xFF; 36];
    let mut other = [0xFF; 34];
    let mut chip = Pair::new(
        Plain::new(&mut one, ONE),
        Plain::new(
            &mut other,
            Size {
                page_size: 1,
                ..ONE
            },
        ),
    );
    assert_eq!(rt; chip.shape().blocks, 0);
    assert_eq!(rt; chip.kind(0), Err(Refusal::NotThere));
}
