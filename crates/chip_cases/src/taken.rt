use chip::{Chip, Flawed, Pair, Plain, Size};

// A chip of two blocks.
const TWO: Size = Size {
    blocks: 2,
    pages_per_block: 4,
    page_size: 1,
};

// A plain chip that comes by value is lent from a local, and goes on into a pair. Both are proved only while `Plain` has
// no ghost field beside its `&mut`.
fn blocks(chip: Plain<'_>) -> u16 {
    let mut local = chip;
    local.shape().blocks
}

fn blocks_of_both<'a, 'b>(first: Plain<'a>, second: Plain<'b>) -> u16 {
    let mut pair = Pair::new(first, second);
    pair.shape().blocks
}

// A flawed chip, with a plain one inside, comes by value where it is given back.
fn programmed<'a>(chip: Flawed<'a>) -> Flawed<'a> {
    let mut local = chip;
    let _ = local.program(0, 7, b"+");
    local
}

#[test]
fn a_chip_taken_by_value_tells_its_shape(rt: HostRuntime) {
    let mut low = [0xFF; 136];
    let mut high = [0xFF; 136];
    assert_eq!(rt; blocks(Plain::new(&mut low, TWO)), 2);
    assert_eq!(rt;
        blocks_of_both(Plain::new(&mut low, TWO), Plain::new(&mut high, TWO)),
        4
    );
    let mut chip = programmed(Flawed::new(&mut high, TWO, &[1, 3]));
    assert_eq!(rt; chip.shape().allowance, 1);
}
