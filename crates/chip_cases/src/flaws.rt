use chip::{Chip, Flawed, Kind, Refusal, Size};
use std::test::Fail;

const SIZE: Size = Size {
    blocks: 2,
    pages_per_block: 4,
    page_size: 1,
};

#[test]
fn gaps_of_3_1_and_2_fail_the_third_fourth_and_sixth_program(rt: HostRuntime) -> Result<(), Fail> {
    let mut memory = [0xFF; 136];
    let mut chip = Flawed::new(&mut memory, SIZE, &[3, 1, 2]);
    let good = [true, true, false, false, true, false, true, true];
    let left = [3, 3, 2, 1, 1, 0, 0, 0];
    for ((page, good), left) in (0..8u16).zip(good).zip(left) {
        assert_eq!(rt; chip.program(page, page, b"+")?, good);
        assert_eq!(rt; chip.program(page, page, b"+"), Err(Refusal::WrongKind));
        assert_eq!(rt; chip.shape().allowance, left);
        let kind = if good { Kind::Written } else { Kind::Spoiled };
        assert_eq!(rt; chip.kind(page)?, kind);
    }
    assert!(rt; memory[34..51] == [0; 17][..]);
    Ok(())
}

#[test]
fn a_bad_gap_gives_no_pages(rt: HostRuntime) {
    let mut memory = [0xFF; 136];
    assert_eq!(rt;
        Flawed::new(&mut memory, SIZE, &[1, 2, 3, 4, 5, 6, 7, 8])
            .shape()
            .allowance,
        8
    );
    assert_eq!(rt;
        Flawed::new(&mut memory, SIZE, &[1, 2, 3, 4, 5, 6, 7, 8, 9])
            .shape()
            .blocks,
        0
    );
    assert_eq!(rt;
        Flawed::new(&mut memory, SIZE, &[1, 0]).kind(0),
        Err(Refusal::NotThere)
    );
}
