use chip::{Chip, Kind, Plain, Refusal, Shape, Size};
use std::test::Fail;

const SIZE: Size = Size {
    blocks: 4,
    pages_per_block: 2,
    page_size: 4,
};

// Eight slots of a chip with 4 bytes a page, two slots to a block.
const DUMP: [u8; 160] = [
    // page 0: free
    0xFF, 0xFF, 0xFF, 0xFF, 0xFF, 0xFF, 0xFF, 0xFF, 0xFF, 0xFF, 0xFF, 0xFF, 0xFF, 0xFF, 0xFF, 0xFF,
    0xFF, 0xFF, 0xFF, 0xFF,
    // page 1: written, label 0x0102, no data
    0x01, 0x00, 0x00, 0x01, 0x02, 0xFF, 0xFF, 0xFF, 0xFF, 0xFF, 0xFF, 0xFF, 0xFF, 0xFF, 0xFF, 0xFF,
    0xFF, 0xFF, 0xFF, 0xFF,
    // page 2: written, label 7, "ab"
    0x01, 0x00, 0x02, 0x00, 0x07, 0xFF, 0xFF, 0xFF, 0xFF, 0xFF, 0xFF, 0xFF, 0xFF, 0xFF, 0xFF, 0xFF,
    0x61, 0x62, 0xFF, 0xFF,
    // page 3: written, label 0xFFFF, "abcd"
    0x01, 0x00, 0x04, 0xFF, 0xFF, 0xFF, 0xFF, 0xFF, 0xFF, 0xFF, 0xFF, 0xFF, 0xFF, 0xFF, 0xFF, 0xFF,
    0x61, 0x62, 0x63, 0x64,
    // page 4: spoiled, as a failed program leaves it
    0x00, 0x00, 0x00, 0x00, 0x00, 0x00, 0x00, 0x00, 0x00, 0x00, 0x00, 0x00, 0x00, 0x00, 0x00, 0x00,
    0x00, 0x00, 0x00, 0x00,
    // page 5: an odd version
    0x02, 0x00, 0x02, 0x00, 0x07, 0xFF, 0xFF, 0xFF, 0xFF, 0xFF, 0xFF, 0xFF, 0xFF, 0xFF, 0xFF, 0xFF,
    0x61, 0x62, 0xFF, 0xFF,
    // page 6: a length that no page takes
    0x01, 0x00, 0x05, 0x00, 0x07, 0xFF, 0xFF, 0xFF, 0xFF, 0xFF, 0xFF, 0xFF, 0xFF, 0xFF, 0xFF, 0xFF,
    0x61, 0x62, 0x63, 0x64,
    // page 7: all but the last byte free
    0xFF, 0xFF, 0xFF, 0xFF, 0xFF, 0xFF, 0xFF, 0xFF, 0xFF, 0xFF, 0xFF, 0xFF, 0xFF, 0xFF, 0xFF, 0xFF,
    0xFF, 0xFF, 0xFF, 0x00,
];

#[test]
fn a_dump_reads_as_its_pages(rt: HostRuntime) -> Result<(), Fail> {
    let mut memory = DUMP;
    let mut chip = Plain::new(&mut memory, SIZE);
    let kinds = [
        Kind::Free,
        Kind::Written,
        Kind::Written,
        Kind::Written,
        Kind::Spoiled,
        Kind::Spoiled,
        Kind::Spoiled,
        Kind::Spoiled,
    ];
    for (page, kind) in (0..8u16).zip(kinds) {
        assert_eq!(rt; chip.kind(page)?, kind);
    }
    assert_eq!(rt; chip.kind(8), Err(Refusal::NotThere));
    Ok(())
}

#[test]
fn a_fetch_leaves_the_rest_of_the_buffer(rt: HostRuntime) -> Result<(), Fail> {
    let mut memory = DUMP;
    let mut chip = Plain::new(&mut memory, SIZE);
    let mut buffer = [9; 5];
    assert_eq!(rt; chip.fetch(1, &mut buffer)?, (0x0102, 0));
    assert_eq!(rt; buffer, [9; 5]);
    assert_eq!(rt; chip.fetch(2, &mut buffer)?, (7, 2));
    assert_eq!(rt; buffer, [0x61, 0x62, 9, 9, 9]);
    assert_eq!(rt; chip.fetch(3, &mut buffer)?, (0xFFFF, 4));
    assert_eq!(rt; buffer, [0x61, 0x62, 0x63, 0x64, 9]);
    assert_eq!(rt; chip.fetch(0, &mut buffer), Err(Refusal::WrongKind));
    assert_eq!(rt; chip.fetch(3, &mut buffer[0..3]), Err(Refusal::TooLong));
    assert_eq!(rt; chip.fetch(8, &mut buffer), Err(Refusal::NotThere));
    Ok(())
}

#[test]
fn a_program_writes_its_slot_and_an_erase_its_block(rt: HostRuntime) -> Result<(), Fail> {
    let mut memory = DUMP;
    let mut chip = Plain::new(&mut memory, SIZE);
    assert!(rt; chip.program(0, 0x1234, b"xyz")?);
    assert_eq!(rt; chip.program(0, 1, b""), Err(Refusal::WrongKind));
    assert_eq!(rt; chip.program(8, 1, b"abcde"), Err(Refusal::NotThere));
    chip.erase(1)?;
    assert_eq!(rt; chip.program(2, 1, b"abcde"), Err(Refusal::TooLong));
    assert_eq!(rt; chip.erase(4), Err(Refusal::NotThere));
    let first = [
        0x01, 0x00, 0x03, 0x12, 0x34, 0xFF, 0xFF, 0xFF, 0xFF, 0xFF, 0xFF, 0xFF, 0xFF, 0xFF, 0xFF,
        0xFF, 0x78, 0x79, 0x7A, 0xFF,
    ];
    assert!(rt; memory[0..20] == first[..]);
    assert!(rt; memory[20..40] == DUMP[20..40]);
    assert!(rt; memory[40..80] == [0xFF; 40][..]);
    assert!(rt; memory[80..160] == DUMP[80..160]);
    Ok(())
}

#[test]
fn sizes_that_do_not_fit_give_no_pages(rt: HostRuntime) {
    let mut memory = DUMP;
    let mut chip = Plain::new(
        &mut memory,
        Size {
            page_size: 5,
            ..SIZE
        },
    );
    assert_eq!(rt; chip.shape(), Shape::default());
    assert_eq!(rt; chip.kind(0), Err(Refusal::NotThere));
    assert_eq!(rt; chip.erase(0), Err(Refusal::NotThere));
}
