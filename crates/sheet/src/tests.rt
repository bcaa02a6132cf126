use crate::sheets::plan_sheet;
use std::test::Fail;

#[test]
fn each_line_has_its_answer(rt: HostRuntime) -> Result<(), Fail> {
    let cases: [(&[u8], &[u8]); 7] = [
        (b"", b""),
        (b"16 20 2", b"160 16 1\n"),
        (b"16 20 2\n1 1 1\n", b"160 16 1\n1 1 1\n"),
        (b"\n16 20 30", b"?\n20 30 2\n"),
        (b"32 60000 1", b"1920000 32 1\n"),
        (
            b"33 60000 1\n32 60001 1\n32 60000 1025\n0 1 1\n1 0 1\n1 1 0",
            b"?\n?\n?\n?\n?\n?\n",
        ),
        (
            b"1 1\n1 1 1 1\n1  1\n1 1 1 \n1\t1 1\n65537 1 1",
            b"?\n?\n?\n?\n?\n?\n",
        ),
    ];
    for (input, want) in cases {
        let got = plan_sheet(rt.alloc(), input)?;
        assert!(rt; got.as_slice() == want);
    }
    Ok(())
}

// Leading zeros make a line as long as one likes.
#[test]
fn a_sheet_has_at_most_32768_bytes(rt: HostRuntime) -> Result<(), Fail> {
    let longest = [b'0'; 32_764];
    let mut input = longest.as_slice().to_vec(rt.alloc())?;
    input.extend_from_slice(b"1 1 1")?;
    assert!(rt; input.len() == 32_769);
    let refused = plan_sheet(rt.alloc(), input.as_slice())?;
    assert!(rt; refused.as_slice() == b"!\n".as_slice());
    let answered = plan_sheet(rt.alloc(), &input[1..])?;
    assert!(rt; answered.as_slice() == b"1 1 1\n".as_slice());
    Ok(())
}
