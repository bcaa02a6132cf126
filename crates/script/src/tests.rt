use crate::numbers::number;
use crate::readers::Script;
use crate::writing::push_number;
use std::test::Fail;

// The words of each line, a bar after each word and a semicolon after each line.
fn told(heap: std::alloc::Global, input: &[u8]) -> Result<Vec<u8>, Fail> {
    let mut out = Vec::new(heap);
    for line in Script::new(input) {
        for word in line {
            out.extend_from_slice(word)?;
            out.push(b'|')?;
        }
        out.push(b';')?;
    }
    Ok(out)
}

#[test]
fn lines_and_words_are_handed_out_in_order(rt: HostRuntime) -> Result<(), Fail> {
    let cases: [(&[u8], &[u8]); 8] = [
        (b"", b""),
        (b"\n", b"|;"),
        (b"a", b"a|;"),
        (b"a\n", b"a|;"),
        (b"a bc\nd", b"a|bc|;d|;"),
        (b"a  b \n\n c", b"a||b||;|;|c|;"),
        (b"A 0 3 1\nT 6\n", b"A|0|3|1|;T|6|;"),
        (b" \n", b"||;"),
    ];
    for (input, want) in cases {
        let got = told(rt.alloc(), input)?;
        assert!(rt; got.as_slice() == want);
    }
    Ok(())
}

#[test]
fn a_number_is_digits_up_to_the_largest(rt: HostRuntime) {
    assert_eq!(rt; number(b"0"), Some(0));
    assert_eq!(rt; number(b"65535"), Some(65_535));
    assert_eq!(rt; number(b"000000000000065535"), Some(65_535));
    assert_eq!(rt; number(b"65536"), None);
    assert_eq!(rt; number(b"4294967296"), None);
    assert_eq!(rt; number(b""), None);
    assert_eq!(rt; number(b"+1"), None);
    assert_eq!(rt; number(b"1x"), None);
}

#[test]
fn a_number_is_written_in_decimal(rt: HostRuntime) -> Result<(), Fail> {
    let mut out = Vec::new(rt.alloc());
    push_number(&mut out, 0)?;
    push_number(&mut out, 10)?;
    push_number(&mut out, 987)?;
    push_number(&mut out, u32::MAX)?;
    assert!(rt; out.as_slice() == b"0109874294967295".as_slice());
    Ok(())
}
