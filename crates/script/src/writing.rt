ghost use Rattle.std.specs.Prelude.{◌≡◌, ◌++◌, is_ok, if◌then◌else◌, decimal};

use std::alloc::AllocError;

// Writes a number in decimal after what `out` holds; where memory is wanting, `out` stays as it was. The digits are made
// first, in ten bytes on the stack: so a vector that has room is written without any memory more. Not by the library's
// printing: in a String of its own that takes memory for every number, and of `out` itself its contract says nothing
// where it fails.
pub fn push_number(out: &mut Vec<u8>, number: u32) -> Result<(), AllocError>
    ensures { out.new.items ≡ (if is_ok result then out.old.items ++ decimal number else out.old.items) }
{
    let mut digits = [b'0'; 10];
    let mut first = 9;
    let mut rest = number;
    while rest >= 10 {
        digits[first] = b'0' + (rest % 10) as u8;
        rest /= 10;
        first -= 1;
    }
    digits[first] = b'0' + rest as u8;
    out.extend_from_slice(&digits[first..])
}
