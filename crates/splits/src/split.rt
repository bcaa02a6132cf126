ghost use Rattle.std.specs.Prelude.{◌≡◌, ◌+◌, ◌*◌, ◌/◌, ◌%◌, [], ◌∷◌, slice_index};

use std::fmt;

// The pace over 500 m in tenths of a second, and the power in watts.
#[derive(Clone, Copy)]
pub struct Split {
    pub tenths: u16,
    pub watts: u16,
}

// A split as it is stored: both numbers big-endian.
pub type Stored = [u8; 4];

impl From<Split> for Stored {
    ghost from_gives = { λ split bytes. bytes ≡ split.tenths / 256 ∷ split.tenths % 256 ∷ split.watts / 256 ∷ split.watts % 256 ∷ [] };

    fn from(split: Split) -> Stored {
        let [tenths_high, tenths_low] = split.tenths.to_be_bytes();
        let [watts_high, watts_low] = split.watts.to_be_bytes();
        [tenths_high, tenths_low, watts_high, watts_low]
    }
}

impl From<Stored> for Split {
    ghost from_gives = { λ bytes split. (split.tenths ≡ slice_index bytes 0 * 256 + slice_index bytes 1) × (split.watts ≡ slice_index bytes 2 * 256 + slice_index bytes 3) };

    fn from([tenths_high, tenths_low, watts_high, watts_low]: Stored) -> Split {
        Split {
            tenths: u16::from_be_bytes([tenths_high, tenths_low]),
            watts: u16::from_be_bytes([watts_high, watts_low]),
        }
    }
}

impl fmt::Display for Split {
    fn fmt<W: fmt::Write>(&self, f: &mut fmt::Formatter<W>) -> fmt::Result {
        let minutes = self.tenths / 600;
        let seconds = self.tenths % 600 / 10;
        let tenths = self.tenths % 10;
        let watts = self.watts;
        write!(f, "{minutes}:{seconds:02}.{tenths} at {watts} W")
    }
}
