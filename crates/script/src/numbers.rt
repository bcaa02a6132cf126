ghost use Rattle.std.specs.Prelude.{◌≡◌};
ghost use Rattle.script.specs.Numbers.{number_of};

// The number that a word is. Not by `parse`: that takes a sign too, and wants text, so the word would be gone through
// three times: for its digits, for its text and for its value.
pub fn number(word: &[u8]) -> Option<u16>
    ensures { result ≡ number_of word.now }
{
    if word.is_empty() {
        return None;
    }
    let mut value: u32 = 0;
    for b in word {
        value = value * 10 + char::from(*b).to_digit(10)?;
        if value > u32::from(u16::MAX) {
            return None;
        }
    }
    u16::try_from(value).ok()
}
