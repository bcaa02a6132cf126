ghost use Rattle.std.specs.Prelude.{◌≡◌, ◌+◌, ◌<◌, length, take, drop, MatchOption};
ghost use Rattle.std.specs.Iterator.{item_count};
ghost use Rattle.std.specs.Option.{option_map};
ghost use Rattle.script.specs.Law.{CutLaw};
ghost use Rattle.script.specs.Reader.{Hands, lines_left, words_left};
ghost use Rattle.script.specs.Text.{part, script_of};

use crate::readers::{Line, Script};

impl<'a> Script<'a> {
    pub fn new(input: &'a [u8]) -> Script<'a>
        ensures lines { lines_left result ≡ script_of input.now }
        ensures law { CutLaw input.now }
    {
        Script { rest: input }
    }
}

// Hands out the lines.
impl<'a> Iterator for Script<'a> {
    type Item = Line<'a>;

    ghost next_gives = { λ before line after. Hands (lines_left before) (option_map words_left line) (lines_left after) };

    ghost remaining = { item_count lines_left };

    fn next(&mut self) -> Option<Line<'a>> {
        if self.rest.is_empty() {
            return None;
        }
        let (line, rest) = split_at_mark(self.rest, b'\n');
        self.rest = rest.unwrap_or_default();
        Some(Line { rest: Some(line) })
    }
}

// Hands out the words.
impl<'a> Iterator for Line<'a> {
    type Item = &'a [u8];

    ghost next_gives = { λ before word after. Hands (words_left before) (option_map (λ x. x.now) word) (words_left after) };

    ghost remaining = { item_count words_left };

    fn next(&mut self) -> Option<&'a [u8]> {
        let (word, rest) = split_at_mark(self.rest?, b' ');
        self.rest = rest;
        Some(word)
    }
}

// The bytes before the first mark, and those after it, where there is one.
fn split_at_mark(bytes: &[u8], mark: u8) -> (&[u8], Option<&[u8]>)
    ensures first { result.0.now ≡ take (part mark bytes.now) bytes.now }
    ensures rest { MatchOption result.1 (part mark bytes.now ≡ length bytes.now) (λ rest. (part mark bytes.now < length bytes.now) × (rest.now ≡ drop (part mark bytes.now + 1) bytes.now)) }
{
    match bytes.iter().position(|b| *b == mark) {
        Some(at) => (&bytes[..at], Some(&bytes[at + 1..])),
        None => (bytes, None),
    }
}
