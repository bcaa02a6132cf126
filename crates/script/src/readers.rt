// Not by `split` of a slice: after a last line feed, and of no input at all, that hands out one empty part more, which is
// no line. Two types, since a script hands out lines and a line words: their clauses say what each has left.

// A script: the bytes that follow the lines handed out.
#[derive(Drop)]
pub struct Script<'a> {
    pub(crate) rest: &'a [u8],
}

// A line: the bytes that follow the words handed out, and nothing after the last word.
#[derive(Drop)]
pub struct Line<'a> {
    pub(crate) rest: Option<&'a [u8]>,
}
