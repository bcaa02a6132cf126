// What a chooser is asked: the number of dead pages of each block.
#[derive(Clone, Copy)]
pub struct Question<'a> {
    pub dead: &'a [u8],
}
