mod calls;

use crate::size::Size;

// A chip in memory that the caller lends. No program fails on it.
#[derive(Drop)]
pub struct Plain<'a> {
    memory: &'a mut [u8],
    // Where the memory does not fit it is a size of zeros, and not an Option without one: either means a chip without
    // pages, and so each call asks one question, whether the size fits, and not two. No ghost field says that it fits: a
    // function that takes by value a chip with a ghost field beside its `&mut` can neither lend it nor put it into a pair
    // or a store.
    size: Size,
}
