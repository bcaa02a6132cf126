mod calls;

use crate::gaps::Gaps;
use crate::plain::Plain;

// A chip in memory that the caller lends, on which some programs fail: one for each gap that is left.
// A type of its own, and not a `Plain` with gaps: `Plain` promises that no program fails.
#[derive(Drop)]
pub struct Flawed<'a> {
    plain: Plain<'a>,
    gaps: Gaps,
}
