ghost use Rattle.std.specs.Prelude.{◌≤◌};

// How many blocks a chip in use has, and how many pages each of them. No `Size` of a chip: the page size does not matter
// here, and that the numbers are in range is a fact of every geometry.
#[derive(Clone, Copy)]
pub struct Geometry {
    pub blocks: u16,
    pub pages_per_block: u16,
    ghost sized: { (1 ≤ blocks) × (blocks ≤ 64) × (1 ≤ pages_per_block) × (pages_per_block ≤ 32) },
}
