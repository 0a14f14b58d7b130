// A draw under way.
ghost use Rattle.std.specs.Prelude.{ℕ, ◌≤◌};
ghost use Rattle.theory.specs.Draws.{height_of};

use model::draw::Entries;

mod open;
mod runs;
mod tries;

// One entry for each vertex of the plan that it was opened with, that plan's root, and the number of pops.
#[derive(Drop)]
pub struct Draw {
    entries: Entries,
    root: u16,
    pops: usize,
    ghost low: { (v : ℕ) → height_of entries.list.items v ≤ 4096 },
}
