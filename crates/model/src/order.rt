// In which order vertices are tried.
ghost use Rattle.std.specs.Prelude.{◌≡◌, ℕ, Bool, List, Option};
ghost use Rattle.model.specs.Orders.{open_marks, PicksOpen};

use crate::draw::Entries;

// An order picks the vertex to try next, from which vertices are open alone. Picking changes nothing, and being told which
// vertex was tried changes at most the order's own value.
pub trait Order {
    // The pick, given one open mark for each vertex.
    ghost picks: { Self → List Bool → Option ℕ };

    // The order after it was told a vertex.
    ghost tells: { Self → ℕ → Self };

    // It picks an open vertex if there is one, else none.
    ghost lawful: { (o : Self) (marks : List Bool) → PicksOpen marks (picks o marks) };

    fn pick(&self, entries: &Entries) -> Option<u16>
        ensures { result ≡ picks self.now (open_marks entries.now.list.items) };

    fn tell(&mut self, v: u16)
        ensures { self.new ≡ tells self.old v };
}
