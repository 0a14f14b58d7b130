// The order that a list of vertices gives.
ghost use Rattle.std.specs.Prelude.{◌≡◌};
ghost use Rattle.model.specs.Orders.{open_marks};
ghost use Rattle.model.specs.Walks.{filed_at};
ghost use Rattle.orders.specs.Lawful.{filed_lawful};
ghost use Rattle.orders.specs.Told.{filed_told, filed_pick};

use crate::open::{is_open, or_lowest};
use model::draw::Entries;
use model::order::Order;

// It picks the vertex at its place, or the lowest open one where that is settled or no vertex, or the list has ended.
// Whichever vertex it is told, it moves on by one place.
#[derive(Drop)]
pub struct FiledOrder {
    vertices: Vec<u16>,
    place: usize,
}

impl FiledOrder {
    pub fn new(vertices: Vec<u16>) -> FiledOrder
        ensures { result ≡ record { vertices = vertices; place = 0 } }
    {
        FiledOrder { vertices, place: 0 }
    }

    // The vertex at the place, if it is open.
    fn at_place(&self, entries: &Entries) -> Option<u16>
        ensures { result ≡ filed_at self.now.vertices.items self.now.place (open_marks entries.now.list.items) }
    {
        let v = *self.vertices.get(self.place)?;
        is_open(entries, v).then_some(v)
    }
}

impl Order for FiledOrder {
    ghost picks = { filed_pick };

    ghost tells = { filed_told };

    ghost lawful = { filed_lawful };

    fn pick(&self, entries: &Entries) -> Option<u16> {
        or_lowest(entries, self.at_place(entries))
    }

    fn tell(&mut self, _v: u16) {
        if self.place < self.vertices.len() {
            self.place += 1;
        }
    }
}
