// The walk round the vertices.
ghost use Rattle.std.specs.Prelude.{◌≡◌};
ghost use Rattle.orders.specs.Lawful.{walk_lawful};
ghost use Rattle.orders.specs.Told.{walk_told, walk_pick};

use crate::open::{open_from, or_lowest};
use model::draw::Entries;
use model::order::Order;

// It stays at the vertex last told while that is open, then goes on to the next open one, round to 0 after the highest.
#[derive(Clone, Copy)]
pub struct Walk {
    last: u16,
}

impl Walk {
    // A fresh walk begins at 0.
    pub fn new() -> Walk
        ensures { result ≡ record { last = 0 } }
    {
        Walk { last: 0 }
    }
}

impl Order for Walk {
    ghost picks = { walk_pick };

    ghost tells = { walk_told };

    ghost lawful = { walk_lawful };

    fn pick(&self, entries: &Entries) -> Option<u16> {
        or_lowest(entries, open_from(entries, self.last))
    }

    fn tell(&mut self, v: u16) {
        self.last = v;
    }
}
