// Arrows from a list of ports.
ghost use Rattle.std.specs.Prelude.{◌≡◌};
ghost use Rattle.sources.specs.Lists.{listed};

use crate::listing::Listing;
use model::source::ArrowSource;
use std::convert::AsSlice;

// The list is owned or lent, and any will do: where it ends, the cells have no port.
#[derive(Clone, Copy, Drop)]
pub struct Filed<L> {
    pub listing: Listing,
    pub ports: L,
}

impl<L: AsSlice<u16>> ArrowSource for Filed<L> {
    ghost cells = { λ f. listed f.listing (L.items f.ports) };

    fn port(&self, v: u16, index: u16, _degree: u16) -> Option<u16> {
        let at = self.listing.place(v, index)?;
        self.ports.as_slice().get(at).copied()
    }
}
