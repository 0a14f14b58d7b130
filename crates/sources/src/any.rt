// One source of either kind.
ghost use Rattle.sources.specs.Anys.{any_cells};

use crate::cap::Cap;
use crate::filed::Filed;
use crate::seeded::Seeded;
use model::source::ArrowSource;

#[derive(Drop)]
pub enum AnyArrows {
    Filed(Filed<Vec<u16>>),
    Seeded(Cap<Seeded>),
}

impl ArrowSource for AnyArrows {
    ghost cells = { any_cells };

    fn port(&self, v: u16, index: u16, degree: u16) -> Option<u16> {
        match self {
            AnyArrows::Filed(arrows) => arrows.port(v, index, degree),
            AnyArrows::Seeded(arrows) => arrows.port(v, index, degree),
        }
    }
}
