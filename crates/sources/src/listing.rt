// Where the port of a vertex and an index stands in a list.
ghost use Rattle.std.specs.Prelude.{◌≡◌};
ghost use Rattle.model.specs.Answers.{answered};
ghost use Rattle.model.specs.Depths.{cells_to, cells_fit, cells_fault};
ghost use Rattle.model.specs.Filed.{lacks_cell, place, rank};

use crate::depth::{depth_fits, limit_unless};
use model::fault::DrawFault;
use model::plan::Plan;

const MOST_CELLS: usize = 4096;

// How cells are listed: by rising vertex without the root, then by rising index, down to the depth.
#[derive(Clone, Copy, PartialEq, Eq, Debug)]
pub struct Listing {
    pub size: u16,
    pub root: u16,
    pub depth: u16,
}

impl Listing {
    // The cells of a plan down to the depth.
    pub fn of<P: Plan>(plan: &P, depth: u16) -> Listing
        ensures { result ≡ record { size = (P.layout plan.now).size; root = (P.layout plan.now).root; depth = depth } }
    {
        Listing {
            size: plan.size(),
            root: plan.root(),
            depth,
        }
    }

    // How many cells there are. Saturating, since it is defined for the size 0 too.
    pub fn count(&self) -> usize
        ensures { result ≡ cells_to self.now.size self.now.depth }
    {
        self.size.saturating_sub(1) as usize * self.depth as usize
    }

    fn fits(&self) -> bool
        ensures { result ≡ cells_fit self.now.size self.now.depth }
    {
        depth_fits(self.depth) && self.count() <= MOST_CELLS
    }

    // The depth is within its limits, and the cells are at most 4,096.
    pub fn check(&self) -> Result<(), DrawFault>
        ensures { result ≡ answered (cells_fault self.now.size self.now.depth) tt }
    {
        limit_unless(self.fits())
    }

    // How many vertices other than the root are below `v`. Saturating, since it is defined for the root 0 too.
    pub fn rank(&self, v: u16) -> u16
        ensures { result ≡ rank self.now.root v }
    {
        if v < self.root {
            v
        } else {
            v.saturating_sub(1)
        }
    }

    // There is no cell at the root, at what is no vertex, and from the depth on.
    fn lacks(&self, v: u16, index: u16) -> bool
        ensures { result ≡ lacks_cell self.now.size self.now.root self.now.depth v index }
    {
        v == self.root || self.size <= v || self.depth <= index
    }

    pub fn place(&self, v: u16, index: u16) -> Option<usize>
        ensures { result ≡ place self.now.size self.now.root self.now.depth v index }
    {
        if self.lacks(v, index) {
            return None;
        }
        Some(self.rank(v) as usize * self.depth as usize + index as usize)
    }
}
