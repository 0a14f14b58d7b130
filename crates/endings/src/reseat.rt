// The cells of an ended draw for another tree.
ghost use Rattle.std.specs.Prelude.{◌≡◌, ◌<◌, length};
ghost use Rattle.model.specs.Answers.{answered};
ghost use Rattle.model.specs.Trees.{tree_check};
ghost use Rattle.theory.specs.Draws.{height_of};
ghost use Rattle.theory.specs.Endings.{end_fault};
ghost use Rattle.theory.specs.Reseats.{cells_of, reseated, room_fault, reseat_fault, reseats_to, says_yes};
ghost use Rattle.draws.specs.States.{state_of};
ghost use Rattle.endings.specs.Seats.{seat, HasSeats};

use crate::ended::End;
use draws::draw::Draw;
use model::fault::DrawFault;
use model::plan::Plan;
use model::tree::TreeCheck;
use sources::filed::Filed;
use sources::listing::Listing;
use trees::check::check_tree;

// An ended draw, down to which depth the cells are listed, and the ports of the other tree.
#[derive_where(Clone, Copy)]
struct Seats<'a, P> {
    draw: &'a Draw,
    plan: &'a P,
    depth: u16,
    ports: &'a [u16],
}

impl<'a, P: Plan> Seats<'a, P> {
    fn listing(&self) -> Listing
        ensures { result ≡ record { size = (P.layout self.now.plan.now).size; root = (P.layout self.now.plan.now).root; depth = self.now.depth } }
    {
        Listing::of(self.plan, self.depth)
    }

    fn check_room(&self, cells: &[u16]) -> Result<(), DrawFault>
        ensures { result ≡ answered (room_fault (P.layout self.now.plan.now).size self.now.depth (length cells.now) (length self.now.ports.now)) tt }
    {
        let listing = self.listing();
        listing.check()?;
        if cells.len() < listing.count() || self.ports.len() < listing.size as usize {
            return Err(DrawFault::Short);
        }
        Ok(())
    }

    // The draw's end is looked at over the very cells that are to be changed.
    fn check_end(&self, cells: &[u16]) -> Result<(), DrawFault>
        ensures { result ≡ answered (end_fault (P.layout self.now.plan.now) (cells_of (P.layout self.now.plan.now) self.now.depth cells.now) (state_of self.now.draw.now)) tt }
    {
        let arrows = Filed {
            listing: self.listing(),
            ports: cells,
        };
        let end = End {
            draw: self.draw,
            plan: self.plan,
            arrows: &arrows,
        };
        end.check()
    }

    fn is_tree(&self) -> bool
        ensures { result ≡ says_yes (tree_check (P.layout self.now.plan.now) self.now.ports.now) }
    {
        matches!(check_tree(self.plan, self.ports), Ok(TreeCheck::Tree))
    }

    fn check(&self, cells: &[u16]) -> Result<(), DrawFault>
        ensures { result ≡ answered (reseat_fault (P.layout self.now.plan.now) (state_of self.now.draw.now) self.now.depth cells.now self.now.ports.now) tt }
    {
        self.check_room(cells)?;
        if !self.draw.is_of(self.plan) {
            return Err(DrawFault::OtherPlan);
        }
        self.check_end(&cells[..self.listing().count()])?;
        if self.is_tree() {
            Ok(())
        } else {
            Err(DrawFault::NoTree)
        }
    }

    fn seat(&self, cells: &mut [u16], v: u16)
        requires within { v < (P.layout self.now.plan.now).size }
        requires seats { HasSeats (P.layout self.now.plan.now) (state_of self.now.draw.now) self.now.depth cells.old self.now.ports.now }
        ensures { cells.new ≡ seat (P.layout self.now.plan.now) self.now.depth (height_of (state_of self.now.draw.now).entries) self.now.ports.now v cells.old }
    {
        let height = self.draw.entries()[v as usize].height;
        if let Some(at) = self.listing().place(v, height) {
            cells[at] = self.ports[v as usize];
        }
    }

    fn seat_all(&self, cells: &mut [u16])
        requires { HasSeats (P.layout self.now.plan.now) (state_of self.now.draw.now) self.now.depth cells.old self.now.ports.now }
        ensures { cells.new ≡ reseated (P.layout self.now.plan.now) self.now.depth (height_of (state_of self.now.draw.now).entries) self.now.ports.now cells.old }
    {
        for v in 0..self.plan.size() {
            self.seat(cells, v);
        }
    }
}

// For each vertex but the root, the cell at its height becomes its port in another tree. The draw is only read, and cells
// beyond those that the depth asks for stay.
pub fn reseat<P: Plan>(
    draw: &Draw,
    plan: &P,
    cells: &mut [u16],
    depth: u16,
    ports: &[u16],
) -> Result<(), DrawFault>
    ensures { (result, cells.new) ≡ reseats_to (P.layout plan.now) (state_of draw.now) depth cells.old ports.now }
{
    let seats = Seats {
        draw,
        plan,
        depth,
        ports,
    };
    seats.check(cells)?;
    seats.seat_all(cells);
    Ok(())
}
