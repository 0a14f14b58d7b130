// Whether a draw has ended, and whether with dry vertices.
ghost use Rattle.std.specs.Prelude.{◌≡◌};
ghost use Rattle.model.specs.Answers.{answered};
ghost use Rattle.model.specs.Arrows.{is_dry, visible};
ghost use Rattle.theory.specs.Calls.{none_open};
ghost use Rattle.theory.specs.Draws.{height_of};
ghost use Rattle.theory.specs.Endings.{lowest_dry, end_fault};
ghost use Rattle.draws.specs.States.{state_of};

use draws::draw::Draw;
use model::draw::Entry;
use model::fault::DrawFault;
use model::plan::Plan;
use model::source::ArrowSource;

// A draw that is to have ended, over a plan and its arrows.
#[derive_where(Clone, Copy)]
pub(crate) struct End<'a, P, S> {
    pub(crate) draw: &'a Draw,
    pub(crate) plan: &'a P,
    pub(crate) arrows: &'a S,
}

fn none_open(entries: &[Entry]) -> bool
    ensures { result ≡ none_open entries.now }
{
    entries.iter().all(|entry| entry.settled)
}

impl<'a, P: Plan, S: ArrowSource> End<'a, P, S> {
    pub(crate) fn visible_port(&self, v: u16) -> Option<u16>
        ensures { result ≡ visible (P.layout self.now.plan.now) (S.cells self.now.arrows.now) v (height_of (state_of self.now.draw.now).entries v) }
    {
        self.draw.visible_port(self.plan, self.arrows, v)
    }

    fn is_dry(&self, v: u16) -> bool
        ensures { result ≡ is_dry (P.layout self.now.plan.now) (S.cells self.now.arrows.now) v (height_of (state_of self.now.draw.now).entries v) }
    {
        v != self.plan.root() && self.visible_port(v).is_none()
    }

    fn lowest_dry(&self) -> Option<u16>
        ensures { result ≡ lowest_dry (P.layout self.now.plan.now) (S.cells self.now.arrows.now) (height_of (state_of self.now.draw.now).entries) }
    {
        (0..self.plan.size()).find(|v| self.is_dry(*v))
    }

    // It shows no tree while vertices are open, nor where some are dry.
    pub(crate) fn check(&self) -> Result<(), DrawFault>
        ensures { result ≡ answered (end_fault (P.layout self.now.plan.now) (S.cells self.now.arrows.now) (state_of self.now.draw.now)) tt }
    {
        if !none_open(self.draw.entries()) {
            return Err(DrawFault::StillOpen);
        }
        match self.lowest_dry() {
            Some(v) => Err(DrawFault::Dry(v)),
            None => Ok(()),
        }
    }
}
