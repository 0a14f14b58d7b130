// Filed arrows, which may be told over several lines.
ghost use Rattle.std.specs.Prelude.{◌≡◌, ◌+◌, length, nat_lt, Ok, MatchResult};
ghost use Rattle.model.specs.declared.fault.DrawFault.TheVariants.{NoMemory};
ghost use Rattle.session.specs.Desks.{desk_of, pending_of, extended, begins_filed, adds_cells, finishing, DoesOrNoMemory};
ghost use Rattle.session.specs.Said.{said, said_so};

use super::Session;
use crate::answer::{Answer, Misplaced, Refusal};
use crate::hall::{Hall, Pending};
use model::fault::DrawFault;
use model::plan::Plan;
use sources::any::AnyArrows;
use sources::filed::Filed;
use sources::listing::Listing;

impl Pending {
    // Whether with so many more there would be more cells than wanted.
    fn exceeds(&self, wanted: usize, more: usize) -> bool
        ensures { result ≡ nat_lt wanted (length self.now.ports.items + more) }
    {
        self.ports
            .len()
            .checked_add(more)
            .is_none_or(|total| wanted < total)
    }

    // More cells, or nothing changes.
    fn extend(&mut self, ports: &[u16]) -> Result<(), DrawFault>
        ensures { MatchResult result (λ _. pending_of self.new ≡ extended (pending_of self.old) ports.now) (λ e. (e ≡ NoMemory) × (pending_of self.new ≡ pending_of self.old)) }
    {
        Ok(self.ports.extend_from_slice(ports)?)
    }
}

impl Session {
    // With their last cell the arrows are taken.
    fn finish(&mut self) -> Answer
        ensures { (said result, desk_of self.new) ≡ finishing (desk_of self.old) }
    {
        let Hall::Planned(plan, pending) = &mut self.hall else {
            return Answer::Silent;
        };
        let whole = |pending: &mut Pending| pending.ports.len()
            == Listing::of(plan, pending.depth).count();
        let Some(Pending { depth, ports, .. }) = pending.take_if(whole) else {
            return Answer::Silent;
        };
        let listing = Listing::of(plan, depth);
        self.arrows = Some(AnyArrows::Filed(Filed { listing, ports }));
        self.running = None;
        Answer::Filed { depth }
    }

    pub(crate) fn filed(
        &mut self,
        line: usize,
        depth: u16,
        ports: Vec<u16>,
    ) -> Result<Answer, Refusal>
        ensures { (said_so result, desk_of self.new) ≡ begins_filed (desk_of self.old) line depth ports.items }
    {
        let Hall::Planned(plan, pending @ None) = &mut self.hall else {
            return Err(Misplaced::NoPlan.into());
        };
        let listing = Listing::of(plan, depth);
        listing.check()?;
        if listing.count() < ports.len() {
            return Err(Misplaced::TooMany.into());
        }
        *pending = Some(Pending { line, depth, ports });
        Ok(self.finish())
    }

    pub(crate) fn cells(&mut self, ports: &[u16]) -> Result<Answer, Refusal>
        ensures { DoesOrNoMemory (desk_of self.old) (adds_cells (desk_of self.old) ports.now) (said_so result) (desk_of self.new) }
    {
        let Hall::Planned(plan, pending) = &mut self.hall else {
            return Err(Misplaced::NoFiled.into());
        };
        let pending = pending.as_mut().ok_or(Misplaced::NoFiled)?;
        if pending.exceeds(Listing::of(plan, pending.depth).count(), ports.len()) {
            return Err(Misplaced::TooMany.into());
        }
        pending.extend(ports)?;
        Ok(self.finish())
    }
}
