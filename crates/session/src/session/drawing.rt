// The draw, and what it shows.
ghost use Rattle.std.specs.Prelude.{◌≡◌, ◌⊎◌, Some, None, Err, MatchResult};
ghost use Rattle.model.specs.declared.fault.DrawFault.TheVariants.{NoMemory};
ghost use Rattle.theory.specs.Reseats.{reseats_to};
ghost use Rattle.plans.specs.Anys.{any_layout};
ghost use Rattle.desk.specs.Drawings.{drawing_of, ordering_of, heights_shown, open_shown, records_shown};
ghost use Rattle.session.specs.Desks.{desk_of, place_of, planned_of, plan_at, opens, orders_by, tries_at, steps_on, runs_for, shows, shows_tree, reseats, DoesOrNoMemory};
ghost use Rattle.session.specs.Renewals.{Renewed, Renews};
ghost use Rattle.session.specs.Said.{heights, open_vertices, records};
ghost use Rattle.session.specs.Said.{said_so};
ghost use Rattle.session.specs.declared.answer.Misplaced.TheVariants.{NoDraw};

use super::Session;
use crate::answer::{Answer, Misplaced, Refusal};
use crate::hall::Hall;
use desk::running::Running;
use model::fault::DrawFault;
use model::plan::Plan;
use orders::any::AnyOrder;
use plans::any::AnyPlan;
use sources::any::AnyArrows;
use sources::filed::Filed;
use std::alloc::Global;

// What reseating gives: the arrows with the new cells, these as a list to show, and a fresh draw.
#[derive(Drop)]
pub(crate) struct Renewal {
    filed: Filed<Vec<u16>>,
    shown: Vec<u16>,
    running: Running,
}

// The arrows with the ports of another tree in them. All that needs memory is done here, while nothing is changed yet.
fn renewed(
    plan: &AnyPlan,
    filed: &Filed<Vec<u16>>,
    running: &Running,
    room: u16,
    heap: Global,
    ports: &[u16],
) -> Result<Renewal, DrawFault>
    ensures { MatchResult result (λ x. Renewed (any_layout plan.now) filed.now (drawing_of running.now) room ports.now x) (λ e. ((reseats_to (any_layout plan.now) (drawing_of running.now).held.draw filed.now.listing.depth filed.now.ports.items ports.now).0 ≡ Err e) ⊎ (e ≡ NoMemory)) }
{
    let mut cells = filed.ports.to_vec(heap)?;
    running.reseat(plan, cells.as_mut_slice(), filed.listing.depth, ports)?;
    let shown = cells.to_vec(heap)?;
    let running = Running::open(plan, room, heap)?;
    let filed = Filed {
        listing: filed.listing,
        ports: cells,
    };
    Ok(Renewal {
        filed,
        shown,
        running,
    })
}

// The plan and the arrows that a draw stands over.
fn drawn<'a>(
    hall: &'a Hall,
    arrows: &'a Option<AnyArrows>,
) -> Result<(&'a AnyPlan, &'a AnyArrows), Misplaced>
    ensures { MatchResult result (λ x. (plan_at (place_of hall.now) ≡ Some (planned_of x.0.now)) × (arrows.now ≡ Some x.1.now)) (λ e. (e ≡ NoDraw) × ((plan_at (place_of hall.now) ≡ None) ⊎ (arrows.now ≡ None))) }
{
    hall.plan().zip(arrows.as_ref()).ok_or(Misplaced::NoDraw)
}

impl Session {
    pub(crate) fn open(&mut self, heap: Global) -> Result<Answer, Refusal>
        ensures { DoesOrNoMemory (desk_of self.old) (opens (desk_of self.old)) (said_so result) (desk_of self.new) }
    {
        let plan = self.hall.plan().ok_or(Misplaced::NoPlan)?;
        self.arrows.as_ref().ok_or(Misplaced::NoArrows)?;
        let running = Running::open(plan, self.room, heap)?;
        let answer = Answer::Opened {
            size: plan.size(),
            root: plan.root(),
        };
        self.running = Some(running);
        Ok(answer)
    }

    pub(crate) fn set_order(&mut self, order: AnyOrder) -> Result<Answer, Refusal>
        ensures { (said_so result, desk_of self.new) ≡ orders_by (desk_of self.old) (ordering_of order) }
    {
        let running = self.running.as_mut().ok_or(Misplaced::NoDraw)?;
        running.set_order(order);
        Ok(Answer::Silent)
    }

    pub(crate) fn try_at(&mut self, v: u16) -> Result<Answer, Refusal>
        ensures { (said_so result, desk_of self.new) ≡ tries_at (desk_of self.old) v }
    {
        let (plan, arrows) = drawn(&self.hall, &self.arrows)?;
        let running = self.running.as_mut().ok_or(Misplaced::NoDraw)?;
        Ok(Answer::Tried(running.try_at(plan, arrows, v)?))
    }

    pub(crate) fn step(&mut self) -> Result<Answer, Refusal>
        ensures { (said_so result, desk_of self.new) ≡ steps_on (desk_of self.old) }
    {
        let (plan, arrows) = drawn(&self.hall, &self.arrows)?;
        let running = self.running.as_mut().ok_or(Misplaced::NoDraw)?;
        Ok(Answer::Tried(running.step(plan, arrows)?))
    }

    pub(crate) fn run(&mut self, budget: u32) -> Result<Answer, Refusal>
        ensures { (said_so result, desk_of self.new) ≡ runs_for (desk_of self.old) budget }
    {
        let (plan, arrows) = drawn(&self.hall, &self.arrows)?;
        let running = self.running.as_mut().ok_or(Misplaced::NoDraw)?;
        let (tries, stop) = running.run(plan, arrows, budget)?;
        Ok(Answer::Ran { tries, stop })
    }

    pub(crate) fn heights(&self, heap: Global) -> Result<Answer, Refusal>
        ensures { DoesOrNoMemory (desk_of self.now) (shows (desk_of self.now) (λ x. heights (heights_shown x))) (said_so result) (desk_of self.now) }
    {
        let running = self.running.as_ref().ok_or(Misplaced::NoDraw)?;
        Ok(Answer::Heights(running.heights(heap)?))
    }

    pub(crate) fn open_vertices(&self, heap: Global) -> Result<Answer, Refusal>
        ensures { DoesOrNoMemory (desk_of self.now) (shows (desk_of self.now) (λ x. open_vertices (open_shown x))) (said_so result) (desk_of self.now) }
    {
        let running = self.running.as_ref().ok_or(Misplaced::NoDraw)?;
        Ok(Answer::Open(running.open_vertices(heap)?))
    }

    pub(crate) fn records(&self, heap: Global) -> Result<Answer, Refusal>
        ensures { DoesOrNoMemory (desk_of self.now) (shows (desk_of self.now) (λ x. records (records_shown x))) (said_so result) (desk_of self.now) }
    {
        let running = self.running.as_ref().ok_or(Misplaced::NoDraw)?;
        Ok(Answer::Records(running.records(heap)?))
    }

    pub(crate) fn tree(&self, heap: Global) -> Result<Answer, Refusal>
        ensures { DoesOrNoMemory (desk_of self.now) (shows_tree (desk_of self.now)) (said_so result) (desk_of self.now) }
    {
        let (plan, arrows) = drawn(&self.hall, &self.arrows)?;
        let running = self.running.as_ref().ok_or(Misplaced::NoDraw)?;
        Ok(Answer::Tree(running.tree(plan, arrows, heap)?))
    }

    fn renewal(&self, heap: Global, ports: &[u16]) -> Result<Renewal, Refusal>
        ensures { Renews (desk_of self.now) ports.now result }
    {
        let (plan, arrows) = drawn(&self.hall, &self.arrows)?;
        let running = self.running.as_ref().ok_or(Misplaced::NoDraw)?;
        let AnyArrows::Filed(filed) = arrows else {
            return Err(Misplaced::NotFiled.into());
        };
        Ok(renewed(plan, filed, running, self.room, heap, ports)?)
    }

    pub(crate) fn reseat(&mut self, heap: Global, ports: &[u16]) -> Result<Answer, Refusal>
        ensures { DoesOrNoMemory (desk_of self.old) (reseats (desk_of self.old) ports.now) (said_so result) (desk_of self.new) }
    {
        let renewal = self.renewal(heap, ports)?;
        self.arrows = Some(AnyArrows::Filed(renewal.filed));
        self.running = Some(renewal.running);
        Ok(Answer::Cells(renewal.shown))
    }
}
