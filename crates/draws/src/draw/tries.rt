// Trying a vertex.
ghost use Rattle.std.specs.Prelude.{◌≡◌, ℕ, ◌<◌, true, List, length, None};
ghost use Rattle.theory.specs.Calls.{does, try_at, settles};
ghost use Rattle.theory.specs.Cycles.{among, Cycle};
ghost use Rattle.theory.specs.Draws.{is_of, shown, trail};
ghost use Rattle.theory.specs.Laws.{TryLaw};
ghost use Rattle.draws.specs.Popping.{popping};
ghost use Rattle.draws.specs.States.{state_of, held_of};

use super::Draw;
use crate::change::{raise_cycle, settle_way};
use crate::sight::Sight;
use model::draw::{Pop, Tried};
use model::fault::DrawFault;
use model::plan::Plan;
use model::source::ArrowSource;

impl Draw {
    // Pops the cycle that `on` is on, if the list has room for its record.
    fn pop<P: Plan, S: ArrowSource>(
        &mut self,
        plan: &P,
        arrows: &S,
        list: &mut [Pop],
        on: u16,
    ) -> Result<Tried, DrawFault>
        requires of_plan { is_of (P.layout plan.now) (state_of self.old) ≡ true }
        requires cycle { (c : List ℕ) × Cycle (shown (P.layout plan.now) (S.cells arrows.now) (state_of self.old).entries) c × (among on c ≡ true) }
        ensures { (c : List ℕ) → Cycle (shown (P.layout plan.now) (S.cells arrows.now) (state_of self.old).entries) c → among on c ≡ true → (held_of self.new list.new ≡ (popping (held_of self.old list.old) c).held) × (result ≡ (popping (held_of self.old list.old) c).answer) }
    {
        if self.pops >= list.len() {
            return Err(DrawFault::ListFull);
        }
        let sight = Sight {
            entries: &self.entries,
            plan,
            arrows,
        };
        let vertex = sight.lowest_around(on);
        let height = sight.height(vertex);
        let length = raise_cycle(&mut self.entries, plan, arrows, vertex);
        let pop = Pop {
            vertex,
            height,
            length,
        };
        list[self.pops] = pop;
        self.pops += 1;
        Ok(Tried::Popped(pop))
    }

    // Settles the way from `v`, which does not come round.
    fn settle<P: Plan, S: ArrowSource>(&mut self, plan: &P, arrows: &S, v: u16) -> u16
        requires of_plan { is_of (P.layout plan.now) (state_of self.old) ≡ true }
        requires within { v < (P.layout plan.now).size }
        requires straight { (trail (P.layout plan.now) (S.cells arrows.now) (state_of self.old).entries v).loop ≡ None }
        ensures after { (l : List Pop) → held_of self.new l ≡ (settles (held_of self.old l) (trail (P.layout plan.now) (S.cells arrows.now) (state_of self.old).entries v).path).held }
        ensures count { result ≡ length (trail (P.layout plan.now) (S.cells arrows.now) (state_of self.old).entries v).path }
    {
        settle_way(&mut self.entries, plan, arrows, v)
    }

    // Follows the way from `v` along visible arrows: pops its cycle where it closes, and settles it where it does not.
    pub fn try_at<P: Plan, S: ArrowSource>(
        &mut self,
        plan: &P,
        arrows: &S,
        list: &mut [Pop],
        v: u16,
    ) -> Result<Tried, DrawFault>
        ensures held { held_of self.new list.new ≡ (does (P.layout plan.now) (S.cells arrows.now) (try_at v) (held_of self.old list.old)).held }
        ensures answer { result ≡ (does (P.layout plan.now) (S.cells arrows.now) (try_at v) (held_of self.old list.old)).answer }
        ensures law { TryLaw (P.layout plan.now) (S.cells arrows.now) v (held_of self.old list.old) (held_of self.new list.new) result }
    {
        if !self.is_of(plan) {
            return Err(DrawFault::OtherPlan);
        }
        if v >= plan.size() {
            return Err(DrawFault::Vertex(v));
        }
        let sight = Sight {
            entries: &self.entries,
            plan,
            arrows,
        };
        if sight.settled(v) {
            return Err(DrawFault::AlreadySettled(v));
        }
        match sight.comes_round(v) {
            Some(on) => self.pop(plan, arrows, list, on),
            None => Ok(Tried::Settled(self.settle(plan, arrows, v))),
        }
    }
}
