// Trying vertices in an order: one step, and a run of steps.
ghost use Rattle.std.specs.Prelude.{◌≡◌, MatchResult};
ghost use Rattle.model.specs.Orders.{open_marks};
ghost use Rattle.model.specs.declared.fault.DrawFault.TheVariants.{OtherPlan};
ghost use Rattle.theory.specs.Calls.{does, step, run, tries, telling, told_all, strategy_of};
ghost use Rattle.theory.specs.Laws.{StepLaw, RunLaw};
ghost use Rattle.draws.specs.States.{state_of, held_of};

use super::Draw;
use model::draw::{Pop, Stop, Tried};
use model::fault::DrawFault;
use model::order::Order;
use model::plan::Plan;
use model::source::ArrowSource;

impl Draw {
    // Tries the vertex that the order picked, and tells the order of it unless the try is refused.
    fn follow<P: Plan, S: ArrowSource, O: Order>(
        &mut self,
        plan: &P,
        arrows: &S,
        list: &mut [Pop],
        order: &mut O,
        v: u16,
    ) -> Result<Tried, DrawFault>
        ensures held { held_of self.new list.new ≡ (telling v (tries (P.layout plan.now) (S.cells arrows.now) v (held_of self.old list.old))).held }
        ensures answer { result ≡ (telling v (tries (P.layout plan.now) (S.cells arrows.now) v (held_of self.old list.old))).answer }
        ensures order { order.new ≡ told_all O.tells order.old (telling v (tries (P.layout plan.now) (S.cells arrows.now) v (held_of self.old list.old))).told }
    {
        let tried = self.try_at(plan, arrows, list, v)?;
        order.tell(v);
        Ok(tried)
    }

    // Tries the vertex that the order picks.
    pub fn step<P: Plan, S: ArrowSource, O: Order>(
        &mut self,
        plan: &P,
        arrows: &S,
        list: &mut [Pop],
        order: &mut O,
    ) -> Result<Tried, DrawFault>
        ensures held { held_of self.new list.new ≡ (does (P.layout plan.now) (S.cells arrows.now) (step (strategy_of O.picks O.tells order.old)) (held_of self.old list.old)).held }
        ensures answer { result ≡ (does (P.layout plan.now) (S.cells arrows.now) (step (strategy_of O.picks O.tells order.old)) (held_of self.old list.old)).answer }
        ensures order { order.new ≡ told_all O.tells order.old (does (P.layout plan.now) (S.cells arrows.now) (step (strategy_of O.picks O.tells order.old)) (held_of self.old list.old)).told }
        ensures law { StepLaw (P.layout plan.now) (S.cells arrows.now) (O.picks order.old (open_marks (state_of self.old).entries)) (held_of self.old list.old) (held_of self.new list.new) result }
    {
        if !self.is_of(plan) {
            return Err(DrawFault::OtherPlan);
        }
        let Some(v) = order.pick(&self.entries) else {
            return Err(DrawFault::NothingOpen);
        };
        self.follow(plan, arrows, list, order, v)
    }

    // Makes steps until no vertex is open, the tries equal the budget, or the list is full, and says how many and why it stopped.
    // An order picks a vertex wherever one is open, so its pick tells whether the draw has ended.
    pub fn run<P: Plan, S: ArrowSource, O: Order>(
        &mut self,
        plan: &P,
        arrows: &S,
        list: &mut [Pop],
        order: &mut O,
        budget: u32,
    ) -> Result<(u32, Stop), DrawFault>
        ensures held { held_of self.new list.new ≡ (does (P.layout plan.now) (S.cells arrows.now) (run (strategy_of O.picks O.tells order.old) budget) (held_of self.old list.old)).held }
        ensures answer { result ≡ (does (P.layout plan.now) (S.cells arrows.now) (run (strategy_of O.picks O.tells order.old) budget) (held_of self.old list.old)).answer }
        ensures order { order.new ≡ told_all O.tells order.old (does (P.layout plan.now) (S.cells arrows.now) (run (strategy_of O.picks O.tells order.old) budget) (held_of self.old list.old)).told }
        ensures law { MatchResult result (λ x. RunLaw (P.layout plan.now) (S.cells arrows.now) (strategy_of O.picks O.tells order.old) budget (held_of self.old list.old) (held_of self.new list.new) x.0 x.1) (λ e. e ≡ OtherPlan) }
    {
        if !self.is_of(plan) {
            return Err(DrawFault::OtherPlan);
        }
        for tries in 0..budget {
            let Some(v) = order.pick(&self.entries) else {
                return Ok((tries, Stop::Ended));
            };
            if self.follow(plan, arrows, list, order, v).is_err() {
                return Ok((tries, Stop::Full));
            }
        }
        let stop = match order.pick(&self.entries) {
            Some(_) => Stop::Spent,
            None => Stop::Ended,
        };
        Ok((budget, stop))
    }
}
