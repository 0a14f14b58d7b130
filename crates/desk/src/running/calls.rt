// The calls that work a draw.
ghost use Rattle.std.specs.Prelude.{◌≡◌};
ghost use Rattle.desk.specs.Drawings.{drawing_of, tried, stepped, ran};

use super::Running;
use model::draw::{Stop, Tried};
use model::fault::DrawFault;
use model::plan::Plan;
use model::source::ArrowSource;

impl Running {
    // Tries the vertex; the order is not told.
    pub fn try_at<P: Plan, S: ArrowSource>(
        &mut self,
        plan: &P,
        arrows: &S,
        v: u16,
    ) -> Result<Tried, DrawFault>
        ensures { (result, drawing_of self.new) ≡ tried (P.layout plan.now) (S.cells arrows.now) v (drawing_of self.old) }
    {
        self.draw.try_at(plan, arrows, self.list.as_mut_slice(), v)
    }

    // Tries the vertex that the order picks.
    pub fn step<P: Plan, S: ArrowSource>(
        &mut self,
        plan: &P,
        arrows: &S,
    ) -> Result<Tried, DrawFault>
        ensures { (result, drawing_of self.new) ≡ stepped (P.layout plan.now) (S.cells arrows.now) (drawing_of self.old) }
    {
        self.draw
            .step(plan, arrows, self.list.as_mut_slice(), &mut self.order)
    }

    // Makes steps, at most as many as the budget.
    pub fn run<P: Plan, S: ArrowSource>(
        &mut self,
        plan: &P,
        arrows: &S,
        budget: u32,
    ) -> Result<(u32, Stop), DrawFault>
        ensures { (result, drawing_of self.new) ≡ ran (P.layout plan.now) (S.cells arrows.now) budget (drawing_of self.old) }
    {
        self.draw.run(
            plan,
            arrows,
            self.list.as_mut_slice(),
            &mut self.order,
            budget,
        )
    }
}
