// Beginning a draw, and choosing its order.
ghost use Rattle.std.specs.Prelude.{◌≡◌, MatchResult};
ghost use Rattle.model.specs.declared.fault.DrawFault.TheVariants.{NoMemory};
ghost use Rattle.desk.specs.Drawings.{begun, drawing_of, ordering_of, reordered};

use super::Running;
use draws::draw::Draw;
use model::draw::Pop;
use model::fault::DrawFault;
use model::plan::Plan;
use orders::any::AnyOrder;
use orders::walk::Walk;
use std::alloc::Global;

// What stands in the list where no cycle was recorded yet.
const BLANK: Pop = Pop {
    vertex: 0,
    height: 0,
    length: 0,
};

impl Running {
    // A fresh draw with room for so many records, by a fresh walk.
    pub fn open<P: Plan>(plan: &P, room: u16, heap: Global) -> Result<Running, DrawFault>
        ensures { MatchResult result (λ x. drawing_of x ≡ begun (P.layout plan.now) room) (λ e. e ≡ NoMemory) }
    {
        let draw = Draw::open(plan, heap)?;
        let list = vec![in heap; BLANK; room as usize]?;
        Ok(Running {
            draw,
            list,
            order: AnyOrder::Walk(Walk::new()),
        })
    }

    // Steps and runs follow this order from now on.
    pub fn set_order(&mut self, order: AnyOrder)
        ensures { drawing_of self.new ≡ reordered (ordering_of order) (drawing_of self.old) }
    {
        self.order = order;
    }
}
