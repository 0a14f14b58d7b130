// The tree of an ended draw.
ghost use Rattle.std.specs.Prelude.{◌≡◌, ◌≤◌, ◌++◌, length, drop};
ghost use Rattle.model.specs.Answers.{answered};
ghost use Rattle.theory.specs.Draws.{height_of};
ghost use Rattle.theory.specs.Endings.{port_shown, ports_at, tree_fault, trees};
ghost use Rattle.draws.specs.States.{state_of};

use crate::ended::End;
use draws::draw::Draw;
use model::fault::DrawFault;
use model::plan::Plan;
use model::source::ArrowSource;

// What stands for no port, as at the root.
const NO_PORT: u16 = 65535;

impl<'a, P: Plan, S: ArrowSource> End<'a, P, S> {
    fn check_buffer(&self, ports: &[u16]) -> Result<(), DrawFault>
        ensures { result ≡ answered (tree_fault (P.layout self.now.plan.now) (S.cells self.now.arrows.now) (state_of self.now.draw.now) ports.now) tt }
    {
        if !self.draw.is_of(self.plan) {
            Err(DrawFault::OtherPlan)
        } else if ports.len() < self.plan.size() as usize {
            Err(DrawFault::Short)
        } else {
            self.check()
        }
    }

    fn port_shown(&self, v: u16) -> u16
        ensures { result ≡ port_shown (P.layout self.now.plan.now) (S.cells self.now.arrows.now) (height_of (state_of self.now.draw.now).entries) v }
    {
        self.visible_port(v).unwrap_or(NO_PORT)
    }

    fn write_ports(&self, ports: &mut [u16])
        requires { (P.layout self.now.plan.now).size ≤ length ports.old }
        ensures { ports.new ≡ ports_at (P.layout self.now.plan.now) (S.cells self.now.arrows.now) (height_of (state_of self.now.draw.now).entries) ++ drop (P.layout self.now.plan.now).size ports.old }
    {
        for v in 0..self.plan.size() {
            ports[v as usize] = self.port_shown(v);
        }
    }
}

// Writes the visible port of each vertex, 65,535 at the root, and nothing behind them.
pub fn tree<P: Plan, S: ArrowSource>(
    draw: &Draw,
    plan: &P,
    arrows: &S,
    ports: &mut [u16],
) -> Result<(), DrawFault>
    ensures { (result, ports.new) ≡ trees (P.layout plan.now) (S.cells arrows.now) (state_of draw.now) ports.old }
{
    let end = End { draw, plan, arrows };
    end.check_buffer(ports)?;
    end.write_ports(ports);
    Ok(())
}
