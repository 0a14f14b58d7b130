// Whether ports are a tree: written once, for every plan.
ghost use Rattle.std.specs.Prelude.{◌≡◌, ◌<◌, ◌≤◌, length};
ghost use Rattle.model.specs.Trees.{tree_check, TreeLaw};
ghost use Rattle.trees.specs.Marks.{Marked, Judged, Finds};

use model::fault::DrawFault;
use model::plan::Plan;
use model::tree::TreeCheck;

// One mark for each vertex that a plan may have.
const MOST_VERTICES: usize = 1024;

// A plan with a port for each vertex.
#[derive(Drop)]
struct Ported<'a, P: Plan> {
    plan: &'a P,
    ports: &'a [u16],
    ghost enough: { (P.layout plan.now).size ≤ length ports.now },
}

// Whether following the ports leads from every vertex to the root, or else the lowest vertex from which it does not.
// The root's port is not read, and a port that its vertex lacks leads nowhere.
pub fn check_tree<P: Plan>(plan: &P, ports: &[u16]) -> Result<TreeCheck, DrawFault>
    ensures answer { result ≡ tree_check (P.layout plan.now) ports.now }
    ensures law { TreeLaw (P.layout plan.now) ports.now result }
{
    if ports.len() < plan.size() as usize {
        return Err(DrawFault::Short);
    }
    Ok(Ported { plan, ports }.check())
}

impl<'a, P: Plan> Ported<'a, P> {
    // Walks from each vertex in turn, and stops where an earlier walk came by, so that no target is asked for twice.
    fn check(&self) -> TreeCheck
        ensures { Finds (P.layout self.now.plan.now) self.now.ports.now result }
    {
        let mut marks = [None; MOST_VERTICES];
        for v in 0..self.plan.size() {
            if !self.reaches_root(&mut marks, v) {
                return TreeCheck::Lost(v);
            }
        }
        TreeCheck::Tree
    }

    // Follows the ports from `start`, marking each vertex that it passes with `start`. It comes to the root, to a mark of an
    // earlier walk, which reached the root, to its own mark, which closes a loop, or to a port that leads nowhere.
    fn reaches_root(&self, marks: &mut [Option<u16>], start: u16) -> bool
        requires room { (P.layout self.now.plan.now).size ≤ length marks.old }
        requires within { start < (P.layout self.now.plan.now).size }
        requires marked { Marked (P.layout self.now.plan.now) self.now.ports.now start marks.old }
        ensures { Judged (P.layout self.now.plan.now) self.now.ports.now start marks.new result }
    {
        let root = self.plan.root();
        let mut here = start;
        while here != root {
            if let Some(earlier) = marks[here as usize] {
                return earlier != start;
            }
            marks[here as usize] = Some(start);
            let Some(next) = self.plan.target(here, self.ports[here as usize]) else {
                return false;
            };
            here = next;
        }
        true
    }
}
