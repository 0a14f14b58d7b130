// Opening a draw, and asking it what it holds.
ghost use Rattle.std.specs.Prelude.{◌≡◌, MatchResult};
ghost use Rattle.model.specs.Arrows.{visible};
ghost use Rattle.model.specs.declared.fault.DrawFault.TheVariants.{NoMemory};
ghost use Rattle.theory.specs.Draws.{height_of, opened, is_of};
ghost use Rattle.theory.specs.OneEnd.{OneEndByCalls};
ghost use Rattle.draws.specs.States.{state_of};

use super::Draw;
use crate::sight::Sight;
use model::draw::{Entries, Entry};
use model::fault::DrawFault;
use model::plan::Plan;
use model::source::ArrowSource;
use std::alloc::Global;

// An entry for each vertex: all at height 0, and open but for the root.
fn fresh_entries<P: Plan>(plan: &P, heap: Global) -> Result<Vec<Entry>, DrawFault>
    ensures { MatchResult result (λ l. l.items ≡ (opened (P.layout plan.now)).entries) (λ e. e ≡ NoMemory) }
{
    let root = plan.root();
    let list = (0..plan.size())
        .map(|v| Entry {
            height: 0,
            settled: v == root,
        })
        .collect(heap)?;
    Ok(list)
}

impl Draw {
    // A fresh draw: every height is 0, the root is settled and all other vertices are open.
    // Whatever is then done with it, with any plan, arrows, list and orders: it comes to one end, and no tree is favoured.
    pub fn open<P: Plan>(plan: &P, heap: Global) -> Result<Draw, DrawFault>
        ensures fresh { MatchResult result (λ d. state_of d ≡ opened (P.layout plan.now)) (λ e. e ≡ NoMemory) }
        ensures theorem { OneEndByCalls }
    {
        let list = fresh_entries(plan, heap)?;
        Ok(Draw {
            entries: Entries { list },
            root: plan.root(),
            pops: 0,
        })
    }

    // One entry for each vertex, by rising vertex.
    pub fn entries(&self) -> &[Entry]
        ensures { result.now ≡ (state_of self.now).entries }
    {
        self.entries.list.as_slice()
    }

    pub fn pops(&self) -> usize
        ensures { result ≡ (state_of self.now).pops }
    {
        self.pops
    }

    // Whether the draw's size and root are the plan's.
    pub fn is_of<P: Plan>(&self, plan: &P) -> bool
        ensures { result ≡ is_of (P.layout plan.now) (state_of self.now) }
    {
        self.entries.list.len() == plan.size() as usize && self.root == plan.root()
    }

    // The port that the vertex shows at its height, none at the root and at a dry vertex.
    pub fn visible_port<P: Plan, S: ArrowSource>(&self, plan: &P, arrows: &S, v: u16) -> Option<u16>
        ensures { result ≡ visible (P.layout plan.now) (S.cells arrows.now) v (height_of (state_of self.now).entries v) }
    {
        let sight = Sight {
            entries: &self.entries,
            plan,
            arrows,
        };
        sight.visible_port(v)
    }
}
