// What a draw shows, and the calls that read its end.
ghost use Rattle.std.specs.Prelude.{◌≡◌, ◌≤◌, ◌⊎◌, length, Ok, Err, MatchResult};
ghost use Rattle.model.specs.declared.fault.DrawFault.TheVariants.{NoMemory};
ghost use Rattle.theory.specs.Reseats.{reseats_to};
ghost use Rattle.desk.specs.Drawings.{open_among, drawing_of, heights_shown, open_shown, records_shown, tree_shown};

use super::Running;
use endings::reseat::reseat;
use endings::tree::tree;
use model::draw::{Entry, Pop};
use model::fault::DrawFault;
use model::plan::Plan;
use model::source::ArrowSource;
use std::alloc::Global;

// The open vertices by their entries, rising.
fn open_among(entries: &[Entry], heap: Global) -> Result<Vec<u16>, DrawFault>
    requires { length entries.now ≤ 1024 }
    ensures { MatchResult result (λ l. l.items ≡ open_among 0 entries.now) (λ e. e ≡ NoMemory) }
{
    let mut vertices = Vec::new(heap);
    for (v, entry) in entries.iter().enumerate() {
        if !entry.settled {
            vertices.push(v as u16)?;
        }
    }
    Ok(vertices)
}

impl Running {
    // The height of each vertex.
    pub fn heights(&self, heap: Global) -> Result<Vec<u16>, DrawFault>
        ensures { MatchResult result (λ l. l.items ≡ heights_shown (drawing_of self.now)) (λ e. e ≡ NoMemory) }
    {
        let heights = self.draw.entries().iter().map(|entry| entry.height);
        Ok(heights.collect(heap)?)
    }

    // The open vertices, rising.
    pub fn open_vertices(&self, heap: Global) -> Result<Vec<u16>, DrawFault>
        ensures { MatchResult result (λ l. l.items ≡ open_shown (drawing_of self.now)) (λ e. e ≡ NoMemory) }
    {
        open_among(self.draw.entries(), heap)
    }

    // The records of the popped cycles, in turn.
    #[tactic(auto, using(crate::proofs::Listing::front_cut))]
    pub fn records(&self, heap: Global) -> Result<Vec<Pop>, DrawFault>
        ensures { MatchResult result (λ l. l.items ≡ records_shown (drawing_of self.now)) (λ e. e ≡ NoMemory) }
    {
        let list = self.list.as_slice();
        let count = self.draw.pops().min(list.len());
        Ok(Vec::from_slice(heap, &list[..count])?)
    }

    // The tree of the ended draw: one port for each vertex, 65,535 at the root.
    pub fn tree<P: Plan, S: ArrowSource>(
        &self,
        plan: &P,
        arrows: &S,
        heap: Global,
    ) -> Result<Vec<u16>, DrawFault>
        ensures { MatchResult result (λ l. tree_shown (P.layout plan.now) (S.cells arrows.now) (drawing_of self.now) ≡ Ok l.items) (λ e. (tree_shown (P.layout plan.now) (S.cells arrows.now) (drawing_of self.now) ≡ Err e) ⊎ (e ≡ NoMemory)) }
    {
        let mut ports = vec![in heap; 0; plan.size() as usize]?;
        tree(&self.draw, plan, arrows, ports.as_mut_slice())?;
        Ok(ports)
    }

    // The cells of the ended draw become those for another tree.
    pub fn reseat<P: Plan>(
        &self,
        plan: &P,
        cells: &mut [u16],
        depth: u16,
        ports: &[u16],
    ) -> Result<(), DrawFault>
        ensures { (result, cells.new) ≡ reseats_to (P.layout plan.now) (drawing_of self.now).held.draw depth cells.old ports.now }
    {
        reseat(&self.draw, plan, cells, depth, ports)
    }
}
