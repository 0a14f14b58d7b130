// The complete plan: from every vertex one port to each of the others.
ghost use Rattle.std.specs.Prelude.{◌≡◌, ℕ, ◌<◌, ◌≤◌};
ghost use Rattle.model.specs.Answers.{answered};
ghost use Rattle.plans.specs.Answers.{made_as};
ghost use Rattle.plans.specs.Completes.{complete};
ghost use Rattle.plans.specs.Limits.{plan_fault};
ghost use Rattle.plans.specs.Soundness.{complete_sound};

use crate::limits::check_limits;
use model::fault::DrawFault;
use model::plan::Plan;

// The ports of a vertex lead to all others in rising order.
#[derive(Clone, Copy)]
pub struct Complete {
    size: u16,
    root: u16,
    ghost least: { 1 ≤ size },
    ghost most: { size ≤ 1024 },
    ghost rooted: { root < size },
}

impl Complete {
    pub fn new(size: u16, root: u16) -> Result<Complete, DrawFault>
        ensures { made_as {B = ℕ × ℕ} (λ p. (p.size, p.root)) result ≡ answered (plan_fault size root) (size, root) }
    {
        check_limits(size, root)?;
        Ok(Complete { size, root })
    }
}

impl Plan for Complete {
    ghost layout = { λ p. complete p.size p.root };

    ghost sound = { λ p. complete_sound p.size p.root p.least p.most p.rooted };

    fn size(&self) -> u16 {
        self.size
    }

    fn root(&self) -> u16 {
        self.root
    }

    #[tactic(auto, using(crate::specs::Others::others_length))]
    fn degree(&self, v: u16) -> u16 {
        if v < self.size { self.size - 1 } else { 0 }
    }

    #[tactic(auto, using(crate::proofs::Others::nth_others))]
    fn target(&self, v: u16, port: u16) -> Option<u16> {
        if port >= self.degree(v) {
            return None;
        }
        // `v` is passed over
        Some(if port < v { port } else { port + 1 })
    }
}
