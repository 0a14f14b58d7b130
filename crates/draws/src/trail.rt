// Following the way from a vertex: whether it comes round, and the lowest vertex of the loop.
ghost use Rattle.std.specs.Prelude.{◌≡◌, ℕ, ◌<◌, true, ◌⊎◌, List, ◌∷◌, MatchOption};
ghost use Rattle.theory.specs.Cycles.{among, Cycle};
ghost use Rattle.theory.specs.Draws.{shown};
ghost use Rattle.theory.specs.Laws.{Rounds, RunsOut, open_arrows};

use crate::sight::Sight;
use model::plan::Plan;
use model::source::ArrowSource;

// A vertex that a way has passed. It is moved up after 1, 2, 4, 8 .. arrows more, so that it comes to stand on the loop, if
// there is one, before the way has gone a few times as far as it must (Brent's method). No memory is wanted for each vertex.
#[derive(Clone, Copy)]
struct Mark {
    vertex: u16,
    left: u16,
    lap: u16,
}

impl Mark {
    // The way has gone on to `here`.
    fn passed(self, here: u16) -> Mark
        ensures { (result.vertex ≡ self.vertex) ⊎ (result.vertex ≡ here) }
    {
        if self.left > 1 {
            Mark {
                left: self.left - 1,
                ..self
            }
        } else {
            let lap = self.lap.saturating_mul(2);
            Mark {
                vertex: here,
                left: lap,
                lap,
            }
        }
    }
}

impl<'a, P: Plan, S: ArrowSource> Sight<'a, P, S> {
    // A vertex on the loop to which the way from `v` comes; none where it comes to a settled or dry vertex.
    // To meet the mark again is to have come round, and so is to have gone as many arrows as there are vertices.
    pub(crate) fn comes_round(&self, v: u16) -> Option<u16>
        requires { v < (P.layout self.now.plan.now).size }
        ensures { MatchOption result (RunsOut (open_arrows (P.layout self.now.plan.now) (S.cells self.now.arrows.now) self.now.entries.now.list.items) v) (Rounds (open_arrows (P.layout self.now.plan.now) (S.cells self.now.arrows.now) self.now.entries.now.list.items) v) }
    {
        let mut mark = Mark {
            vertex: v,
            left: 1,
            lap: 1,
        };
        let mut here = v;
        for _gone in 0..self.plan.size() {
            let next = self.onward(here)?;
            if next == mark.vertex {
                return Some(next);
            }
            mark = mark.passed(next);
            here = next;
        }
        Some(here)
    }

    // The lowest vertex of the cycle that `start` is on.
    pub(crate) fn lowest_around(&self, start: u16) -> u16
        ensures { (m : ℕ) (rest : List ℕ) → Cycle (shown (P.layout self.now.plan.now) (S.cells self.now.arrows.now) self.now.entries.now.list.items) (m ∷ rest) → among start (m ∷ rest) ≡ true → result ≡ m }
    {
        let mut low = start;
        let mut here = start;
        for _gone in 0..self.plan.size() {
            let Some(next) = self.target(here) else {
                return low;
            };
            low = low.min(next);
            if next == start {
                return low;
            }
            here = next;
        }
        low
    }
}
