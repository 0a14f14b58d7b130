// Popping a cycle and settling a way: one entry after the other is lent to be changed.
ghost use Rattle.std.specs.Prelude.{◌≡◌, ℕ, suc, ◌<◌, List, ◌∷◌, length, None, vec_len, slice_index_or, slice_set};
ghost use Rattle.theory.specs.Cycles.{Cycle};
ghost use Rattle.theory.specs.Draws.{no_entry, height_of, shown, trail, changed, higher, shut};

use crate::sight::Sight;
use model::draw::Entries;
use model::plan::Plan;
use model::source::ArrowSource;

// Raises the entry of `v`.
fn raise_at(entries: &mut Entries, v: u16)
    requires within { v < vec_len entries.old.list }
    requires under { height_of entries.old.list.items v < 4096 }
    ensures { entries.new.list.items ≡ slice_set entries.old.list.items v (higher (slice_index_or entries.old.list.items v no_entry)) }
{
    entries.list[v as usize].height += 1;
}

// Settles the entry of `v`.
fn settle_at(entries: &mut Entries, v: u16)
    requires { v < vec_len entries.old.list }
    ensures { entries.new.list.items ≡ slice_set entries.old.list.items v (shut (slice_index_or entries.old.list.items v no_entry)) }
{
    entries.list[v as usize].settled = true;
}

// Raises every vertex of the cycle whose lowest is `low`, and counts them.
pub(crate) fn raise_cycle<P: Plan, S: ArrowSource>(
    entries: &mut Entries,
    plan: &P,
    arrows: &S,
    low: u16,
) -> u16
    requires sized { length entries.old.list.items ≡ (P.layout plan.now).size }
    requires cycle { (rest : List ℕ) × Cycle (shown (P.layout plan.now) (S.cells arrows.now) entries.old.list.items) (low ∷ rest) }
    ensures { (rest : List ℕ) → Cycle (shown (P.layout plan.now) (S.cells arrows.now) entries.old.list.items) (low ∷ rest) → (entries.new.list.items ≡ changed higher (low ∷ rest) entries.old.list.items) × (result ≡ suc (length rest)) }
{
    let mut here = low;
    let mut count = 0;
    loop {
        let sight = Sight {
            entries,
            plan,
            arrows,
        };
        let next = sight.target(here);
        raise_at(entries, here);
        count += 1;
        let Some(next) = next else {
            return count;
        };
        if next == low {
            return count;
        }
        here = next;
    }
}

// Settles every open vertex of the way from `start`, and counts them. The way must not come round.
pub(crate) fn settle_way<P: Plan, S: ArrowSource>(
    entries: &mut Entries,
    plan: &P,
    arrows: &S,
    start: u16,
) -> u16
    requires sized { length entries.old.list.items ≡ (P.layout plan.now).size }
    requires within { start < (P.layout plan.now).size }
    requires straight { (trail (P.layout plan.now) (S.cells arrows.now) entries.old.list.items start).loop ≡ None }
    ensures after { entries.new.list.items ≡ changed shut (trail (P.layout plan.now) (S.cells arrows.now) entries.old.list.items start).path entries.old.list.items }
    ensures count { result ≡ length (trail (P.layout plan.now) (S.cells arrows.now) entries.old.list.items start).path }
{
    let mut here = start;
    let mut count = 0;
    loop {
        let sight = Sight {
            entries,
            plan,
            arrows,
        };
        if sight.settled(here) {
            return count;
        }
        let next = sight.target(here);
        settle_at(entries, here);
        count += 1;
        let Some(next) = next else {
            return count;
        };
        here = next;
    }
}
