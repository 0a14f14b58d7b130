// What a vertex shows at its height.
ghost use Rattle.std.specs.Prelude.{◌≡◌, slice_index_or};
ghost use Rattle.model.specs.Arrows.{counts, visible};
ghost use Rattle.theory.specs.Draws.{no_entry, height_of, is_settled, shown};
ghost use Rattle.theory.specs.Laws.{open_arrows};

use model::draw::{Entries, Entry};
use model::plan::Plan;
use model::source::ArrowSource;

// From this height on no arrow is visible.
const MOST_HEIGHT: u16 = 4096;

const NO_ENTRY: Entry = Entry {
    height: 0,
    settled: false,
};

// The entries of a draw, over a plan and its arrows.
#[derive_where(Clone, Copy)]
pub(crate) struct Sight<'a, P, S> {
    pub(crate) entries: &'a Entries,
    pub(crate) plan: &'a P,
    pub(crate) arrows: &'a S,
}

// The port counts only below the degree, and only at a height below the most.
fn counted(degree: u16, height: u16, port: u16) -> Option<u16>
    ensures { result ≡ counts degree height port }
{
    (height < MOST_HEIGHT && port < degree).then_some(port)
}

impl<'a, P: Plan, S: ArrowSource> Sight<'a, P, S> {
    // The entry of `v`; what has none reads as an open vertex at height 0.
    fn entry(&self, v: u16) -> Entry
        ensures { result ≡ slice_index_or self.now.entries.now.list.items v no_entry }
    {
        self.entries
            .list
            .get(v as usize)
            .map_or(NO_ENTRY, |entry| *entry)
    }

    pub(crate) fn height(&self, v: u16) -> u16
        ensures { result ≡ height_of self.now.entries.now.list.items v }
    {
        self.entry(v).height
    }

    pub(crate) fn settled(&self, v: u16) -> bool
        ensures { result ≡ is_settled self.now.entries.now.list.items v }
    {
        self.entry(v).settled
    }

    // The visible port of `v`: none at the root.
    pub(crate) fn visible_port(&self, v: u16) -> Option<u16>
        ensures { result ≡ visible (P.layout self.now.plan.now) (S.cells self.now.arrows.now) v (height_of self.now.entries.now.list.items v) }
    {
        if v == self.plan.root() {
            return None;
        }
        let height = self.height(v);
        let degree = self.plan.degree(v);
        counted(degree, height, self.arrows.port(v, height, degree)?)
    }

    // Where its arrow leads.
    pub(crate) fn target(&self, v: u16) -> Option<u16>
        ensures { result ≡ shown (P.layout self.now.plan.now) (S.cells self.now.arrows.now) self.now.entries.now.list.items v }
    {
        self.plan.target(v, self.visible_port(v)?)
    }

    // Where the arrow of an open vertex leads; none at a settled one, and at a dry one.
    pub(crate) fn onward(&self, v: u16) -> Option<u16>
        ensures { result ≡ open_arrows (P.layout self.now.plan.now) (S.cells self.now.arrows.now) self.now.entries.now.list.items v }
    {
        if self.settled(v) {
            None
        } else {
            self.target(v)
        }
    }
}
