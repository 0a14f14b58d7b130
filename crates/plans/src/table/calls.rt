// What a table answers, and how it takes a link.
ghost use Rattle.std.specs.Prelude.{◌≡◌, ◌<◌, length, map, OnErr};
ghost use Rattle.model.specs.Answers.{answered};
ghost use Rattle.plans.specs.Answers.{made_as, MadeOrNoMemory};
ghost use Rattle.plans.specs.Cablings.{cabled, end_of, leads_from, last_start, may_follow, link_fault, linked, unlinked};
ghost use Rattle.plans.specs.Limits.{plan_fault};
ghost use Rattle.plans.specs.Soundness.{table_sound};
ghost use Rattle.plans.specs.Spans.{span_at, grown};
ghost use Rattle.plans.specs.Tables.{cabling_of};

use super::{Link, Span, Table};
use crate::limits::check_limits;
use model::fault::DrawFault;
use model::plan::Plan;
use std::alloc::Global;

const MAX_LINKS: usize = 4096;

const NO_SPAN: Span = Span {
    first: 0,
    degree: 0,
};

impl Span {
    // One more link, which stands at index `end`.
    fn grown(self, end: u16) -> Span
        requires { self.degree < 1023 }
        ensures { result ≡ grown self end }
    {
        Span {
            first: if self.degree == 0 { end } else { self.first },
            degree: self.degree + 1,
        }
    }
}

impl Table {
    // A plan without links.
    pub fn new(heap: Global, size: u16, root: u16) -> Result<Table, DrawFault>
        ensures { MadeOrNoMemory (plan_fault size root) (unlinked size root) (made_as cabling_of result) }
    {
        check_limits(size, root)?;
        let links = Vec::with_capacity(heap, MAX_LINKS)?;
        let spans = vec![in heap; NO_SPAN; size as usize]?;
        Ok(Table {
            size,
            root,
            links,
            spans,
        })
    }

    pub fn links(&self) -> &[Link]
        ensures { result.now ≡ (cabling_of self.now).links }
    {
        self.links.as_slice()
    }

    // Where the last link starts, 0 where there is none.
    fn last_start(&self) -> u16
        ensures { result ≡ last_start self.now.links.items }
    {
        self.links.last().map_or(0, |link| link.from)
    }

    // The span of `v`, an empty one for a vertex that the table lacks.
    fn span(&self, v: u16) -> Span
        ensures { result ≡ span_at self.now.spans.items v }
    {
        self.spans.get(v as usize).map_or(NO_SPAN, |span| *span)
    }

    fn links_from(&self, v: u16) -> &[Link]
        ensures { map end_of result.now ≡ leads_from self.now.links.items v }
    {
        let span = self.span(v);
        let first = span.first as usize;
        &self.links[first..first + span.degree as usize]
    }

    fn ports_at(&self, v: u16) -> u16
        ensures { result ≡ length (leads_from self.now.links.items v) }
    {
        self.span(v).degree
    }

    fn may_follow(&self, from: u16, to: u16) -> bool
        ensures { result ≡ may_follow (cabling_of self.now) from to }
    {
        from < self.size
            && to < self.size
            && self.last_start() <= from
            && self.ports_at(from) < 1023
    }

    fn check_link(&self, from: u16, to: u16) -> Result<(), DrawFault>
        ensures { result ≡ answered (link_fault (cabling_of self.now) from to) tt }
    {
        if self.links.len() >= MAX_LINKS {
            Err(DrawFault::Limit)
        } else if self.may_follow(from, to) {
            Ok(())
        } else {
            Err(DrawFault::Link)
        }
    }

    // Needs no memory: the room for all links was made with the table.
    pub fn link(&mut self, from: u16, to: u16) -> Result<(), DrawFault>
        ensures answer { (result, cabling_of self.new) ≡ linked (cabling_of self.old) from to }
        ensures same { OnErr result (self.new ≡ self.old) }
    {
        self.check_link(from, to)?;
        let end = self.links.len() as u16;
        let span = self.span(from).grown(end);
        self.spans[from as usize] = span;
        self.links.push_reserved(Link { from, to });
        Ok(())
    }
}

impl Plan for Table {
    ghost layout = { λ t. cabled (cabling_of t) };

    ghost sound = { λ t. table_sound t };

    fn size(&self) -> u16 {
        self.size
    }

    fn root(&self) -> u16 {
        self.root
    }

    fn degree(&self, v: u16) -> u16 {
        self.ports_at(v)
    }

    fn target(&self, v: u16, port: u16) -> Option<u16> {
        let link = self.links_from(v).get(port as usize)?;
        Some(link.to)
    }
}
