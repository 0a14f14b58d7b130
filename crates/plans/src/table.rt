// The plan that is told link by link.
ghost use Rattle.std.specs.Prelude.{◌≡◌, ◌<◌, ◌≤◌, vec_len, vec_capacity};
ghost use Rattle.plans.specs.Spans.{Ended, RisingStarts, EachSpan, Lies, Narrow, Leads, BareAbove, EndsLast};

mod calls;

#[derive(Clone, Copy, PartialEq, Eq, Debug)]
pub struct Link {
    pub from: u16,
    pub to: u16,
}

// The links from one vertex: the index of the first, and how many there are.
#[derive(Clone, Copy)]
struct Span {
    first: u16,
    degree: u16,
}

// Port i of v is the i-th link from v. Links stand by rising start, so that those from one vertex stand together.
#[derive(Drop)]
pub struct Table {
    size: u16,
    root: u16,
    links: Vec<Link>,
    spans: Vec<Span>,
    ghost least: { 1 ≤ size },
    ghost most: { size ≤ 1024 },
    ghost rooted: { root < size },
    ghost roomy: { 4096 ≤ vec_capacity links },
    ghost few: { vec_len links ≤ 4096 },
    ghost rows: { vec_len spans ≡ size },
    ghost ended: { Ended size links.items },
    ghost rising: { RisingStarts links.items },
    ghost lie: { EachSpan size spans.items (Lies links.items) },
    ghost narrow: { EachSpan size spans.items Narrow },
    ghost lead: { EachSpan size spans.items (Leads links.items) },
    ghost bare: { EachSpan size spans.items (BareAbove links.items) },
    ghost newest: { EachSpan size spans.items (EndsLast links.items) },
}
