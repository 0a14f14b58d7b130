// Which vertices are open.
ghost use Rattle.std.specs.Prelude.{◌≡◌};
ghost use Rattle.model.specs.Orders.{open_marks};
ghost use Rattle.model.specs.Walks.{is_open, open_from, or_lowest};

use model::draw::Entries;

pub(crate) fn is_open(entries: &Entries, v: u16) -> bool
    ensures { result ≡ is_open (open_marks entries.now.list.items) v }
{
    entries
        .list
        .get(v as usize)
        .is_some_and(|entry| !entry.settled)
}

// The first open vertex from `start` on.
pub(crate) fn open_from(entries: &Entries, start: u16) -> Option<u16>
    ensures { result ≡ open_from (open_marks entries.now.list.items) start }
{
    (start..entries.list.len() as u16).find(|v| is_open(entries, *v))
}

// The pick if there is one, else the lowest open vertex.
pub(crate) fn or_lowest(entries: &Entries, pick: Option<u16>) -> Option<u16>
    ensures { result ≡ or_lowest (open_marks entries.now.list.items) pick }
{
    pick.or_else(|| open_from(entries, 0))
}
