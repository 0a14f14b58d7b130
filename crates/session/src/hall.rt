// The hall that the desk works on.
ghost use Rattle.std.specs.Prelude.{◌≡◌};
ghost use Rattle.std.specs.Option.{option_map};
ghost use Rattle.session.specs.Desks.{place_of, planned_of, closing, plan_at};

use crate::answer::Due;
use model::plan::Plan;
use plans::any::AnyPlan;
use plans::table::Table;

// Filed arrows that lack cells still: the line at which they began, their depth, and the cells so far.
#[derive(Drop)]
pub(crate) struct Pending {
    pub(crate) line: usize,
    pub(crate) depth: u16,
    pub(crate) ports: Vec<u16>,
}

#[derive(Drop)]
pub(crate) enum Hall {
    Empty,
    // A table to which links may still be added; its line is not written yet.
    Linking(Table),
    // A plan, and the filed arrows of which not all cells are told.
    Planned(AnyPlan, Option<Pending>),
}

impl Hall {
    // The plan, unless it or what stands on it is not told whole.
    pub(crate) fn plan(&self) -> Option<&AnyPlan>
        ensures { option_map (λ p. planned_of p.now) result ≡ plan_at (place_of self.now) }
    {
        match self {
            Hall::Planned(plan, None) => Some(plan),
            _ => None,
        }
    }

    // Ends the links of a table, or filed arrows that lack cells.
    pub(crate) fn closed(self) -> (Option<Due>, Hall)
        ensures { (result.0, place_of result.1) ≡ closing (place_of self) }
    {
        match self {
            Hall::Empty => (None, Hall::Empty),
            Hall::Linking(table) => {
                let due = Due::Table {
                    size: table.size(),
                    root: table.root(),
                    links: table.links().len(),
                };
                (Some(due), Hall::Planned(AnyPlan::Table(table), None))
            }
            Hall::Planned(plan, pending) => {
                let due = pending.map(|pending| Due::FewCells { line: pending.line });
                (due, Hall::Planned(plan, None))
            }
        }
    }
}
