// A sheet under way.
ghost use Rattle.std.specs.Prelude.{◌≡◌, true};
ghost use Rattle.session.specs.Desks.{desk_of};
ghost use Rattle.sheet.specs.Scopes.{within};

use crate::line::Outcome;
use commands::scope::Scope;
use session::session::Session;

mod calls;

// Which commands it may hold, what the desk has in hand, how many lines there were, and how the worst of them went.
// A sheet of halls has no more than a hall in hand.
#[derive(Drop)]
pub struct Sheet {
    scope: Scope,
    session: Session,
    lines: usize,
    worst: Outcome,
    pub ghost within: { within scope (desk_of session) ≡ true },
}
