// The names of the commands.
ghost use Rattle.std.specs.Prelude.{◌≡◌};
ghost use Rattle.commands.specs.Commands.{hall_keyword, draw_keyword, keyword_of};

use crate::scope::Scope;

#[derive(Clone, Copy)]
pub(crate) enum Keyword {
    Complete,
    Table,
    Link,
    Check,
    Filed,
    Cells,
    Seeded,
    Room,
    Open,
    Order,
    Try,
    Step,
    Run,
    Heights,
    OpenVertices,
    Records,
    Tree,
    Reseat,
    Help,
}

// A command on plans and trees, or `help`.
fn hall_keyword(word: &str) -> Option<Keyword>
    ensures { result ≡ hall_keyword word.now }
{
    match word {
        "complete" => Some(Keyword::Complete),
        "table" => Some(Keyword::Table),
        "link" => Some(Keyword::Link),
        "check" => Some(Keyword::Check),
        "help" => Some(Keyword::Help),
        _ => None,
    }
}

// A command on arrows and draws.
fn draw_keyword(word: &str) -> Option<Keyword>
    ensures { result ≡ draw_keyword word.now }
{
    match word {
        "filed" => Some(Keyword::Filed),
        "cells" => Some(Keyword::Cells),
        "seeded" => Some(Keyword::Seeded),
        "room" => Some(Keyword::Room),
        "open" => Some(Keyword::Open),
        "order" => Some(Keyword::Order),
        "try" => Some(Keyword::Try),
        "step" => Some(Keyword::Step),
        "run" => Some(Keyword::Run),
        "heights" => Some(Keyword::Heights),
        "open?" => Some(Keyword::OpenVertices),
        "records" => Some(Keyword::Records),
        "tree" => Some(Keyword::Tree),
        "reseat" => Some(Keyword::Reseat),
        _ => None,
    }
}

// The command that a first word names, among those that the sheet may hold.
pub(crate) fn keyword_of(scope: Scope, word: &[u8]) -> Option<Keyword>
    ensures { result ≡ keyword_of scope word.now }
{
    let word = str::from_utf8(word).ok()?;
    match scope {
        Scope::Halls => hall_keyword(word),
        Scope::Draws => hall_keyword(word).or_else(|| draw_keyword(word)),
    }
}
