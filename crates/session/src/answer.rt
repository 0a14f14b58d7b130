// What a command is answered with.
ghost use Rattle.std.specs.Prelude.{◌≡◌};
ghost use Rattle.session.specs.declared.answer.Refusal.TheVariants as refusal;

use commands::scope::Scope;
use model::draw::{Pop, Stop, Tried};
use model::fault::DrawFault;
use model::tree::TreeCheck;

#[derive(Drop)]
pub enum Answer {
    // Taken, with nothing to write.
    Silent,
    Complete { size: u16, root: u16 },
    Checked(TreeCheck),
    Filed { depth: u16 },
    Seeded { seed: u64, depth: u16 },
    Opened { size: u16, root: u16 },
    Tried(Tried),
    Ran { tries: u32, stop: Stop },
    // The height of each vertex, rising.
    Heights(Vec<u16>),
    // The open vertices, rising.
    Open(Vec<u16>),
    Records(Vec<Pop>),
    // The port of each vertex, rising, 65535 at the root.
    Tree(Vec<u16>),
    // The filed cells after reseating.
    Cells(Vec<u16>),
    // The list of the commands that a sheet of this scope may hold.
    Commands { scope: Scope },
}

// Why a command cannot be done where it stands.
#[derive(Clone, Copy, PartialEq, Eq, Debug)]
pub enum Misplaced {
    // It needs a plan, and there is none.
    NoPlan,
    // A link follows a table or another of its links.
    NoTable,
    // Cells follow filed arrows that lack some.
    NoFiled,
    // There are more cells than the arrows have.
    TooMany,
    // It needs arrows, and there are none.
    NoArrows,
    // It needs a draw, and there is none.
    NoDraw,
    // Only filed arrows can be reseated.
    NotFiled,
}

// Why a command is not done.
#[derive(Clone, Copy, PartialEq, Eq, Debug)]
pub enum Refusal {
    // It cannot be done where it stands.
    Misplaced(Misplaced),
    // The library refuses it, or there is no memory for it.
    Fault(DrawFault),
}

impl From<Misplaced> for Refusal {
    ghost from_gives = { λ m e. e ≡ refusal.Misplaced m };

    fn from(misplaced: Misplaced) -> Refusal {
        Refusal::Misplaced(misplaced)
    }
}

impl From<DrawFault> for Refusal {
    ghost from_gives = { λ fault e. e ≡ refusal.Fault fault };

    fn from(fault: DrawFault) -> Refusal {
        Refusal::Fault(fault)
    }
}

// What is to be written before the answer of the command that ends it.
#[derive(Clone, Copy, PartialEq, Eq, Debug)]
pub enum Due {
    // The plan of a table whose links have ended.
    Table { size: u16, root: u16, links: usize },
    // The filed arrows of this line lack cells, and were not taken.
    FewCells { line: usize },
}
