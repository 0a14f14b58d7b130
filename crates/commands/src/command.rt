// What a line of a sheet asks for.
ghost use Rattle.std.specs.Prelude.{◌≡◌, Some, alloc_error};
ghost use Rattle.commands.specs.Args.{Reads};
ghost use Rattle.commands.specs.Answers.{asked, answer};
ghost use Rattle.commands.specs.Commands.{alone_of, sized_of, link_of, filed_of, seeded_of, listed_of, order_of, command_of};
ghost use Rattle.commands.specs.Told.{told};
ghost use Rattle.commands.specs.declared.command.Unread.TheVariants as unread;
ghost use Rattle.tokens.specs.Words.{bytes};

use crate::args::{around, list, pair, port, single, small};
use crate::keyword::{Keyword, keyword_of};
use crate::scope::Scope;
use std::alloc::{AllocError, AllocFailed, Global};
use std::fmt;
use tokens::number::number;
use tokens::seed::seed;

// A port that was written `-` is 65535.
#[derive(Drop)]
pub enum Command {
    Complete { size: u16, root: u16 },
    Table { size: u16, root: u16 },
    Link { from: u16, to: u16 },
    Check { ports: Vec<u16> },
    Filed { depth: u16, ports: Vec<u16> },
    Cells { ports: Vec<u16> },
    Seeded { seed: u64, depth: u16 },
    Room { records: u16 },
    Open,
    Walk,
    Listed { vertices: Vec<u16> },
    Try { vertex: u16 },
    Step,
    Run { budget: u32 },
    Heights,
    OpenVertices,
    Records,
    Tree,
    Reseat { ports: Vec<u16> },
    Help { scope: Scope },
}

// Why a line is no command. Of several mistakes in one line the first named here is told.
#[derive(Clone, Copy)]
pub enum Mistake {
    // The first word is no command.
    Unknown,
    // There are too many words or too few.
    Count,
    // The word `root` does not stand where it should.
    Root,
    // The word `depth` does not stand where it should.
    Depth,
    // A number is none, or too large.
    Number,
}

impl fmt::Display for Mistake {
    ghost output = { λ m. Some (told m) };

    fn fmt<W: fmt::Write>(&self, f: &mut fmt::Formatter<W>) -> fmt::Result {
        match self {
            Mistake::Unknown => f.write_str("no such command"),
            Mistake::Count => f.write_str("wrong number of words"),
            Mistake::Root => f.write_str("the word `root` is missing"),
            Mistake::Depth => f.write_str("the word `depth` is missing"),
            Mistake::Number => f.write_str("a number is wrong or too large"),
        }
    }
}

// Why no command was read from a line.
#[derive(Clone, Copy)]
pub enum Unread {
    Mistake(Mistake),
    // Memory was short. The line may well hold a command.
    NoMemory(AllocError),
}

impl From<Mistake> for Unread {
    ghost from_gives = { λ mistake e. e ≡ unread.Mistake mistake };

    fn from(mistake: Mistake) -> Unread {
        Unread::Mistake(mistake)
    }
}

impl<T: Drop> From<AllocFailed<T>> for Unread {
    ghost from_gives = { λ _ e. e ≡ unread.NoMemory alloc_error };

    fn from(full: AllocFailed<T>) -> Unread {
        Unread::NoMemory(AllocError::from(full))
    }
}

// A command that takes no further words.
fn alone(args: &[&[u8]], command: Command) -> Result<Command, Mistake>
    ensures { answer result ≡ alone_of (asked command) (bytes args.now) }
{
    if args.is_empty() {
        Ok(command)
    } else {
        Err(Mistake::Count)
    }
}

// The size and the root of `N root R`.
fn sized(args: &[&[u8]]) -> Result<(u16, u16), Mistake>
    ensures { result ≡ sized_of (bytes args.now) }
{
    let (size, root) = around(args, b"root", Mistake::Root)?;
    pair(size, root)
}

fn link(args: &[&[u8]]) -> Result<Command, Mistake>
    ensures { answer result ≡ link_of (bytes args.now) }
{
    let [left, right] = args else {
        return Err(Mistake::Count);
    };
    let (from, to) = pair(left, right)?;
    Ok(Command::Link { from, to })
}

fn filed(heap: Global, args: &[&[u8]]) -> Result<Command, Unread>
    ensures { Reads asked result (filed_of (bytes args.now)) }
{
    let (first, cells) = args.split_first().ok_or(Mistake::Count)?;
    let depth = small(first)?;
    let ports = list(heap, cells, small)?;
    Ok(Command::Filed { depth, ports })
}

fn seeded(args: &[&[u8]]) -> Result<Command, Mistake>
    ensures { answer result ≡ seeded_of (bytes args.now) }
{
    let (left, right) = around(args, b"depth", Mistake::Depth)?;
    let seed = seed(left).ok_or(Mistake::Number)?;
    let depth = small(right)?;
    Ok(Command::Seeded { seed, depth })
}

fn listed(heap: Global, args: &[&[u8]]) -> Result<Command, Unread>
    ensures { Reads asked result (listed_of (bytes args.now)) }
{
    let vertices = list(heap, args, small)?;
    Ok(Command::Listed { vertices })
}

// A fresh walk, or an order by its vertices.
fn order(heap: Global, args: &[&[u8]]) -> Result<Command, Unread>
    ensures { Reads asked result (order_of (bytes args.now)) }
{
    match args {
        [] => Err(Mistake::Count.into()),
        [word] if *word == b"walk".as_slice() => Ok(Command::Walk),
        _ => listed(heap, args),
    }
}

// What the words of a line ask for, in a sheet of this scope. A line without words is passed over by the caller; here it names no command.
pub fn command_of(heap: Global, scope: Scope, words: &[&[u8]]) -> Result<Command, Unread>
    ensures { Reads asked result (command_of scope (bytes words.now)) }
{
    let (first, args) = words.split_first().ok_or(Mistake::Unknown)?;
    let keyword = keyword_of(scope, first).ok_or(Mistake::Unknown)?;
    let command = match keyword {
        Keyword::Complete => {
            let (size, root) = sized(args)?;
            Command::Complete { size, root }
        }
        Keyword::Table => {
            let (size, root) = sized(args)?;
            Command::Table { size, root }
        }
        Keyword::Link => link(args)?,
        Keyword::Check => Command::Check {
            ports: list(heap, args, port)?,
        },
        Keyword::Filed => filed(heap, args)?,
        Keyword::Cells => Command::Cells {
            ports: list(heap, args, small)?,
        },
        Keyword::Seeded => seeded(args)?,
        Keyword::Room => Command::Room {
            records: small(single(args)?)?,
        },
        Keyword::Open => alone(args, Command::Open)?,
        Keyword::Order => order(heap, args)?,
        Keyword::Try => Command::Try {
            vertex: small(single(args)?)?,
        },
        Keyword::Step => alone(args, Command::Step)?,
        Keyword::Run => {
            let budget = number(single(args)?, u32::MAX).ok_or(Mistake::Number)?;
            Command::Run { budget }
        }
        Keyword::Heights => alone(args, Command::Heights)?,
        Keyword::OpenVertices => alone(args, Command::OpenVertices)?,
        Keyword::Records => alone(args, Command::Records)?,
        Keyword::Tree => alone(args, Command::Tree)?,
        Keyword::Reseat => Command::Reseat {
            ports: list(heap, args, port)?,
        },
        Keyword::Help => alone(args, Command::Help { scope })?,
    };
    Ok(command)
}
