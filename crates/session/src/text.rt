// How answers are worded.
ghost use Rattle.std.specs.Prelude.{◌≡◌, ℕ, List, Some};
ghost use Rattle.std.specs.Fmt.{WritesOnOk};
ghost use Rattle.session.specs.Said.{said};
ghost use Rattle.session.specs.Texts.{port_word, list_text, records_text, commands_text, answer_text, misplaced_word, due_text};

use crate::answer::{Answer, Due, Misplaced};
use commands::scope::Scope;
use model::draw::Pop;
use std::fmt;
use tokens::seed::HexSeed;

const HALL_COMMANDS: &str = "\
complete N root R   the plan in which every unit is cabled to every other\n\
table N root R      a plan that is told link by link; its links follow\n\
link A B            one more link of the table, from A to B\n\
check P P ..        whether the ports, by rising unit, lead every unit to the root; - for the root's port\n\
";

const DRAW_COMMANDS: &str = "\
filed D P P ..      arrows of depth D from a list of ports, by rising unit without the root\n\
cells P P ..        more ports of that list\n\
seeded S depth D    arrows from the seed S, in hexadecimal, down to depth D\n\
room K              how many records the next draws have room for; 4096 unless said\n\
open                a draw over the plan and the arrows, with a fresh walk\n\
order walk          from now on a fresh walk round the units\n\
order V V ..        from now on these units in turn\n\
try V               tries the unit V\n\
step                tries the unit that the order picks\n\
run B               at most B steps\n\
heights             the height of each unit\n\
open?               the units that are open\n\
records             the popped cycles: lowest unit, its height before, how many units\n\
tree                the port of each unit, where the draw ended in a tree\n\
reseat P P ..       another tree for the filed arrows, and a draw over them\n\
";

const HELP_COMMAND: &str = "help                these lines\n";

// A line for each command that a sheet of this scope may hold.
fn commands<W: fmt::Write>(f: &mut fmt::Formatter<W>, scope: Scope) -> fmt::Result
    ensures { WritesOnOk W.write_str_gives f.old result (commands_text scope) f.new }
{
    match scope {
        Scope::Halls => write!(f, "{HALL_COMMANDS}{HELP_COMMAND}"),
        Scope::Draws => write!(f, "{HALL_COMMANDS}{DRAW_COMMANDS}{HELP_COMMAND}"),
    }
}

// A port of a tree, with `-` for the root's.
#[derive(Clone, Copy)]
struct Port(u16);

impl fmt::Display for Port {
    ghost output = { λ p. Some (port_word p.0) };

    fn fmt<W: fmt::Write>(&self, f: &mut fmt::Formatter<W>) -> fmt::Result {
        match self {
            Port(u16::MAX) => f.write_str("-"),
            Port(x) => write!(f, "{x}"),
        }
    }
}

// The word, and each number behind a space.
fn list<W: fmt::Write, D: fmt::Display + Drop, F: Fn(u16) -> D>(
    f: &mut fmt::Formatter<W>,
    word: &str,
    numbers: &[u16],
    shown: F,
) -> fmt::Result
    requires { F.IsAlwaysCallable shown }
    ensures { (text : ℕ → List ℕ) → ((x : ℕ) (d : D) → F.post shown x d → D.output d ≡ Some (text x)) → WritesOnOk W.write_str_gives f.old result (list_text word.now text numbers.now) f.new }
{
    f.write_str(word)?;
    for x in numbers {
        write!(f, " {}", shown(*x))?;
    }
    f.write_str("\n")
}

// A line for each record.
fn records<W: fmt::Write>(f: &mut fmt::Formatter<W>, records: &[Pop]) -> fmt::Result
    ensures { WritesOnOk W.write_str_gives f.old result (records_text records.now) f.new }
{
    for record in records {
        write!(f, "record {record}\n")?;
    }
    Ok(())
}

// The lines of an answer, with their newlines; no bytes for a silent one.
impl fmt::Display for Answer {
    ghost output = { λ a. Some (answer_text (said a)) };

    fn fmt<W: fmt::Write>(&self, f: &mut fmt::Formatter<W>) -> fmt::Result {
        match self {
            Answer::Silent => Ok(()),
            Answer::Complete { size, root } => write!(f, "plan complete {size} root {root}\n"),
            Answer::Checked(check) => write!(f, "{check}\n"),
            Answer::Filed { depth } => write!(f, "arrows filed {depth}\n"),
            Answer::Seeded { seed, depth } => {
                write!(f, "arrows seeded {} depth {depth}\n", HexSeed(*seed))
            }
            Answer::Opened { size, root } => write!(f, "opened {size} root {root}\n"),
            Answer::Tried(tried) => write!(f, "{tried}\n"),
            Answer::Ran { tries, stop } => write!(f, "ran {tries} {stop}\n"),
            Answer::Heights(heights) => list(f, "heights", heights.as_slice(), |x| x),
            Answer::Open(vertices) => list(f, "open", vertices.as_slice(), |x| x),
            Answer::Records(pops) => records(f, pops.as_slice()),
            Answer::Tree(ports) => list(f, "tree", ports.as_slice(), |x| Port(x)),
            Answer::Cells(ports) => list(f, "cells", ports.as_slice(), |x| x),
            Answer::Commands { scope } => commands(f, *scope),
        }
    }
}

impl fmt::Display for Misplaced {
    ghost output = { λ m. Some (misplaced_word m) };

    fn fmt<W: fmt::Write>(&self, f: &mut fmt::Formatter<W>) -> fmt::Result {
        f.write_str(match self {
            Misplaced::NoPlan => "there is no plan yet",
            Misplaced::NoTable => "a link follows its table",
            Misplaced::NoFiled => "cells follow filed arrows that lack some",
            Misplaced::TooMany => "there are too many cells",
            Misplaced::NoArrows => "there are no arrows yet",
            Misplaced::NoDraw => "there is no draw yet",
            Misplaced::NotFiled => "only filed arrows can be reseated",
        })
    }
}

// A line, with its newline.
impl fmt::Display for Due {
    ghost output = { λ due. Some (due_text due) };

    fn fmt<W: fmt::Write>(&self, f: &mut fmt::Formatter<W>) -> fmt::Result {
        match self {
            Due::Table { size, root, links } => {
                write!(f, "plan table {size} root {root} links {links}\n")
            }
            Due::FewCells { line } => write!(f, "line {line}: there are too few cells\n"),
        }
    }
}
