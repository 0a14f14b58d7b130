// What a draw is made of: its entries, the records of popped cycles, and what its calls answer.
ghost use Rattle.std.specs.Prelude.{◌≤◌, vec_len, Some};
ghost use Rattle.model.specs.Words.{pop_words, tried_words, stop_word};

use std::fmt;

// What a draw keeps of one vertex.
#[derive(Clone, Copy, PartialEq, Eq, Debug)]
pub struct Entry {
    pub height: u16,
    pub settled: bool,
}

// The record of a popped cycle: its lowest vertex, the height there before popping, and the number of its vertices.
#[derive(Clone, Copy, PartialEq, Eq, Debug)]
pub struct Pop {
    pub vertex: u16,
    pub height: u16,
    pub length: u16,
}

impl fmt::Display for Pop {
    ghost output = { λ p. Some (pop_words p) };

    fn fmt<W: fmt::Write>(&self, f: &mut fmt::Formatter<W>) -> fmt::Result {
        write!(f, "{} {} {}", self.vertex, self.height, self.length)
    }
}

// What a try did.
#[derive(Clone, Copy, PartialEq, Eq, Debug)]
pub enum Tried {
    // The trail came round: its cycle was popped.
    Popped(Pop),
    // It did not: so many vertices were settled.
    Settled(u16),
}

impl fmt::Display for Tried {
    ghost output = { λ t. Some (tried_words t) };

    fn fmt<W: fmt::Write>(&self, f: &mut fmt::Formatter<W>) -> fmt::Result {
        match self {
            Tried::Popped(pop) => write!(f, "popped {pop}"),
            Tried::Settled(count) => write!(f, "settled {count}"),
        }
    }
}

// Why a run stopped.
#[derive(Clone, Copy, PartialEq, Eq, Debug)]
pub enum Stop {
    // No vertex is open.
    Ended,
    // The tries equal the budget.
    Spent,
    // The list of records has no room for the next.
    Full,
}

impl fmt::Display for Stop {
    ghost output = { λ why. Some (stop_word why) };

    fn fmt<W: fmt::Write>(&self, f: &mut fmt::Formatter<W>) -> fmt::Result {
        f.write_str(match self {
            Self::Ended => "ended",
            Self::Spent => "spent",
            Self::Full => "full",
        })
    }
}

// One entry for each vertex of a plan.
#[derive(Drop)]
pub struct Entries {
    pub list: Vec<Entry>,
    ghost few: { vec_len list ≤ 1024 },
}
