// Why a call on a plan or a draw is refused. Every fault has a number, a layer and a place.
ghost use Rattle.std.specs.Prelude.{◌≡◌, Some};
ghost use Rattle.model.specs.Faults.{number_of, layer_of, place_of};
ghost use Rattle.model.specs.Words.{layer_word, fault_words};
ghost use Rattle.model.specs.declared.fault.DrawFault.TheVariants.{NoMemory};

use std::alloc::{AllocError, AllocFailed};
use std::fmt;

// Which part of the library found the fault.
#[derive(Clone, Copy, PartialEq, Eq, Debug)]
pub enum Layer {
    Record,
    Filing,
    Draw,
}

impl fmt::Display for Layer {
    ghost output = { λ l. Some (layer_word l) };

    fn fmt<W: fmt::Write>(&self, f: &mut fmt::Formatter<W>) -> fmt::Result {
        f.write_str(match self {
            Self::Record => "record",
            Self::Filing => "filing",
            Self::Draw => "draw",
        })
    }
}

#[derive(Clone, Copy, PartialEq, Eq, Debug)]
pub enum DrawFault {
    // Memory could not be had.
    NoMemory,
    // A size or a number of links is outside its limits.
    Limit,
    // A link has an end outside the plan, a falling start, or is one too many from its vertex.
    Link,
    // The root is not a vertex of the plan.
    Root,
    // A list that the caller gave is too short.
    Short,
    // The ports are no tree toward the root.
    NoTree,
    // The vertex is none of the plan's.
    Vertex(u16),
    // The draw's size or root is not the plan's.
    OtherPlan,
    // The vertex is settled already.
    AlreadySettled(u16),
    // The list of records is full.
    ListFull,
    // No vertex is open.
    NothingOpen,
    // Vertices are open still.
    StillOpen,
    // The draw ended with dry vertices, this one the lowest.
    Dry(u16),
}

impl DrawFault {
    pub fn number(&self) -> u8
        ensures { result ≡ number_of self.now }
    {
        match self {
            DrawFault::NoMemory => 0,
            DrawFault::Limit => 4,
            DrawFault::Link => 5,
            DrawFault::Root => 8,
            DrawFault::Short => 9,
            DrawFault::NoTree => 10,
            DrawFault::Vertex(_) => 8,
            DrawFault::OtherPlan => 21,
            DrawFault::AlreadySettled(_) => 22,
            DrawFault::ListFull => 23,
            DrawFault::NothingOpen => 24,
            DrawFault::StillOpen => 25,
            DrawFault::Dry(_) => 26,
        }
    }

    pub fn layer(&self) -> Layer
        ensures { result ≡ layer_of self.now }
    {
        Layer::Draw
    }

    // The vertex that the fault speaks of, 0 where it speaks of none.
    pub fn place(&self) -> usize
        ensures { result ≡ place_of self.now }
    {
        match self {
            DrawFault::Vertex(v) | DrawFault::AlreadySettled(v) | DrawFault::Dry(v) => *v as usize,
            _ => 0,
        }
    }
}

// Its number, layer and place.
impl fmt::Display for DrawFault {
    ghost output = { λ e. Some (fault_words e) };

    fn fmt<W: fmt::Write>(&self, f: &mut fmt::Formatter<W>) -> fmt::Result {
        write!(f, "{} {} {}", self.number(), self.layer(), self.place())
    }
}

impl From<AllocError> for DrawFault {
    ghost from_gives = { λ _ e. e ≡ NoMemory };

    fn from(_refused: AllocError) -> DrawFault {
        DrawFault::NoMemory
    }
}

impl<T: Drop> From<AllocFailed<T>> for DrawFault {
    ghost from_gives = { λ _ e. e ≡ NoMemory };

    fn from(_refused: AllocFailed<T>) -> DrawFault {
        DrawFault::NoMemory
    }
}
