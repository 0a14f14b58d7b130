// What checking a tree answers.
ghost use Rattle.std.specs.Prelude.{Some};
ghost use Rattle.model.specs.Words.{check_words};

use std::fmt;

#[derive(Clone, Copy, PartialEq, Eq, Debug)]
pub enum TreeCheck {
    // From every vertex the ports lead to the root.
    Tree,
    // The lowest vertex from which they do not.
    Lost(u16),
}

impl fmt::Display for TreeCheck {
    ghost output = { λ t. Some (check_words t) };

    fn fmt<W: fmt::Write>(&self, f: &mut fmt::Formatter<W>) -> fmt::Result {
        match self {
            TreeCheck::Tree => f.write_str("tree"),
            TreeCheck::Lost(v) => write!(f, "no tree: {v} does not reach the root"),
        }
    }
}
