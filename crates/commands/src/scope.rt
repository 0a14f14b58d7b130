// Which commands a sheet may hold.

#[derive(Clone, Copy, PartialEq, Eq, Debug)]
pub enum Scope {
    // Those on plans and trees alone, and `help`.
    Halls,
    // All.
    Draws,
}
