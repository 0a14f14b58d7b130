// What the desk has in hand between the lines of a sheet.
use crate::hall::Hall;
use desk::running::Running;
use sources::any::AnyArrows;

mod drawing;
mod filing;
mod halls;
mod take;

// A draw stands over the plan of the hall and the arrows.
#[derive(Drop)]
pub struct Session {
    hall: Hall,
    arrows: Option<AnyArrows>,
    running: Option<Running>,
    // How many records the next draw has room for.
    room: u16,
}
