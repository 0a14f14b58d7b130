// A draw under way, with what its calls are lent.
use draws::draw::Draw;
use model::draw::Pop;
use orders::any::AnyOrder;

mod calls;
mod open;
mod shows;

// The draw, the list that its records go into, and the order that its steps follow.
#[derive(Drop)]
pub struct Running {
    draw: Draw,
    list: Vec<Pop>,
    order: AnyOrder,
}
