// One order of either kind.
ghost use Rattle.orders.specs.Anys.{any_lawful, any_pick, any_told};

use crate::filed::FiledOrder;
use crate::walk::Walk;
use model::draw::Entries;
use model::order::Order;

#[derive(Drop)]
pub enum AnyOrder {
    Walk(Walk),
    Listed(FiledOrder),
}

impl Order for AnyOrder {
    ghost picks = { any_pick };

    ghost tells = { any_told };

    ghost lawful = { any_lawful };

    fn pick(&self, entries: &Entries) -> Option<u16> {
        match self {
            AnyOrder::Walk(order) => order.pick(entries),
            AnyOrder::Listed(order) => order.pick(entries),
        }
    }

    fn tell(&mut self, v: u16) {
        match self {
            AnyOrder::Walk(order) => order.tell(v),
            AnyOrder::Listed(order) => order.tell(v),
        }
    }
}
