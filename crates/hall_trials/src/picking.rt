// Which vertices the orders pick.
ghost use Rattle.std.specs.Prelude.{◌≤◌, length};

use model::draw::{Entries, Entry};
use model::order::Order;
use orders::filed::FiledOrder;
use orders::walk::Walk;
use std::alloc::{AllocError, Global};
use std::test::Fail;

const OPEN: Entry = Entry {
    height: 0,
    settled: false,
};

const SHUT: Entry = Entry {
    height: 0,
    settled: true,
};

fn entries(heap: Global, list: &[Entry]) -> Result<Entries, AllocError>
    requires { length list.now ≤ 1024 }
{
    let list = Vec::from_slice(heap, list)?;
    Ok(Entries { list })
}

// Five vertices, of which 1 and 3 are open.
fn two_open(heap: Global) -> Result<Entries, AllocError> {
    entries(heap, &[SHUT, OPEN, SHUT, OPEN, SHUT])
}

#[test]
fn walk_goes_round(rt: HostRuntime) -> Result<(), Fail> {
    let five = two_open(rt.alloc())?;
    let mut walk = Walk::new();
    assert_eq!(rt; walk.pick(&five), Some(1));
    for (told, pick) in [(1, 1), (2, 3), (3, 3), (4, 1), (5, 1), (65535, 1), (0, 1)] {
        walk.tell(told);
        assert_eq!(rt; walk.pick(&five), Some(pick));
    }
    Ok(())
}

#[test]
fn filed_order_follows_its_list(rt: HostRuntime) -> Result<(), Fail> {
    let five = two_open(rt.alloc())?;
    let mut order = FiledOrder::new(vec![in rt.alloc(); 3, 2, 3, 9]?);
    // 3 is open, 2 is settled, 3 again, 9 is no vertex, then the list has ended
    for pick in [3, 1, 3, 1, 1, 1] {
        assert_eq!(rt; order.pick(&five), Some(pick));
        order.tell(0);
    }
    Ok(())
}

#[test]
fn none_is_open(rt: HostRuntime) -> Result<(), Fail> {
    let heap = rt.alloc();
    for list in [&[][..], &[SHUT, SHUT][..]] {
        let shut = entries(heap, list)?;
        assert_eq!(rt; Walk::new().pick(&shut), None);
        assert_eq!(rt; FiledOrder::new(vec![in heap; 1]?).pick(&shut), None);
    }
    Ok(())
}
