// Draws on small halls.
use draws::draw::Draw;
use endings::reseat::reseat;
use endings::tree::tree;
use model::draw::{Pop, Stop, Tried};
use model::fault::DrawFault;
use orders::filed::FiledOrder;
use orders::walk::Walk;
use plans::complete::Complete;
use sources::filed::Filed;
use sources::listing::Listing;
use std::alloc::Global;
use std::test::Fail;

const BLANK: Pop = Pop {
    vertex: 0,
    height: 0,
    length: 0,
};

fn pop(vertex: u16, height: u16, length: u16) -> Pop {
    Pop {
        vertex,
        height,
        length,
    }
}

fn filed(heap: Global, size: u16, depth: u16, cells: &[u16]) -> Result<Filed<Vec<u16>>, Fail> {
    Ok(Filed {
        listing: Listing {
            size,
            root: 0,
            depth,
        },
        ports: cells.to_vec(heap)?,
    })
}

// Units 1 and 2 point at each other, and then 1 at the root and 2 at 1.
#[test]
fn one_cycle_by_tries(rt: HostRuntime) -> Result<(), Fail> {
    let plan = Complete::new(3, 0)?;
    let arrows = filed(rt.alloc(), 3, 2, &[1, 0, 1, 1])?;
    let mut draw = Draw::open(&plan, rt.alloc())?;
    let mut list = [BLANK; 2];
    let popped = draw.try_at(&plan, &arrows, &mut list, 2)?;
    assert_eq!(rt; popped, Tried::Popped(pop(1, 0, 2)));
    let settled = draw.try_at(&plan, &arrows, &mut list, 2)?;
    assert_eq!(rt; settled, Tried::Settled(2));
    let again = draw.try_at(&plan, &arrows, &mut list, 1);
    assert_eq!(rt; again, Err(DrawFault::AlreadySettled(1)));
    let outside = draw.try_at(&plan, &arrows, &mut list, 3);
    assert_eq!(rt; outside, Err(DrawFault::Vertex(3)));
    assert!(rt; list == [pop(1, 0, 2), BLANK]);
    assert_eq!(rt; draw.pops(), 1);
    Ok(())
}

// Two orders pop the two cycles in opposite turn, and come to the same tree.
#[test]
fn two_orders(rt: HostRuntime) -> Result<(), Fail> {
    let plan = Complete::new(5, 0)?;
    let arrows = filed(rt.alloc(), 5, 2, &[1, 0, 1, 0, 3, 0, 3, 0])?;
    let mut walked = Draw::open(&plan, rt.alloc())?;
    let mut records = [BLANK; 2];
    let walk = walked.run(&plan, &arrows, &mut records, &mut Walk::new(), 100)?;
    assert!(rt; walk.1 == Stop::Ended);
    assert!(rt; records == [pop(1, 0, 2), pop(3, 0, 2)]);
    let mut told = Draw::open(&plan, rt.alloc())?;
    let mut others = [BLANK; 2];
    let mut order = FiledOrder::new([3, 1].to_vec(rt.alloc())?);
    let by_list = told.run(&plan, &arrows, &mut others, &mut order, 100)?;
    assert!(rt; by_list.1 == Stop::Ended);
    assert!(rt; others == [pop(3, 0, 2), pop(1, 0, 2)]);
    let mut left = [9; 6];
    tree(&walked, &plan, &arrows, &mut left)?;
    let mut right = [9; 6];
    tree(&told, &plan, &arrows, &mut right)?;
    assert!(rt; left == [65535, 0, 0, 0, 0, 9]);
    assert!(rt; left == right);
    Ok(())
}

// Reseated to another tree, the cells give the same cycle and that tree.
#[test]
fn reseats(rt: HostRuntime) -> Result<(), Fail> {
    let plan = Complete::new(3, 0)?;
    let arrows = filed(rt.alloc(), 3, 2, &[1, 0, 1, 1])?;
    let mut draw = Draw::open(&plan, rt.alloc())?;
    let mut list = [BLANK; 3];
    let mut cells = [1, 0, 1, 1, 7];
    let early = reseat(&draw, &plan, &mut cells, 2, &[0, 1, 0]);
    assert_eq!(rt; early, Err(DrawFault::StillOpen));
    let _ = draw.run(&plan, &arrows, &mut list, &mut Walk::new(), 9)?;
    let deep = reseat(&draw, &plan, &mut cells, 2049, &[0, 1, 0]);
    assert_eq!(rt; deep, Err(DrawFault::Limit));
    let bad = reseat(&draw, &plan, &mut cells, 2, &[0, 1, 1]);
    assert_eq!(rt; bad, Err(DrawFault::NoTree));
    reseat(&draw, &plan, &mut cells, 2, &[0, 1, 0])?;
    assert!(rt; cells == [1, 1, 1, 0, 7]);
    let others = filed(rt.alloc(), 3, 2, &[1, 1, 1, 0])?;
    let mut redone = Draw::open(&plan, rt.alloc())?;
    let mut again = [BLANK; 3];
    let _ = redone.run(&plan, &others, &mut again, &mut Walk::new(), 9)?;
    assert!(rt; again == list);
    let mut ports = [0; 3];
    tree(&redone, &plan, &others, &mut ports)?;
    assert!(rt; ports == [65535, 1, 0]);
    Ok(())
}
