// Limits of draws: one vertex, the last height, a full list, no budget, another plan, and a dry end.
use draws::draw::Draw;
use endings::tree::tree;
use model::draw::{Pop, Stop};
use model::fault::DrawFault;
use orders::walk::Walk;
use plans::complete::Complete;
use plans::table::Table;
use sources::cap::Cap;
use sources::filed::Filed;
use sources::listing::Listing;
use sources::seeded::Seeded;
use std::test::Fail;

const BLANK: Pop = Pop {
    vertex: 0,
    height: 0,
    length: 0,
};

#[test]
fn one_vertex(rt: HostRuntime) -> Result<(), Fail> {
    let plan = Complete::new(1, 0)?;
    let arrows = Seeded { seed: 7 };
    let mut draw = Draw::open(&plan, rt.alloc())?;
    let mut list = [BLANK; 1];
    let ran = draw.run(&plan, &arrows, &mut list, &mut Walk::new(), 5)?;
    assert!(rt; ran.0 == 0 && ran.1 == Stop::Ended);
    let stepped = draw.step(&plan, &arrows, &mut list, &mut Walk::new());
    assert_eq!(rt; stepped, Err(DrawFault::NothingOpen));
    let mut ports = [3];
    tree(&draw, &plan, &arrows, &mut ports)?;
    assert!(rt; ports == [65535]);
    Ok(())
}

// A unit that is cabled to itself alone is popped at every height below 4,096, and is dry then.
#[test]
fn the_last_height(rt: HostRuntime) -> Result<(), Fail> {
    let mut plan = Table::new(rt.alloc(), 2, 0)?;
    plan.link(1, 1)?;
    let arrows = Seeded { seed: 1 };
    let mut draw = Draw::open(&plan, rt.alloc())?;
    let mut list = Vec::new(rt.alloc());
    list.resize(4096, BLANK)?;
    let ran = draw.run(&plan, &arrows, list.as_mut_slice(), &mut Walk::new(), 9999)?;
    assert!(rt; ran.0 == 4097 && ran.1 == Stop::Ended);
    assert_eq!(rt; draw.pops(), 4096);
    assert_eq!(rt;
        list.last().copied(),
        Some(Pop {
            vertex: 1,
            height: 4095,
            length: 1,
        })
    );
    let mut ports = [0; 2];
    assert_eq!(rt;
        tree(&draw, &plan, &arrows, &mut ports),
        Err(DrawFault::Dry(1))
    );
    assert!(rt; ports == [0, 0]);
    Ok(())
}

// With no room a run stops as full, a step is refused, and the order is told nothing; with no budget it is spent.
#[test]
fn no_room_and_no_budget(rt: HostRuntime) -> Result<(), Fail> {
    let plan = Complete::new(3, 0)?;
    let ports = [1, 1, 1, 1].to_vec(rt.alloc())?;
    let arrows = Filed {
        listing: Listing::of(&plan, 2),
        ports,
    };
    let mut draw = Draw::open(&plan, rt.alloc())?;
    let mut walk = Walk::new();
    let full = draw.run(&plan, &arrows, &mut [], &mut walk, 3)?;
    assert!(rt; full.0 == 0 && full.1 == Stop::Full);
    let stepped = draw.step(&plan, &arrows, &mut [], &mut walk);
    assert_eq!(rt; stepped, Err(DrawFault::ListFull));
    let mut list = [BLANK; 4];
    let spent = draw.run(&plan, &arrows, &mut list, &mut walk, 0)?;
    assert!(rt; spent.0 == 0 && spent.1 == Stop::Spent);
    let ran = draw.run(&plan, &arrows, &mut list, &mut walk, 9)?;
    assert!(rt; ran.0 == 4 && ran.1 == Stop::Ended);
    assert_eq!(rt; draw.pops(), 2);
    let mut buffer = [5; 3];
    assert_eq!(rt;
        tree(&draw, &plan, &arrows, &mut buffer),
        Err(DrawFault::Dry(1))
    );
    Ok(())
}

#[test]
fn another_plan(rt: HostRuntime) -> Result<(), Fail> {
    let plan = Complete::new(3, 0)?;
    let other = Complete::new(3, 1)?;
    let below = Seeded { seed: 3 };
    let arrows = Cap { depth: 9, below };
    let mut draw = Draw::open(&plan, rt.alloc())?;
    let mut list = [BLANK; 4];
    let tried = draw.try_at(&other, &arrows, &mut list, 9);
    assert_eq!(rt; tried, Err(DrawFault::OtherPlan));
    let ran = draw.run(&other, &arrows, &mut list, &mut Walk::new(), 9);
    assert!(rt; ran == Err(DrawFault::OtherPlan));
    assert_eq!(rt;
        tree(&draw, &other, &arrows, &mut []),
        Err(DrawFault::OtherPlan)
    );
    assert_eq!(rt; tree(&draw, &plan, &arrows, &mut []), Err(DrawFault::Short));
    let mut ports = [0; 3];
    assert_eq!(rt;
        tree(&draw, &plan, &arrows, &mut ports),
        Err(DrawFault::StillOpen)
    );
    Ok(())
}
