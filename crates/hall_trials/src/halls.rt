// The limits of plans, met and passed.
use model::fault::DrawFault;
use model::plan::Plan;
use plans::any::AnyPlan;
use plans::complete::Complete;
use plans::table::{Link, Table};
use std::test::Fail;

#[test]
fn sizes_and_roots(rt: HostRuntime) {
    let limit = Some(DrawFault::Limit);
    let root = Some(DrawFault::Root);
    for (size, at, fault) in [
        (0, 0, limit),
        (1, 0, None),
        (1024, 1023, None),
        (1025, 1025, limit),
        (4, 4, root),
    ] {
        assert_eq!(rt; Complete::new(size, at).err(), fault);
        assert_eq!(rt; Table::new(rt.alloc(), size, at).err(), fault);
    }
}

#[test]
fn complete_ports(rt: HostRuntime) -> Result<(), Fail> {
    let four = Complete::new(4, 1)?;
    for (port, end) in [(0, Some(0)), (1, Some(1)), (2, Some(3)), (3, None)] {
        assert_eq!(rt; four.target(2, port), end);
    }
    let all = AnyPlan::Complete(Complete::new(1024, 0)?);
    assert_eq!(rt; all.target(0, 1022), Some(1023));
    Ok(())
}

#[test]
fn refused_links(rt: HostRuntime) -> Result<(), Fail> {
    let mut table = Table::new(rt.alloc(), 4, 1)?;
    let fault = Err(DrawFault::Link);
    for (from, to, answer) in [
        (4, 0, fault),
        (2, 2, Ok(())),
        (2, 3, Ok(())),
        (2, 4, fault),
        (1, 0, fault),
    ] {
        assert_eq!(rt; table.link(from, to), answer);
    }
    let links = [Link { from: 2, to: 2 }, Link { from: 2, to: 3 }];
    assert_eq!(rt; table.links(), links.as_slice());
    for (port, end) in [(0, Some(2)), (1, Some(3)), (2, None)] {
        assert_eq!(rt; table.target(2, port), end);
    }
    assert_eq!(rt; AnyPlan::Table(table).degree(3), 0);
    Ok(())
}

#[test]
fn most_links(rt: HostRuntime) -> Result<(), Fail> {
    let mut table = Table::new(rt.alloc(), 1024, 0)?;
    for v in 0..4 {
        for w in 0..1023 {
            table.link(v, w)?;
        }
        assert_eq!(rt; table.link(v, 0), Err(DrawFault::Link));
    }
    for w in 0..4 {
        table.link(4, w)?;
    }
    assert_eq!(rt; table.link(2000, 2000), Err(DrawFault::Limit));
    assert_eq!(rt; table.links().len(), 4096);
    Ok(())
}
