// Ports from lists and from seeds.
use model::fault::DrawFault;
use model::source::ArrowSource;
use sources::cap::Cap;
use sources::depth::check_depth;
use sources::filed::Filed;
use sources::listing::Listing;
use sources::seeded::Seeded;
use std::test::Fail;

// Three vertices, the root in the middle.
const THREE: Listing = Listing {
    size: 3,
    root: 1,
    depth: 2,
};

// The list ends one port early.
#[test]
fn filed_places(rt: HostRuntime) -> Result<(), Fail> {
    let ports = Vec::from_slice(rt.alloc(), &[10, 11, 12])?;
    let filed = Filed {
        listing: THREE,
        ports,
    };
    for (v, index, port) in [
        (0, 0, Some(10)),
        (0, 1, Some(11)),
        (0, 2, None),
        (1, 0, None),
        (2, 0, Some(12)),
        (2, 1, None),
        (3, 0, None),
    ] {
        assert_eq!(rt; filed.port(v, index, 4), port);
    }
    assert_eq!(rt; filed.port(2, 0, 0), Some(12));
    Ok(())
}

// The same list, lent.
#[test]
fn lent_places(rt: HostRuntime) {
    let lent = Filed {
        listing: THREE,
        ports: &[10, 11, 12][..],
    };
    for (v, index, port) in [
        (0, 1, Some(11)),
        (1, 0, None),
        (2, 0, Some(12)),
        (2, 1, None),
    ] {
        assert_eq!(rt; lent.port(v, index, 4), port);
    }
}

#[test]
fn depth_limits(rt: HostRuntime) {
    for (size, depth, fault) in [
        (1, 0, Some(DrawFault::Limit)),
        (1, 4096, None),
        (1, 4097, Some(DrawFault::Limit)),
        (3, 2048, None),
        (3, 2049, Some(DrawFault::Limit)),
        (1024, 4, None),
        (1024, 5, Some(DrawFault::Limit)),
    ] {
        assert_eq!(rt;
            Listing {
                size,
                root: 0,
                depth
            }
            .check()
            .err(),
            fault
        );
    }
    assert_eq!(rt; check_depth(4096), Ok(()));
}

// The words of seed 0 at vertex 0 are E220A8397B1DCDAF, 6E789E6AA1B965F4 and 06C45D188009454F.
#[test]
fn seeded_words(rt: HostRuntime) {
    let zero = Seeded { seed: 0 };
    for (index, degree, port) in [
        (0, 4, 3),
        (1, 4, 0),
        (2, 4, 3),
        (0, 65535, 54055),
        (1, 65535, 5265),
        (2, 65535, 10549),
    ] {
        assert_eq!(rt; zero.port(0, index, degree), Some(port));
    }
}

#[test]
fn seeded_limits(rt: HostRuntime) {
    let most = Seeded { seed: u64::MAX };
    for (v, index, degree, port) in [
        (1023, 4095, 1023, Some(14)),
        (1024, 4095, 1023, None),
        (1023, 4096, 1023, None),
        (1023, 4095, 0, None),
    ] {
        assert_eq!(rt; most.port(v, index, degree), port);
    }
}

#[test]
fn capped_at_two(rt: HostRuntime) {
    let cap = Cap {
        depth: 2,
        below: Seeded { seed: 0 },
    };
    for (index, port) in [(0, Some(3)), (1, Some(0)), (2, None)] {
        assert_eq!(rt; cap.port(0, index, 4), port);
    }
    assert_eq!(rt; cap.port(0, 1, 4), Some(0));
}
