// How the values of the vocabulary are printed.
use model::draw::{Pop, Stop, Tried};
use model::fault::{DrawFault, Layer};
use model::tree::TreeCheck;
use std::test::Fail;

#[test]
fn faults_and_layers(rt: HostRuntime) -> Result<(), Fail> {
    for (fault, text) in [
        (DrawFault::Link, "5 draw 0"),
        (DrawFault::Dry(1023), "26 draw 1023"),
    ] {
        assert_eq!(rt; format!(in rt.alloc(); "{fault}")?.as_str(), text);
    }
    for (layer, text) in [
        (Layer::Record, "record"),
        (Layer::Filing, "filing"),
        (Layer::Draw, "draw"),
    ] {
        assert_eq!(rt; format!(in rt.alloc(); "{layer}")?.as_str(), text);
    }
    Ok(())
}

#[test]
fn tree_checks(rt: HostRuntime) -> Result<(), Fail> {
    for (check, text) in [
        (TreeCheck::Tree, "tree"),
        (TreeCheck::Lost(7), "no tree: 7 does not reach the root"),
    ] {
        assert_eq!(rt; format!(in rt.alloc(); "{check}")?.as_str(), text);
    }
    Ok(())
}

#[test]
fn tries_and_stops(rt: HostRuntime) -> Result<(), Fail> {
    let pop = Pop {
        vertex: 1,
        height: 0,
        length: 2,
    };
    assert_eq!(rt; format!(in rt.alloc(); "{pop}")?.as_str(), "1 0 2");
    for (tried, text) in [
        (Tried::Popped(pop), "popped 1 0 2"),
        (Tried::Settled(65535), "settled 65535"),
    ] {
        assert_eq!(rt; format!(in rt.alloc(); "{tried}")?.as_str(), text);
    }
    for (stop, text) in [
        (Stop::Ended, "ended"),
        (Stop::Spent, "spent"),
        (Stop::Full, "full"),
    ] {
        assert_eq!(rt; format!(in rt.alloc(); "{stop}")?.as_str(), text);
    }
    Ok(())
}
