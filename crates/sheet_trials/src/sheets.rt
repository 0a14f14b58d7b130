// Bad lines, and what is due at a table's end.
use commands::scope::Scope;
use sheet::whole::Sheet;
use std::alloc::Global;
use std::process::Abort;
use std::test::*;

fn answers(
    rt: &impl Abort,
    sheet: &mut Sheet,
    heap: Global,
    line: &str,
    text: &str,
) -> Result<(), Fail> {
    assert_eq!(rt; sheet.line(heap, line.as_bytes())?.as_str(), text);
    Ok(())
}

// Does the lines in turn, each of which must be answered as it says, and ends the sheet.
fn answers_all(
    rt: &(impl Abort + AllocGlobal),
    scope: Scope,
    cases: &[(&str, &str)],
    last: &str,
) -> Result<Sheet, Fail> {
    let heap = rt.alloc();
    let mut sheet = Sheet::new(scope);
    for (line, text) in cases {
        answers(rt, &mut sheet, heap, line, text)?;
    }
    assert_eq!(rt; sheet.end(heap)?.as_str(), last);
    Ok(sheet)
}

#[test]
fn bad_lines(rt: HostRuntime) -> Result<(), Fail> {
    let cases = [
        ("drain 3", "line 1: no such command\n"),
        ("  # only a comment", ""),
        ("complete 3 root", "line 3: wrong number of words\n"),
        ("table 3 rood 0", "line 4: the word `root` is missing\n"),
        (
            "complete 65536 root 0",
            "line 5: a number is wrong or too large\n",
        ),
        ("check -", "line 6: there is no plan yet\n"),
        ("link 0 1", "line 7: a link follows its table\n"),
        ("complete 01 root 0", "plan complete 1 root 0\n"),
        ("check - 5 65535", "tree\n"),
    ];
    for scope in [Scope::Halls, Scope::Draws] {
        let sheet = answers_all(&rt, scope, &cases, "")?;
        assert!(rt; !sheet.went_well(false));
    }
    Ok(())
}

#[test]
fn tables_end(rt: HostRuntime) -> Result<(), Fail> {
    let cases = [
        ("table 2 root 0", ""),
        ("link 1", "line 2: wrong number of words\n"),
        ("link 1 0", ""),
        ("link 0 1", "refused 5 draw 0\n"),
        ("check - 0", "plan table 2 root 0 links 1\ntree\n"),
        ("link 1 1", "line 6: a link follows its table\n"),
        ("table 1 root 0", ""),
    ];
    for scope in [Scope::Halls, Scope::Draws] {
        let sheet = answers_all(&rt, scope, &cases, "plan table 1 root 0 links 0\n")?;
        assert!(rt; !sheet.went_well(false));
    }
    Ok(())
}

#[test]
fn cells_are_counted(rt: HostRuntime) -> Result<(), Fail> {
    let cases = [
        ("filed 2 0", "line 1: there is no plan yet\n"),
        ("complete 3 root 0", "plan complete 3 root 0\n"),
        (
            "cells 0",
            "line 3: cells follow filed arrows that lack some\n",
        ),
        ("open", "line 4: there are no arrows yet\n"),
        ("filed 2 1 0", ""),
        ("cells 1 1 1", "line 6: there are too many cells\n"),
        ("cells 1", ""),
        (
            "step",
            "line 5: there are too few cells\nline 8: there is no draw yet\n",
        ),
        ("filed 2", ""),
        ("cells 1 0 1 1", "arrows filed 2\n"),
        ("seeded Ff dept 3", "line 11: the word `depth` is missing\n"),
        ("seeded 0Ff depth 3", "arrows seeded ff depth 3\n"),
        ("open", "opened 3 root 0\n"),
        (
            "reseat - 0 0",
            "line 14: only filed arrows can be reseated\n",
        ),
        ("filed 2 0", ""),
    ];
    let sheet = answers_all(
        &rt,
        Scope::Draws,
        &cases,
        "line 15: there are too few cells\n",
    )?;
    assert!(rt; !sheet.went_well(false));
    Ok(())
}

#[test]
fn refusals_are_answers(rt: HostRuntime) -> Result<(), Fail> {
    let cases = [("complete 0 root 0", "refused 4 draw 0\n")];
    for scope in [Scope::Halls, Scope::Draws] {
        let sheet = answers_all(&rt, scope, &cases, "")?;
        assert!(rt; sheet.went_well(false) && !sheet.went_well(true));
    }
    Ok(())
}

// A sheet of halls alone knows no command on arrows or draws.
#[test]
fn halls_have_no_draws(rt: HostRuntime) -> Result<(), Fail> {
    let cases = [
        ("complete 1 root 0", "plan complete 1 root 0\n"),
        ("filed 1", "line 2: no such command\n"),
        ("open", "line 3: no such command\n"),
        ("open?", "line 4: no such command\n"),
        ("check -", "tree\n"),
    ];
    let sheet = answers_all(&rt, Scope::Halls, &cases, "")?;
    assert!(rt; !sheet.went_well(false));
    Ok(())
}
