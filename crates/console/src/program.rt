// Reads a sheet and writes its answers.
ghost use Rattle.std.specs.Prelude.{◌≡◌, ◌≤◌, if◌then◌else◌, IfOk};
ghost use Rattle.std.specs.Process.{exit_status};
ghost use Rattle.sheet.specs.Sheets.{closed, sheet_of, went_well};

use commands::scope::Scope;
use sheet::whole::Sheet;
use std::alloc::Global;
use std::env;
use std::io::{BufRead, BufReader};
use std::process::ExitCode;

// What went wrong stands among the answers.
fn status(well: bool) -> ExitCode
    ensures { exit_status result ≡ (if well then 0 else 1) }
{
    if well {
        ExitCode::SUCCESS
    } else {
        ExitCode::FAILURE
    }
}

// Writes what is still due. The status says how the sheet went.
fn end(rt: &HostRuntime, heap: Global, mut sheet: Sheet, strict: bool) -> anyhow::Result<ExitCode>
    ensures { IfOk result (λ code. exit_status code ≡ (if went_well strict (closed (sheet_of sheet)) then 0 else 1)) }
{
    rt.print(sheet.end(heap)?.as_str())?;
    Ok(status(sheet.went_well(strict)))
}

// Does the lines of standard input as they come.
fn do_sheet(rt: &HostRuntime, heap: Global, scope: Scope) -> anyhow::Result<Sheet> {
    let mut sheet = Sheet::new(scope);
    for line in BufReader::new(heap, rt.stdin())?.split(heap, b'\n') {
        rt.print(sheet.line(heap, line?.as_slice())?.as_str())?;
    }
    Ok(sheet)
}

// Does a single command.
fn do_command(rt: &HostRuntime, heap: Global, scope: Scope, line: &[u8]) -> anyhow::Result<Sheet> {
    let mut sheet = Sheet::new(scope);
    rt.print(sheet.line(heap, line)?.as_str())?;
    Ok(sheet)
}

// The words of the command line as one line.
fn given_line(rt: &HostRuntime, heap: Global) -> anyhow::Result<String> {
    let mut line = String::new(heap);
    for word in env::args(rt)?.skip(1) {
        line.push_str(word.as_str())?;
        line.push(' ')?;
    }
    Ok(line)
}

// The status says of a sheet whether no line was bad, and of a single command whether it was done.
fn done(rt: &HostRuntime, scope: Scope) -> anyhow::Result<ExitCode>
    ensures { IfOk result (λ code. exit_status code ≤ 1) }
{
    let heap = rt.alloc();
    let line = given_line(rt, heap)?;
    if line.is_empty() {
        end(rt, heap, do_sheet(rt, heap, scope)?, false)
    } else {
        end(
            rt,
            heap,
            do_command(rt, heap, scope, line.as_bytes())?,
            true,
        )
    }
}

// Does the command on the command line, or where there is none the sheet on standard input.
// An error is told under the program's name.
pub fn run(rt: &HostRuntime, scope: Scope, program: &str) -> ExitCode
    ensures { exit_status result ≤ 1 }
{
    match done(rt, scope) {
        Ok(code) => code,
        Err(e) => {
            // Where not even this can be written, the status alone tells it.
            let _ = eprintln!(rt; "{program}: {e}");
            status(false)
        }
    }
}
