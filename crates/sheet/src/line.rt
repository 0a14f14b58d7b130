// One line of a sheet, from its bytes to what is written.
ghost use Rattle.std.specs.Prelude.{◌≡◌, IfOk, string_bytes, MatchResult};
ghost use Rattle.commands.specs.Answers.{asked};
ghost use Rattle.commands.specs.Told.{told};
ghost use Rattle.session.specs.Desks.{desk_of};
ghost use Rattle.session.specs.Said.{said_so};
ghost use Rattle.session.specs.Texts.{line_text};
ghost use Rattle.sheet.specs.Lines.{due_lines, due_outcome, answered_text, answer_outcome, reply_of, Obeyed, SomeObeyed, Replied, Untold, shown};

use commands::command::{Command, Mistake, Unread, command_of};
use commands::scope::Scope;
use session::answer::{Answer, Due, Refusal};
use session::session::Session;
use std::alloc::{AllocError, Global};
use tokens::words::words;

// How a line went, from the best to the worst.
#[derive(Clone, Copy, PartialEq, Eq, PartialOrd, Ord, Debug)]
pub(crate) enum Outcome {
    Fine,
    Refused,
    // It is no command, it is out of place, or filed arrows before it lack cells.
    Bad,
}

#[derive(Drop)]
pub(crate) struct Reply {
    pub(crate) text: String,
    pub(crate) outcome: Outcome,
}

// What is due, if something is.
pub(crate) fn due_lines(heap: Global, due: Option<Due>) -> Result<String, AllocError>
    ensures { IfOk result (λ s. string_bytes s ≡ due_lines due) }
{
    match due {
        Some(due) => format!(in heap; "{due}"),
        None => Ok(String::new(heap)),
    }
}

// Filed arrows that lack cells are bad.
pub(crate) fn due_outcome(due: Option<Due>) -> Outcome
    ensures { result ≡ due_outcome due }
{
    match due {
        Some(Due::FewCells { .. }) => Outcome::Bad,
        _ => Outcome::Fine,
    }
}

fn answered_text(
    heap: Global,
    number: usize,
    answer: &Result<Answer, Refusal>,
) -> Result<String, AllocError>
    ensures { IfOk result (λ s. string_bytes s ≡ answered_text number (said_so answer.now)) }
{
    match answer {
        // Most lines of a table write nothing.
        Ok(Answer::Silent) => Ok(String::new(heap)),
        Ok(answer) => format!(in heap; "{answer}"),
        Err(Refusal::Misplaced(misplaced)) => format!(in heap; "line {number}: {misplaced}\n"),
        Err(Refusal::Fault(fault)) => format!(in heap; "refused {fault}\n"),
    }
}

fn answer_outcome(answer: &Result<Answer, Refusal>) -> Outcome
    ensures { result ≡ answer_outcome (said_so answer.now) }
{
    match answer {
        Ok(_) => Outcome::Fine,
        Err(Refusal::Fault(_)) => Outcome::Refused,
        Err(Refusal::Misplaced(_)) => Outcome::Bad,
    }
}

// What is due, and then the answer.
fn worded(
    heap: Global,
    number: usize,
    due: Option<Due>,
    answer: &Result<Answer, Refusal>,
) -> Result<Reply, AllocError>
    ensures { IfOk result (λ a. shown a ≡ reply_of number due (said_so answer.now)) }
{
    let mut text = due_lines(heap, due)?;
    text.push_str(answered_text(heap, number, answer)?.as_str())?;
    let outcome = due_outcome(due).max(answer_outcome(answer));
    Ok(Reply { text, outcome })
}

fn obey(
    session: &mut Session,
    heap: Global,
    number: usize,
    command: Command,
) -> Result<Reply, AllocError>
    ensures { MatchResult result (λ a. Obeyed (desk_of session.old) number (asked command) (shown a) (desk_of session.new)) (λ _. SomeObeyed (desk_of session.old) number (asked command) (desk_of session.new)) }
{
    let due = session.before(&command);
    let answer = session.take(heap, number, command);
    worded(heap, number, due, &answer)
}

fn mistake_text(heap: Global, number: usize, mistake: Mistake) -> Result<String, AllocError>
    ensures { IfOk result (λ s. string_bytes s ≡ line_text number (told mistake)) }
{
    format!(in heap; "line {number}: {mistake}\n")
}

// Does the line and words what is written for it. Where it fails for want of memory, the sheet cannot go on.
pub(crate) fn do_line(
    session: &mut Session,
    heap: Global,
    scope: Scope,
    number: usize,
    line: &[u8],
) -> Result<Reply, AllocError>
    ensures { MatchResult result (λ a. Replied scope (desk_of session.old) number line.now (shown a) (desk_of session.new)) (λ _. Untold scope (desk_of session.old) number line.now (desk_of session.new)) }
{
    let words = words(heap, line)?;
    if words.is_empty() {
        return Ok(Reply {
            text: String::new(heap),
            outcome: Outcome::Fine,
        });
    }
    match command_of(heap, scope, words.as_slice()) {
        Ok(command) => obey(session, heap, number, command),
        Err(Unread::Mistake(mistake)) => Ok(Reply {
            text: mistake_text(heap, number, mistake)?,
            outcome: Outcome::Bad,
        }),
        Err(Unread::NoMemory(full)) => Err(full),
    }
}
