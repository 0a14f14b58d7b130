// A sheet line by line.
ghost use Rattle.std.specs.Prelude.{◌≡◌, IfOk, string_bytes, MatchResult};
ghost use Rattle.commands.specs.declared.scope.Scope.TheVariants.{Halls};
ghost use Rattle.sheet.specs.Sheets.{fresh, sheet_of, Took, Lost, last_text, closed, went_well};

use super::Sheet;
use crate::line::{Outcome, Reply, do_line, due_lines, due_outcome};
use commands::scope::Scope;
use session::session::Session;
use std::alloc::{AllocError, Global};

impl Sheet {
    pub fn new(scope: Scope) -> Sheet
        ensures { sheet_of result ≡ fresh scope }
    {
        Sheet {
            scope,
            session: Session::new(),
            lines: 0,
            worst: Outcome::Fine,
        }
    }

    // Does the next line, and words what is written for it.
    pub fn line(&mut self, heap: Global, line: &[u8]) -> Result<String, AllocError>
        ensures { MatchResult result (λ s. Took (sheet_of self.old) line.now (string_bytes s) (sheet_of self.new)) (λ _. Lost (sheet_of self.old) line.now (sheet_of self.new)) }
    {
        let number = self.lines.saturating_add(1);
        self.lines = number;
        let Reply { text, outcome } = do_line(&mut self.session, heap, self.scope, number, line)?;
        self.worst = self.worst.max(outcome);
        Ok(text)
    }

    // Words what is still due when there are no more lines, and keeps how it went. A sheet of halls goes no worse by it.
    pub fn end(&mut self, heap: Global) -> Result<String, AllocError>
        ensures text { IfOk result (λ s. string_bytes s ≡ last_text (sheet_of self.old)) }
        ensures after { sheet_of self.new ≡ closed (sheet_of self.old) }
        ensures halls { (sheet_of self.old).scope ≡ Halls → (sheet_of self.new).worst ≡ (sheet_of self.old).worst }
    {
        let due = self.session.close();
        self.worst = self.worst.max(due_outcome(due));
        due_lines(heap, due)
    }

    // Whether there was no bad line. A refusal is an answer like any other, unless `strict`, where it counts too.
    pub fn went_well(&self, strict: bool) -> bool
        ensures { result ≡ went_well strict (sheet_of self.now) }
    {
        match self.worst {
            Outcome::Fine => true,
            Outcome::Refused => !strict,
            Outcome::Bad => false,
        }
    }
}
