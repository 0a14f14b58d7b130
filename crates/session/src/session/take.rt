// Doing a command.
ghost use Rattle.std.specs.Prelude.{◌≡◌};
ghost use Rattle.commands.specs.Answers.{asked};
ghost use Rattle.session.specs.Desks.{desk_of, Takes};
ghost use Rattle.session.specs.Said.{said_so};

use super::Session;
use crate::answer::{Answer, Refusal};
use commands::command::Command;
use orders::any::AnyOrder;
use orders::filed::FiledOrder;
use orders::walk::Walk;
use std::alloc::Global;

impl Session {
    // Does the command that stands at this line. Where it is refused or out of place, nothing changes.
    pub fn take(&mut self, heap: Global, line: usize, command: Command) -> Result<Answer, Refusal>
        ensures { Takes (desk_of self.old) line (asked command) (said_so result) (desk_of self.new) }
    {
        match command {
            Command::Complete { size, root } => self.complete(size, root),
            Command::Table { size, root } => self.table(heap, size, root),
            Command::Link { from, to } => self.link(from, to),
            Command::Check { ports } => self.check(ports.as_slice()),
            Command::Filed { depth, ports } => self.filed(line, depth, ports),
            Command::Cells { ports } => self.cells(ports.as_slice()),
            Command::Seeded { seed, depth } => self.seeded(seed, depth),
            Command::Room { records } => Ok(self.make_room(records)),
            Command::Open => self.open(heap),
            Command::Walk => self.set_order(AnyOrder::Walk(Walk::new())),
            Command::Listed { vertices } => {
                self.set_order(AnyOrder::Listed(FiledOrder::new(vertices)))
            }
            Command::Try { vertex } => self.try_at(vertex),
            Command::Step => self.step(),
            Command::Run { budget } => self.run(budget),
            Command::Heights => self.heights(heap),
            Command::OpenVertices => self.open_vertices(heap),
            Command::Records => self.records(heap),
            Command::Tree => self.tree(heap),
            Command::Reseat { ports } => self.reseat(heap, ports.as_slice()),
            Command::Help { scope } => Ok(Answer::Commands { scope }),
        }
    }
}
