// Plans and arrows.
ghost use Rattle.std.specs.Prelude.{◌≡◌, Ok};
ghost use Rattle.commands.specs.Answers.{asked};
ghost use Rattle.session.specs.Desks.{desk_of, bare, closes, before, goes_on, place_of, new_plan, begins_complete, BeginsTable, adds_link, checks, takes_seed, makes_room};
ghost use Rattle.session.specs.Said.{said, said_so};

use super::Session;
use crate::answer::{Answer, Due, Misplaced, Refusal};
use crate::hall::Hall;
use commands::command::Command;
use plans::any::AnyPlan;
use plans::complete::Complete;
use plans::table::Table;
use sources::any::AnyArrows;
use sources::cap::Cap;
use sources::depth::check_depth;
use sources::seeded::Seeded;
use std::alloc::Global;
use std::mem;
use trees::check::check_tree;

// A filing of records holds no more.
const ROOM: u16 = 4096;

// Whether the command goes on with what is under way in the hall.
fn goes_on(command: &Command, hall: &Hall) -> bool
    ensures { result ≡ goes_on (asked command.now) (place_of hall.now) }
{
    match command {
        Command::Link { .. } => matches!(hall, Hall::Linking(_)),
        Command::Cells { .. } => matches!(hall, Hall::Planned(_, Some(_))),
        _ => false,
    }
}

impl Session {
    pub fn new() -> Session
        ensures { desk_of result ≡ bare }
    {
        Session {
            hall: Hall::Empty,
            arrows: None,
            running: None,
            room: ROOM,
        }
    }

    // Ends the links of a table, or filed arrows that lack cells. What that makes due is to be written.
    pub fn close(&mut self) -> Option<Due>
        ensures { (result, desk_of self.new) ≡ closes (desk_of self.old) }
    {
        let (due, hall) = mem::replace(&mut self.hall, Hall::Empty).closed();
        self.hall = hall;
        due
    }

    // What is due before the command is done.
    pub fn before(&mut self, command: &Command) -> Option<Due>
        ensures { (result, desk_of self.new) ≡ before (asked command.now) (desk_of self.old) }
    {
        if goes_on(command, &self.hall) {
            None
        } else {
            self.close()
        }
    }

    // Another plan stands in the place of arrows and draw too.
    fn put(&mut self, hall: Hall)
        ensures { desk_of self.new ≡ new_plan (desk_of self.old) (place_of hall) }
    {
        self.hall = hall;
        self.arrows = None;
        self.running = None;
    }

    pub(crate) fn complete(&mut self, size: u16, root: u16) -> Result<Answer, Refusal>
        ensures { (said_so result, desk_of self.new) ≡ begins_complete (desk_of self.old) size root }
    {
        let plan = Complete::new(size, root)?;
        self.put(Hall::Planned(AnyPlan::Complete(plan), None));
        Ok(Answer::Complete { size, root })
    }

    pub(crate) fn table(&mut self, heap: Global, size: u16, root: u16) -> Result<Answer, Refusal>
        ensures { BeginsTable (desk_of self.old) size root (said_so result) (desk_of self.new) }
    {
        let table = Table::new(heap, size, root)?;
        self.put(Hall::Linking(table));
        Ok(Answer::Silent)
    }

    pub(crate) fn link(&mut self, from: u16, to: u16) -> Result<Answer, Refusal>
        ensures { (said_so result, desk_of self.new) ≡ adds_link (desk_of self.old) from to }
    {
        let Hall::Linking(table) = &mut self.hall else {
            return Err(Misplaced::NoTable.into());
        };
        table.link(from, to)?;
        Ok(Answer::Silent)
    }

    pub(crate) fn check(&self, ports: &[u16]) -> Result<Answer, Refusal>
        ensures { (said_so result, desk_of self.now) ≡ checks (desk_of self.now) ports.now }
    {
        let plan = self.hall.plan().ok_or(Misplaced::NoPlan)?;
        Ok(Answer::Checked(check_tree(plan, ports)?))
    }

    pub(crate) fn seeded(&mut self, seed: u64, depth: u16) -> Result<Answer, Refusal>
        ensures { (said_so result, desk_of self.new) ≡ takes_seed (desk_of self.old) seed depth }
    {
        self.hall.plan().ok_or(Misplaced::NoPlan)?;
        check_depth(depth)?;
        let below = Seeded { seed };
        self.arrows = Some(AnyArrows::Seeded(Cap { depth, below }));
        self.running = None;
        Ok(Answer::Seeded { seed, depth })
    }

    pub(crate) fn make_room(&mut self, records: u16) -> Answer
        ensures { (Ok (said result), desk_of self.new) ≡ makes_room (desk_of self.old) records }
    {
        self.room = records;
        Answer::Silent
    }
}
