//! How a thread reads the field that an owner points at.
ghost use Rattle.std.specs.Prelude.{◌≡◌, ◌<◌, Some, None};
ghost use Rattle.step_threads.specs.Rows.{outside};
ghost use Rattle.step_threads.specs.declared.programs.act.Act.{Act};

use crate::said::{Answer, Said, Stepped};
use crate::thread::Thread;
use control_word::Refusal;
use control_word::place::Place;
use step_table::memory::table::Table;

impl Thread {
    ghost use Rattle.step_threads.specs.Frames.{task_at};
    ghost use Rattle.step_threads.specs.Threads.{BeginsAct, FitsThread, HasStepped};

    /// Tells the field that a name points at. It touches no word where that isn't in the object that the name owns.
    pub(crate) fn read(&mut self, desk: usize, table: &mut Table, name: u8) -> Stepped
        requires begins { BeginsAct desk self.old table.old }
        requires act { (task_at self.old.frame).act ≡ Act.Read name }
        ensures stepped { HasStepped desk self.old table.old result self.new table.new }
        ensures fits { FitsThread desk self.new table.new }
    {
        table.assert_invariant();
        let statement = self.frame.statement();
        let from = usize::from(name);
        let Some(pointer) = self.frame.registers.inside(from) else {
            let answer = outside(self.frame.registers.place(from));
            self.frame.go_on();
            return Stepped::Quiet(tells(statement, answer));
        };
        let value = self.frame.registers.read(desk, table, from, pointer);
        self.frame.go_on();
        Stepped::Event(tells(statement, Answer::Read(value)))
    }
}

/// Why a pointer with this place, which isn't in its object, is refused.
pub(crate) fn outside(place: Option<Place>) -> Answer
    ensures { result ≡ outside place }
{
    match place {
        None => Answer::Refused(Refusal::Null),
        Some(_) => Answer::Refused(Refusal::Outside),
    }
}

/// What a step says that answers.
pub(crate) fn tells(statement: u32, answer: Answer) -> Said
    ensures { result ≡ record { statement = statement; answer = Some answer; ended = None } }
{
    Said {
        statement,
        answer: Some(answer),
        ended: None,
    }
}
