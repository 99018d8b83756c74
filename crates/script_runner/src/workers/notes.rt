//! What a worker notes of its acts: lines, and what it adds to its share.
ghost use Rattle.std.specs.Prelude.{◌≡◌, ◌⊎◌, ◌<◌, ◌≤◌, ◌-◌, ◌++◌, ◌||◌};
ghost use Rattle.std.specs.Prelude.{true, false, []};
ghost use Rattle.std.specs.Prelude.{is_some, length, None, Some, vec_capacity, vec_len};
ghost use Rattle.step_threads.specs.declared.said.Answer.TheVariants as says;
ghost use Rattle.script_runner.specs.Logs.{told_line};
ghost use Rattle.script_runner.specs.Notes.{Notes};
ghost use Rattle.script_runner.specs.Totals.{objects_asked as asks_for, refuses as says_full};

use crate::reports::totals::{asks, refuses};
use crate::workers::log::Log;
use step_core::{Answer, Ended, Said};
use step_threads::programs::act::Act;

/// What a statement says.
fn said_of(statement: u32, answer: Option<Answer>, ended: Option<Ended>) -> Said
    ensures { result ≡ record { statement = statement; answer = answer; ended = ended } }
{
    Said {
        statement,
        answer,
        ended,
    }
}

/// Whether there is something to say.
fn tells(said: Said) -> bool
    ensures { result ≡ (is_some said.answer || is_some said.ended) }
{
    said.answer.is_some() || said.ended.is_some()
}

impl<'a> Log<'a> {
    /// Whether there is room for one more line, and for one more in the share.
    fn has_room(&self) -> bool
        ensures room { result ≡ true → (vec_len self.now.said < vec_capacity self.now.said) × (0 < self.now.room) }
        ensures none { result ≡ false
            → (vec_capacity self.now.said ≤ length self.now.said.items) ⊎ (self.now.room ≤ 0) }
    {
        if self.said.len() >= self.said.capacity() {
            return false;
        }
        self.room > 0
    }

    /// An object that was made is added to the share: the act asked for one, and its answer isn't that there is no
    /// block.
    pub(crate) fn add_made(&mut self, act: Act, answer: Option<Answer>)
        requires { says_full answer ≤ asks_for act }
        ensures notes { Notes self.old self.new (asks_for act - says_full answer) [] }
        ensures taken { self.new.taken ≡ self.old.taken }
        ensures book { self.new.share.book ≡ self.old.share.book }
    {
        if self.full {
            return;
        }
        if asks(act) == refuses(answer) {
            return;
        }
        if self.room == 0 {
            self.full = true;
            return;
        }
        self.book.add_made(&mut self.share);
        self.room -= 1;
    }

    /// The next of its lines, where there is something to say; and an object that ends by it is added to the share.
    pub(crate) fn note(&mut self, statement: u32, answer: Option<Answer>, ended: Option<Ended>)
        ensures notes { Notes self.old self.new (says_full answer)
            (told_line (record { statement = statement; answer = answer; ended = ended })) }
        ensures taken { self.new.taken ≡ self.old.taken }
        ensures book { self.new.share.book ≡ self.old.share.book }
    {
        if self.full {
            return;
        }
        let said = said_of(statement, answer, ended);
        if !tells(said) {
            return;
        }
        if !self.has_room() {
            self.full = true;
            return;
        }
        self.said.push_reserved(said);
        if ended.is_none() {
            return;
        }
        self.book.add_ended(&mut self.share);
        self.room -= 1;
    }

    /// What a comparison answers, and what it tells of an object that is to end.
    pub(crate) fn note_compared(&mut self, statement: u32, swapped: bool, ended: Option<Ended>)
        ensures notes { Notes self.old self.new 0
            (told_line (record { statement = statement; answer = Some (says.Compared swapped); ended = None })
            ++ told_line (record { statement = statement; answer = None; ended = ended })) }
        ensures taken { self.new.taken ≡ self.old.taken }
        ensures book { self.new.share.book ≡ self.old.share.book }
    {
        self.note(statement, Some(Answer::Compared(swapped)), None);
        self.note(statement, None, ended);
    }
}
