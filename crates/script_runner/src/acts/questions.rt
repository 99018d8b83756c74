//! Acts that only tell something.
ghost use Rattle.std.specs.Prelude.{◌≡◌, ◌<◌, ◌+◌};
ghost use Rattle.control_word.specs.declared.model.handle.Kind.{Kind};
ghost use Rattle.control_word.specs.declared.model.handle.Kind.TheVariants.{Owner, Weak};
ghost use Rattle.step_threads.specs.declared.programs.act.Act.TheVariants as act;
ghost use Rattle.step_threads.specs.declared.programs.act.Question.TheVariants as question;
ghost use Rattle.script_runner.specs.Asked.{AsksBelow, HasAsked};
ghost use Rattle.script_runner.specs.Deals.{IsActed};
ghost use Rattle.script_runner.specs.Kinds.{HasKind};
ghost use Rattle.script_runner.specs.Seats.{IsSeated};

use crate::acts::act_result::ActResult;
use crate::table::{Home, WorkerTable};
use step_core::Answer;
use step_threads::programs::act::Question;

/// How many owners the object of a name has.
pub(crate) fn count<H: Home>(
    table: &mut WorkerTable<'_, u64, H>,
    hand: usize,
    taken: bool,
    name: u8,
) -> ActResult
    requires seated { IsSeated (hand + 1) hand table.old }
    requires name { name < hand }
    requires kind { (k : Kind) × HasKind table.old.slots name k }
    ensures acts { IsActed hand table.old taken (act.Count name) result table.new }
    ensures taken { result.taken ≡ taken }
    ensures same { table.new.slots ≡ table.old.slots }
{
    let owners = table.use_count(usize::from(name));
    ActResult {
        taken,
        answer: Some(Answer::Count(owners)),
        ended: None,
    }
}

/// Whether the object of a weak name has no owner.
pub(crate) fn expire<H: Home>(
    table: &mut WorkerTable<'_, u64, H>,
    hand: usize,
    taken: bool,
    name: u8,
) -> ActResult
    requires seated { IsSeated (hand + 1) hand table.old }
    requires name { name < hand }
    requires kind { HasKind table.old.slots name Weak }
    ensures acts { IsActed hand table.old taken (act.Expired name) result table.new }
    ensures taken { result.taken ≡ taken }
    ensures same { table.new.slots ≡ table.old.slots }
{
    let expired = table.expired(usize::from(name));
    ActResult {
        taken,
        answer: Some(Answer::Expired(expired)),
        ended: None,
    }
}

/// The field that a name points at.
pub(crate) fn read<H: Home>(
    table: &mut WorkerTable<'_, u64, H>,
    hand: usize,
    taken: bool,
    name: u8,
) -> ActResult
    requires seated { IsSeated (hand + 1) hand table.old }
    requires name { name < hand }
    requires kind { HasKind table.old.slots name Owner }
    ensures acts { IsActed hand table.old taken (act.Read name) result table.new }
    ensures taken { result.taken ≡ taken }
    ensures same { table.new.slots ≡ table.old.slots }
{
    match table.read(usize::from(name)) {
        Ok(field) => ActResult {
            taken,
            answer: Some(Answer::Read(field)),
            ended: None,
        },
        Err(why) => ActResult {
            taken,
            answer: Some(Answer::Refused(why)),
            ended: None,
        },
    }
}

/// What the pointers of names tell.
pub(crate) fn ask<H: Home>(
    table: &mut WorkerTable<'_, u64, H>,
    hand: usize,
    taken: bool,
    question: Question,
) -> ActResult
    requires seated { IsSeated (hand + 1) hand table.old }
    requires names { AsksBelow hand question }
    requires kinds { HasAsked table.old.slots question }
    ensures acts { IsActed hand table.old taken (act.Ask question) result table.new }
    ensures taken { result.taken ≡ taken }
    ensures same { table.new.slots ≡ table.old.slots }
{
    match question {
        Question::Place { name } => place(table, hand, taken, name),
        Question::Same { first, second } => same(table, hand, taken, first, second),
        Question::Before { first, second } => before(table, hand, taken, first, second),
    }
}

/// Where a name points.
fn place<H: Home>(
    table: &mut WorkerTable<'_, u64, H>,
    hand: usize,
    taken: bool,
    name: u8,
) -> ActResult
    requires seated { IsSeated (hand + 1) hand table.old }
    requires name { name < hand }
    requires kind { HasKind table.old.slots name Owner }
    ensures acts { IsActed hand table.old taken (act.Ask (question.Place name)) result table.new }
    ensures taken { result.taken ≡ taken }
    ensures same { table.new.slots ≡ table.old.slots }
{
    let place = table.place(usize::from(name));
    ActResult {
        taken,
        answer: Some(Answer::Place(place)),
        ended: None,
    }
}

/// Whether two names point at one place.
fn same<H: Home>(
    table: &mut WorkerTable<'_, u64, H>,
    hand: usize,
    taken: bool,
    first: u8,
    second: u8,
) -> ActResult
    requires seated { IsSeated (hand + 1) hand table.old }
    requires names { (first < hand) × (second < hand) }
    requires kinds { HasKind table.old.slots first Owner × HasKind table.old.slots second Owner }
    ensures acts { IsActed hand table.old taken (act.Ask (question.Same first second)) result table.new }
    ensures taken { result.taken ≡ taken }
    ensures same { table.new.slots ≡ table.old.slots }
{
    let same = table.same_place(usize::from(first), usize::from(second));
    ActResult {
        taken,
        answer: Some(Answer::Same(same)),
        ended: None,
    }
}

/// Whether the first name comes before the second.
fn before<H: Home>(
    table: &mut WorkerTable<'_, u64, H>,
    hand: usize,
    taken: bool,
    first: u8,
    second: u8,
) -> ActResult
    requires seated { IsSeated (hand + 1) hand table.old }
    requires names { (first < hand) × (second < hand) }
    requires kinds { ((k : Kind) × HasKind table.old.slots first k)
        × ((k : Kind) × HasKind table.old.slots second k) }
    ensures acts { IsActed hand table.old taken (act.Ask (question.Before first second)) result table.new }
    ensures taken { result.taken ≡ taken }
    ensures same { table.new.slots ≡ table.old.slots }
{
    let before = table.owner_before(usize::from(first), usize::from(second));
    ActResult {
        taken,
        answer: Some(Answer::Before(before)),
        ended: None,
    }
}
