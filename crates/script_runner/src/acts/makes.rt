//! Acts that make an object, whose owner is in the hand then. The desk has room for a handle, so what the table refuses
//! is for want of a block.
ghost use Rattle.std.specs.Prelude.{◌≡◌, ◌+◌, true, false};
ghost use Rattle.control_word.specs.declared.model.handle.Kind.TheVariants as kind;
ghost use Rattle.script_runner.specs.SlotCalls.{IsBelow};
ghost use Rattle.step_threads.specs.declared.programs.act.Act.TheVariants as act;
ghost use Rattle.script_runner.specs.Deals.{IsActed};
ghost use Rattle.script_runner.specs.Kinds.{TakesKind};
ghost use Rattle.script_runner.specs.Seats.{IsHand};
ghost use Rattle.script_runner.specs.TableCalls.{null_form};

use crate::acts::act_result::{ActResult, refused};
use crate::table::{Home, WorkerTable};
use control_word::Refusal;
use step_table::memory::form::Form;

/// A new object, or there is no vacant block for it.
fn make<H: Home>(table: &mut WorkerTable<'_, u64, H>, hand: usize, form: Form) -> ActResult
    requires hand { IsHand (hand + 1) hand table.old }
    requires below { IsBelow table.old.desk }
    requires null { form.null ≡ false }
    ensures acts { IsActed hand table.old false (act.Make form) result table.new }
    ensures kinds { TakesKind hand kind.Owner result.taken table.old table.new }
{
    if table.make(hand, form.fields, form.enabled, form.fields[0]) {
        return ActResult {
            taken: true,
            answer: None,
            ended: None,
        };
    }
    refused(Refusal::Full)
}

/// A new owner of the null pointer, or there is no vacant block for it.
fn make_null<H: Home>(table: &mut WorkerTable<'_, u64, H>, hand: usize) -> ActResult
    requires hand { IsHand (hand + 1) hand table.old }
    requires below { IsBelow table.old.desk }
    ensures acts { IsActed hand table.old false (act.Make null_form) result table.new }
    ensures kinds { TakesKind hand kind.Owner result.taken table.old table.new }
{
    if table.make_null(hand, 0) {
        return ActResult {
            taken: true,
            answer: None,
            ended: None,
        };
    }
    refused(Refusal::Full)
}

/// An object is made, or an owner of the null pointer.
pub(crate) fn make_any<H: Home>(
    table: &mut WorkerTable<'_, u64, H>,
    hand: usize,
    form: Form,
) -> ActResult
    requires hand { IsHand (hand + 1) hand table.old }
    requires below { IsBelow table.old.desk }
    requires null { form.null ≡ true → form ≡ null_form }
    ensures acts { IsActed hand table.old false (act.Make form) result table.new }
    ensures kinds { TakesKind hand kind.Owner result.taken table.old table.new }
{
    match form.null {
        false => make(table, hand, form),
        true => make_null(table, hand),
    }
}
