//! Scripts carried over to version 2.

ghost use Rattle.std.specs.Prelude.{◌≡◌, ◌↔◌, ℕ, List, map, IfOk, IsOkUnless};
ghost use Rattle.control_word.specs.declared.model.event.Entry.{Entry};
ghost use Rattle.control_word.specs.State.{Opening};
ghost use Rattle.step_table.specs.GhostStates.{Nothing};
ghost use Rattle.step_threads.specs.AbstractStates.{AbstractState};
ghost use Rattle.step_threads.specs.declared.said.Said.{Said};
ghost use Rattle.control_word.specs.declared.refusal.Refusal.TheVariants.{Memory};
ghost use Rattle.script_text.specs.Drafts.{section_of};
ghost use Rattle.script_text.specs.Scripts.{converted};
ghost use Rattle.script_text.specs.Beginnings.{IsRunOf, script_abstraction, script_world_state};
ghost use Rattle.script_text.specs.Traces.{IsTrace, Item};

use crate::parts::thread::{Thread, copy_of};
use crate::parts::version::Version;
use crate::script::Script;
use control_word::Refusal;
use std::alloc::{AllocError, Global};

fn copies_of(alloc: Global, threads: &[Thread]) -> Result<Vec<Thread>, AllocError>
    ensures { IfOk result (λ copies. map section_of copies.items ≡ map section_of threads.now) }
{
    let mut copies = Vec::new(alloc);
    for thread in threads {
        let copy = copy_of(alloc, thread)?;
        copies.push(copy)?;
    }
    Ok(copies)
}

/// The same script in version 2 (own): its blocks are those that it had, and its threads the same.
/// Every list of turns makes of both the same run, said by said, and the same end; and whatever
/// real threads may make of the one, they may make of the other: both begin in the same world, and
/// each interleaving of the one's threads is one of the other's.
///
/// Refused by 1 alone, where a growth is refused.
pub fn convert(alloc: Global, script: &Script) -> Result<Script, Refusal>
    ensures converted { IfOk result (λ s. s ≡ converted script.now) }
    ensures trace { IfOk result (λ s. (turns : List ℕ) (items : List Item) (last : AbstractState)
        → IsTrace turns (script_abstraction s) items last ↔ IsTrace turns (script_abstraction script.now) items
        last) }
    ensures begins { IfOk result (λ s. script_world_state s ≡ script_world_state script.now) }
    ensures runs { IfOk result (λ s. (z : Opening) (h : List (Entry Nothing)) (n : ℕ)
        (said : ℕ → List Said)
        → IsRunOf s z h n said ↔ IsRunOf script.now z h n said) }
    ensures memory { IsOkUnless result Memory }
{
    let blocks = script.version.blocks();
    let statements = script.statements;
    match copies_of(alloc, script.threads.as_slice()) {
        Ok(threads) => Ok(Script {
            version: Version::Two { blocks },
            threads,
            statements,
        }),
        Err(_) => Err(Refusal::Memory),
    }
}
