//! Scripts.

use crate::parts::thread::Thread;
use crate::parts::version::Version;
use crate::program::program_of;
use control_word::Refusal;
use std::alloc::Global;
use std::marker::Model;
use step_core::{Name, Program};

/// A script that some text spells. A clause sees its version, and its threads in order, each with
/// its names and its calls.
#[derive(Drop)]
pub struct Script {
    pub(crate) version: Version,
    pub(crate) threads: Vec<Thread>,
    pub(crate) statements: u32,
}

impl Model for Script {
    ghost use Rattle.std.specs.Prelude.{map};
    ghost use Rattle.script_text.specs.Drafts.{ScriptView, section_of};
    ghost use Rattle.script_text.specs.Scripts.{IsScript};

    ghost Value = { ScriptView };

    ghost view = { λ s. record { version = s.version; threads = map section_of s.threads.items } };

    ghost invariant = { λ s. IsScript
        (record { version = s.version; threads = map section_of s.threads.items }) s.statements };
}

impl Script {
    ghost use Rattle.std.specs.Prelude.{◌≡◌, ◌≤◌, All, IfOk, IsOkUnless, length};
    ghost use Rattle.control_word.specs.declared.shape.Shape.{Shape};
    ghost use Rattle.control_word.specs.declared.refusal.Refusal.TheVariants.{Memory};
    ghost use Rattle.step_threads.specs.Programs.{AllHaveCells, parts_of, IsProgram};
    ghost use Rattle.script_text.specs.Canonical.{canonical};
    ghost use Rattle.script_text.specs.Grammar.{ReadsAs};
    ghost use Rattle.script_text.specs.Scripts.{HasTextCells, program_in, spelling, statement_count};
    ghost use Rattle.script_text.specs.Versions.{blocks_in, most_threads};

    /// How many blocks the threads share (own): 4,095 in version 1, and in version 2 as many as the
    /// header says.
    pub fn blocks(&self) -> u32
        ensures number { result ≡ blocks_in self.now.version }
        ensures some { 64 ≤ result }
        ensures few { result ≤ 65535 }
    {
        self.version.blocks()
    }

    /// How many threads the script has, from 1 to 16, or to 64 in version 2 (own).
    pub fn threads(&self) -> u32
        ensures number { result ≡ length self.now.threads }
        ensures some { 1 ≤ result }
        ensures few { result ≤ most_threads self.now.version }
        ensures within { result ≤ 64 }
    {
        self.threads.len() as u32
    }

    /// How many statements all threads have together (own).
    pub fn statements(&self) -> u32
        ensures number { result ≡ statement_count self.now.threads }
        ensures few { result ≤ 65536 }
    {
        self.statements
    }

    /// How a thread, by its number from 1, spells a name of its own (own); nothing where the script
    /// has no such thread or name.
    pub fn spelling(&self, thread: u8, name: Name) -> &str
        ensures { result.now ≡ spelling self.now.threads thread name }
    {
        let index = usize::from(thread).saturating_sub(1);
        if index < self.threads.len() {
            self.threads[index].names.text(name)
        } else {
            ""
        }
    }

    /// The program of the script (own): for each thread, in order, an actor with the kinds of its
    /// names and its calls in order. It is within the limits of a program, its calls are well named
    /// and exchange no name with a member of its own object, and a shape with 128 cells of each
    /// kind has their cells. The script's canonical text spells it.
    ///
    /// Refused by 1 alone, where a growth is refused; the script is as it was.
    pub fn program(&self, alloc: Global) -> Result<Program, Refusal>
        ensures calls { IfOk result (λ p. parts_of p ≡ program_in self.now.threads) }
        ensures sound { IfOk result (λ p. IsProgram (parts_of p)) }
        ensures cells { IfOk result
            (λ p. (shape : Shape) → HasTextCells shape → All (AllHaveCells shape) (parts_of p)) }
        ensures reads { ReadsAs (canonical self.now) self.now }
        ensures memory { IsOkUnless result Memory }
    {
        match program_of(alloc, self.threads.as_slice()) {
            Ok(program) => Ok(program),
            Err(_) => Err(Refusal::Memory),
        }
    }
}
