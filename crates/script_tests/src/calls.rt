//! The calls on cells that tests' actors make.
ghost use Rattle.std.specs.Prelude.{◌≡◌};
ghost use Rattle.step_threads.specs.declared.programs.call.Call.TheVariants.{Alias, Compare, Exchange, Load, Store};
ghost use Rattle.step_threads.specs.declared.programs.call.CellName.TheVariants.{Member};

use step_table::memory::field::Field;
use step_threads::programs::call::{Call, CellName, Name};

/// A member of what a name owns: 0 is `first`, 1 is `next`, 2 is `up`.
pub fn member(name: Name, member: u8) -> CellName
    ensures { result ≡ Member name member }
{
    CellName::Member { name, member }
}

pub fn alias(target: Name, source: Name, of: Name, field: Field) -> Call
    ensures { result ≡ Alias target source of field }
{
    Call::Alias {
        target,
        source,
        of,
        field,
    }
}

pub fn load(target: Name, cell: CellName) -> Call
    ensures { result ≡ Load target cell }
{
    Call::Load { target, cell }
}

pub fn store(cell: CellName, source: Name) -> Call
    ensures { result ≡ Store cell source }
{
    Call::Store { cell, source }
}

pub fn exchange(cell: CellName, name: Name) -> Call
    ensures { result ≡ Exchange cell name }
{
    Call::Exchange { cell, name }
}

pub fn compare(cell: CellName, expected: Name, desired: Name, weak: bool) -> Call
    ensures { result ≡ Compare cell expected desired weak }
{
    Call::Compare {
        cell,
        expected,
        desired,
        weak,
    }
}
