//! Statements, as calls over the numbers of names.

ghost use Rattle.text_lines.specs.Reading.{Gives};
ghost use Rattle.step_threads.specs.declared.programs.call.Call.TheVariants.{Compare};
ghost use Rattle.script_text.specs.Shapes.{cell_and_sources, texts};
ghost use Rattle.script_text.specs.Calls.{as_call, call_at, cell_call_at, place_call_at};
ghost use Rattle.script_text.specs.Calls.{weak_call_at};

use crate::fault::Stop;
use crate::parts::calls::{
    OnFields, OnPair, OnSource, OnSources, OnTarget, on_fields, on_pair, on_source, on_sources,
    on_target,
};
use crate::parts::names::Names;
use crate::words::alias::alias;
use crate::words::cell::{cell_and_other, cell_and_source, cell_and_sources, target_and_cell};
use crate::words::keyword::{CellKeyword, Keyword, PlaceKeyword, WeakKeyword};
use std::alloc::Global;
use step_core::Call;
use step_core::Kind::{Owner, Weak};

/// The call that a keyword and the words after it spell.
#[tactic(auto, unfolding(crate::specs::Calls::call_at))]
pub(crate) fn call_of(
    alloc: Global,
    names: &mut Names,
    keyword: Keyword,
    words: &[&[u8]],
) -> Result<Call, Stop>
    ensures { Gives (λ call. (call, names.new)) result
        (call_at names.old keyword (texts words.now)) }
{
    match keyword {
        Keyword::Make => on_fields(alloc, names, words, OnFields::Make),
        Keyword::MakeThis => on_fields(alloc, names, words, OnFields::MakeThis),
        Keyword::Null => on_target(alloc, names, Owner, words, OnTarget::Null),
        Keyword::Empty => on_target(alloc, names, Owner, words, OnTarget::Empty),
        Keyword::Reset => on_source(names, Owner, words, OnSource::Reset),
        Keyword::Copy => on_pair(alloc, names, Owner, Owner, words, OnPair::Copy),
        Keyword::Count => on_source(names, Owner, words, OnSource::Count),
        Keyword::Place(keyword) => place_call_of(alloc, names, keyword, words),
        Keyword::Cell(keyword) => cell_call_of(alloc, names, keyword, words),
        Keyword::Weak(keyword) => weak_call_of(alloc, names, keyword, words),
    }
}

/// The same for a statement on where owners point, or on what they own.
#[tactic(auto, unfolding(crate::specs::Calls::place_call_at))]
fn place_call_of(
    alloc: Global,
    names: &mut Names,
    keyword: PlaceKeyword,
    words: &[&[u8]],
) -> Result<Call, Stop>
    ensures { Gives (λ call. (call, names.new)) result
        (place_call_at names.old keyword (texts words.now)) }
{
    match keyword {
        PlaceKeyword::Move => on_pair(alloc, names, Owner, Owner, words, OnPair::Move),
        PlaceKeyword::Alias => alias(alloc, names, words),
        PlaceKeyword::This => on_pair(alloc, names, Owner, Owner, words, OnPair::This),
        PlaceKeyword::WeakThis => on_pair(alloc, names, Weak, Owner, words, OnPair::WeakThis),
        PlaceKeyword::Read => on_source(names, Owner, words, OnSource::Read),
        PlaceKeyword::Place => on_source(names, Owner, words, OnSource::Place),
        PlaceKeyword::Same => on_sources(names, Some(Owner), words, OnSources::Same),
        PlaceKeyword::Before => on_sources(names, None, words, OnSources::Before),
    }
}

/// The same for a statement on a cell.
#[tactic(auto, unfolding(crate::specs::Calls::cell_call_at))]
fn cell_call_of(
    alloc: Global,
    names: &mut Names,
    keyword: CellKeyword,
    words: &[&[u8]],
) -> Result<Call, Stop>
    ensures { Gives (λ call. (call, names.new)) result
        (cell_call_at names.old keyword (texts words.now)) }
{
    match keyword {
        CellKeyword::Load => {
            let (target, cell) = target_and_cell(alloc, names, words)?;
            Ok(Call::Load { target, cell })
        }
        CellKeyword::Store => {
            let (cell, source) = cell_and_source(names, words)?;
            Ok(Call::Store { cell, source })
        }
        CellKeyword::Exchange => {
            let (cell, name) = cell_and_other(names, words)?;
            Ok(Call::Exchange { cell, name })
        }
        CellKeyword::Compare => compare(names, words, false),
        CellKeyword::CompareWeak => compare(names, words, true),
        CellKeyword::Holds => {
            let (cell, name) = cell_and_source(names, words)?;
            Ok(Call::Holds { cell, name })
        }
    }
}

/// The call of a compare, strong or weak.
fn compare(names: &Names, words: &[&[u8]], weak: bool) -> Result<Call, Stop>
    ensures { Gives (λ call. (call, names.now)) result
        (as_call (λ p. Compare p.0 p.1 p.2 weak) (cell_and_sources names.now (texts words.now))) }
{
    let (cell, expected, desired) = cell_and_sources(names, words)?;
    Ok(Call::Compare {
        cell,
        expected,
        desired,
        weak,
    })
}

/// The same for a statement on weak names.
#[tactic(auto, unfolding(crate::specs::Calls::weak_call_at))]
fn weak_call_of(
    alloc: Global,
    names: &mut Names,
    keyword: WeakKeyword,
    words: &[&[u8]],
) -> Result<Call, Stop>
    ensures { Gives (λ call. (call, names.new)) result
        (weak_call_at names.old keyword (texts words.now)) }
{
    match keyword {
        WeakKeyword::Weak => on_pair(alloc, names, Weak, Owner, words, OnPair::Weak),
        WeakKeyword::Copy => on_pair(alloc, names, Weak, Weak, words, OnPair::WeakCopy),
        WeakKeyword::Empty => on_target(alloc, names, Weak, words, OnTarget::WeakEmpty),
        WeakKeyword::Lock => on_pair(alloc, names, Owner, Weak, words, OnPair::Lock),
        WeakKeyword::Upgrade => on_pair(alloc, names, Owner, Weak, words, OnPair::Upgrade),
        WeakKeyword::Reset => on_source(names, Weak, words, OnSource::WeakReset),
        WeakKeyword::Count => on_source(names, Weak, words, OnSource::WeakCount),
        WeakKeyword::Expired => on_source(names, Weak, words, OnSource::Expired),
    }
}
