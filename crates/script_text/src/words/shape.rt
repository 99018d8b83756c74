//! The words after the first one: a function for each shape of statement.

ghost use Rattle.std.specs.Prelude.{◌∷◌, []};
ghost use Rattle.text_lines.specs.Reading.{Gives};
ghost use Rattle.script_text.specs.Shapes.{texts, number_or_zero, fields_at, one_target};
ghost use Rattle.script_text.specs.Shapes.{one_source, target_and_source};
ghost use Rattle.script_text.specs.Shapes.{two_sources, target_and_fields};

use crate::fault::{Cause, Stop};
use crate::parts::names::Names;
use crate::words::word::number_of;
use std::alloc::Global;
use step_core::{Kind, Name};

/// A target.
#[tactic(auto, unfolding(crate::specs::Shapes::one_target))]
pub(crate) fn target(
    alloc: Global,
    names: &mut Names,
    kind: Kind,
    words: &[&[u8]],
) -> Result<Name, Stop>
    ensures { Gives (λ n. (n, names.new)) result (one_target names.old kind (texts words.now)) }
{
    let [word] = words else {
        return Err(Stop::Cause(Cause::WrongNumberOfWords));
    };
    let name = names.target(kind, word)?;
    names.declare(alloc, kind, name)
}

/// A source.
#[tactic(auto, unfolding(crate::specs::Shapes::one_source))]
pub(crate) fn source(names: &Names, kind: Kind, words: &[&[u8]]) -> Result<Name, Stop>
    ensures { Gives (λ n. (n, names.now)) result (one_source names.now kind (texts words.now)) }
{
    let [word] = words else {
        return Err(Stop::Cause(Cause::WrongNumberOfWords));
    };
    names.source(kind, word)
}

/// A target and a source by their words.
#[tactic(auto, unfolding(crate::specs::Shapes::target_and_source))]
fn target_then_source(
    alloc: Global,
    names: &mut Names,
    to: Kind,
    from: Kind,
    written: &[u8],
    read: &[u8],
) -> Result<(Name, Name), Stop>
    ensures { Gives (λ n. (n, names.new)) result
        (target_and_source names.old to from (written.now ∷ read.now ∷ [])) }
{
    let name = names.target(to, written)?;
    let source = names.source(from, read)?;
    let target = names.declare(alloc, to, name)?;
    Ok((target, source))
}

/// A target and a source.
#[tactic(auto, unfolding(crate::specs::Shapes::target_and_source))]
pub(crate) fn target_and_source(
    alloc: Global,
    names: &mut Names,
    to: Kind,
    from: Kind,
    words: &[&[u8]],
) -> Result<(Name, Name), Stop>
    ensures { Gives (λ n. (n, names.new)) result
        (target_and_source names.old to from (texts words.now)) }
{
    let [written, read] = words else {
        return Err(Stop::Cause(Cause::WrongNumberOfWords));
    };
    target_then_source(alloc, names, to, from, written, read)
}

/// Two sources by their words.
#[tactic(auto, unfolding(crate::specs::Shapes::two_sources))]
fn source_then_source(
    names: &Names,
    asked: Option<Kind>,
    one: &[u8],
    other: &[u8],
) -> Result<(Name, Name), Stop>
    ensures { Gives (λ n. (n, names.now)) result
        (two_sources names.now asked (one.now ∷ other.now ∷ [])) }
{
    let first = names.asked_source(asked, one)?;
    let second = names.asked_source(asked, other)?;
    Ok((first, second))
}

/// Two sources, each of the kind that is asked for, if one is.
#[tactic(auto, unfolding(crate::specs::Shapes::two_sources))]
pub(crate) fn two_sources(
    names: &Names,
    asked: Option<Kind>,
    words: &[&[u8]],
) -> Result<(Name, Name), Stop>
    ensures { Gives (λ n. (n, names.now)) result (two_sources names.now asked (texts words.now)) }
{
    let [one, other] = words else {
        return Err(Stop::Cause(Cause::WrongNumberOfWords));
    };
    source_then_source(names, asked, one, other)
}

fn number_or_zero(words: &[&[u8]], place: usize) -> Result<u64, Stop>
    ensures { Gives (λ n. n) result (number_or_zero (texts words.now) place) }
{
    match words.get(place) {
        Some(word) => number_of(word),
        None => Ok(0),
    }
}

/// The fields of a new object. Those that are left out are 0.
#[tactic(auto, unfolding(crate::specs::Shapes::fields_at))]
fn fields_of(words: &[&[u8]]) -> Result<[u64; 4], Stop>
    ensures { Gives (λ f. f) result (fields_at (texts words.now)) }
{
    let first = number_or_zero(words, 0)?;
    let second = number_or_zero(words, 1)?;
    let third = number_or_zero(words, 2)?;
    let fourth = number_or_zero(words, 3)?;
    Ok([first, second, third, fourth])
}

/// A target and the fields of a new object by their words.
#[tactic(auto, unfolding(crate::specs::Shapes::target_and_fields))]
fn target_then_fields(
    alloc: Global,
    names: &mut Names,
    written: &[u8],
    numbers: &[&[u8]],
) -> Result<(Name, [u64; 4]), Stop>
    ensures { Gives (λ n. (n, names.new)) result
        (target_and_fields names.old (written.now ∷ texts numbers.now)) }
{
    let name = names.target(Kind::Owner, written)?;
    let fields = fields_of(numbers)?;
    let target = names.declare(alloc, Kind::Owner, name)?;
    Ok((target, fields))
}

/// A target, and the fields of a new object.
#[tactic(auto, unfolding(crate::specs::Shapes::target_and_fields))]
pub(crate) fn target_and_fields(
    alloc: Global,
    names: &mut Names,
    words: &[&[u8]],
) -> Result<(Name, [u64; 4]), Stop>
    ensures { Gives (λ n. (n, names.new)) result (target_and_fields names.old (texts words.now)) }
{
    let [written, numbers @ ..] = words else {
        return Err(Stop::Cause(Cause::WrongNumberOfWords));
    };
    target_then_fields(alloc, names, written, numbers)
}
