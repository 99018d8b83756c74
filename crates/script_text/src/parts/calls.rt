//! Calls by the shape of their statements: the words are read, and what they name is put into the
//! call.

ghost use Rattle.std.specs.Prelude.{◌≡◌};
ghost use Rattle.text_lines.specs.Reading.{Gives};
ghost use Rattle.script_text.specs.Shapes.{one_source, one_target, target_and_fields};
ghost use Rattle.script_text.specs.Shapes.{target_and_source, texts};
ghost use Rattle.script_text.specs.Shapes.{two_sources};
ghost use Rattle.script_text.specs.Calls.{as_call, fields_call, pair_call, source_call};
ghost use Rattle.script_text.specs.Calls.{sources_call, target_call};

use crate::fault::Stop;
use crate::parts::names::Names;
use crate::words::shape::{source, target, target_and_fields, target_and_source, two_sources};
use std::alloc::Global;
use step_core::{Call, Kind, Name};

/// A call on one name that is declared.
#[derive(Clone, Copy)]
pub(crate) enum OnSource {
    Reset,
    Count,
    Read,
    Place,
    WeakReset,
    WeakCount,
    Expired,
}

/// A call that writes one name.
#[derive(Clone, Copy)]
pub(crate) enum OnTarget {
    Null,
    Empty,
    WeakEmpty,
}

/// A call that writes one name, and reads another.
#[derive(Clone, Copy)]
pub(crate) enum OnPair {
    Copy,
    Move,
    This,
    WeakThis,
    Weak,
    WeakCopy,
    Lock,
    Upgrade,
}

/// A call that compares two names.
#[derive(Clone, Copy)]
pub(crate) enum OnSources {
    Same,
    Before,
}

/// A call that makes an object with fields.
#[derive(Clone, Copy)]
pub(crate) enum OnFields {
    Make,
    MakeThis,
}

fn source_call(of: OnSource, name: Name) -> Call
    ensures { result ≡ source_call of name }
{
    match of {
        OnSource::Reset => Call::Reset { name },
        OnSource::Count => Call::Count { name },
        OnSource::Read => Call::Read { name },
        OnSource::Place => Call::Place { name },
        OnSource::WeakReset => Call::WeakReset { name },
        OnSource::WeakCount => Call::WeakCount { name },
        OnSource::Expired => Call::Expired { name },
    }
}

/// The call on a source of this kind.
pub(crate) fn on_source(
    names: &Names,
    kind: Kind,
    words: &[&[u8]],
    of: OnSource,
) -> Result<Call, Stop>
    ensures { Gives (λ call. (call, names.now)) result
        (as_call (source_call of) (one_source names.now kind (texts words.now))) }
{
    let name = source(names, kind, words)?;
    Ok(source_call(of, name))
}

fn target_call(of: OnTarget, target: Name) -> Call
    ensures { result ≡ target_call of target }
{
    match of {
        OnTarget::Null => Call::Null { target },
        OnTarget::Empty => Call::Empty { target },
        OnTarget::WeakEmpty => Call::WeakEmpty { target },
    }
}

/// The call on a target of this kind.
pub(crate) fn on_target(
    alloc: Global,
    names: &mut Names,
    kind: Kind,
    words: &[&[u8]],
    of: OnTarget,
) -> Result<Call, Stop>
    ensures { Gives (λ call. (call, names.new)) result
        (as_call (target_call of) (one_target names.old kind (texts words.now))) }
{
    let name = target(alloc, names, kind, words)?;
    Ok(target_call(of, name))
}

fn pair_call(of: OnPair, target: Name, source: Name) -> Call
    ensures { result ≡ pair_call of (target, source) }
{
    match of {
        OnPair::Copy => Call::Copy { target, source },
        OnPair::Move => Call::Move { target, source },
        OnPair::This => Call::This { target, source },
        OnPair::WeakThis => Call::WeakThis { target, source },
        OnPair::Weak => Call::Weak { target, source },
        OnPair::WeakCopy => Call::WeakCopy { target, source },
        OnPair::Lock => Call::Lock { target, source },
        OnPair::Upgrade => Call::Upgrade { target, source },
    }
}

/// The call on a target and a source of these kinds.
pub(crate) fn on_pair(
    alloc: Global,
    names: &mut Names,
    to: Kind,
    from: Kind,
    words: &[&[u8]],
    of: OnPair,
) -> Result<Call, Stop>
    ensures { Gives (λ call. (call, names.new)) result
        (as_call (pair_call of) (target_and_source names.old to from (texts words.now))) }
{
    let (target, source) = target_and_source(alloc, names, to, from, words)?;
    Ok(pair_call(of, target, source))
}

fn sources_call(of: OnSources, first: Name, second: Name) -> Call
    ensures { result ≡ sources_call of (first, second) }
{
    match of {
        OnSources::Same => Call::Same { first, second },
        OnSources::Before => Call::Before { first, second },
    }
}

/// The call on two sources, each of the kind that is asked for, if one is.
pub(crate) fn on_sources(
    names: &Names,
    asked: Option<Kind>,
    words: &[&[u8]],
    of: OnSources,
) -> Result<Call, Stop>
    ensures { Gives (λ call. (call, names.now)) result
        (as_call (sources_call of) (two_sources names.now asked (texts words.now))) }
{
    let (first, second) = two_sources(names, asked, words)?;
    Ok(sources_call(of, first, second))
}

fn fields_call(of: OnFields, target: Name, fields: [u64; 4]) -> Call
    ensures { result ≡ fields_call of (target, fields) }
{
    match of {
        OnFields::Make => Call::Make { target, fields },
        OnFields::MakeThis => Call::MakeThis { target, fields },
    }
}

/// The call that makes an object with fields.
pub(crate) fn on_fields(
    alloc: Global,
    names: &mut Names,
    words: &[&[u8]],
    of: OnFields,
) -> Result<Call, Stop>
    ensures { Gives (λ call. (call, names.new)) result
        (as_call (fields_call of) (target_and_fields names.old (texts words.now))) }
{
    let (target, fields) = target_and_fields(alloc, names, words)?;
    Ok(fields_call(of, target, fields))
}
