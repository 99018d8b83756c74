//! The words of an alias.

ghost use Rattle.std.specs.Prelude.{◌∷◌};
ghost use Rattle.text_lines.specs.Reading.{Gives};
ghost use Rattle.script_text.specs.Calls.{alias_call, as_call};
ghost use Rattle.script_text.specs.Shapes.{texts, aim_of, aim_at, aim_at_other, alias_at};

use crate::fault::{Cause, Stop};
use crate::parts::names::Names;
use crate::words::word::field_of;
use std::alloc::Global;
use step_core::{Call, Field, Kind, Name};

/// Where an alias points: at a field of what a name points into, or at null.
type Aim = Option<(Name, Field)>;

/// The field of what a name points into.
fn aim_of(name: Name, word: &[u8]) -> Result<Aim, Stop>
    ensures { Gives (λ a. a) result (aim_of name word.now) }
{
    let field = field_of(word)?;
    Ok(Some((name, field)))
}

/// The field of what another name points into.
fn aim_at_other(names: &Names, other: &[u8], word: &[u8]) -> Result<Aim, Stop>
    ensures { Gives (λ a. a) result (aim_at_other names.now other.now word.now) }
{
    let of = names.source(Kind::Owner, other)?;
    aim_of(of, word)
}

/// Where an alias points whose last words these are. A single word is the field of what the source
/// points into.
#[tactic(auto, unfolding(crate::specs::Shapes::aim_at))]
fn aim(names: &Names, source: Name, words: &[&[u8]]) -> Result<Aim, Stop>
    ensures { Gives (λ a. a) result (aim_at names.now source (texts words.now)) }
{
    match words {
        [last] => {
            if *last == b"null".as_slice() {
                return Ok(None);
            }
            aim_of(source, last)
        }
        [other, last] => aim_at_other(names, other, last),
        _ => Err(Stop::Cause(Cause::WrongNumberOfWords)),
    }
}

/// A target, a source, and where the target points, by their words.
#[tactic(auto, unfolding(crate::specs::Shapes::alias_at))]
fn parts_of(
    alloc: Global,
    names: &mut Names,
    written: &[u8],
    read: &[u8],
    aims: &[&[u8]],
) -> Result<((Name, Name), Aim), Stop>
    ensures { Gives (λ parts. (parts, names.new)) result
        (alias_at names.old (written.now ∷ read.now ∷ texts aims.now)) }
{
    let name = names.target(Kind::Owner, written)?;
    let source = names.source(Kind::Owner, read)?;
    let aim = aim(names, source, aims)?;
    let target = names.declare(alloc, Kind::Owner, name)?;
    Ok(((target, source), aim))
}

/// A target, a source, and where the target points.
#[tactic(auto, unfolding(crate::specs::Shapes::alias_at))]
fn parts(alloc: Global, names: &mut Names, words: &[&[u8]]) -> Result<((Name, Name), Aim), Stop>
    ensures { Gives (λ parts. (parts, names.new)) result (alias_at names.old (texts words.now)) }
{
    let [written, read, aims @ ..] = words else {
        return Err(Stop::Cause(Cause::WrongNumberOfWords));
    };
    parts_of(alloc, names, written, read, aims)
}

/// The call that the words of an alias spell.
pub(crate) fn alias(alloc: Global, names: &mut Names, words: &[&[u8]]) -> Result<Call, Stop>
    ensures { Gives (λ call. (call, names.new)) result
        (as_call alias_call (alias_at names.old (texts words.now))) }
{
    let ((target, source), aim) = parts(alloc, names, words)?;
    match aim {
        None => Ok(Call::AliasNull { target, source }),
        Some((of, field)) => Ok(Call::Alias {
            target,
            source,
            of,
            field,
        }),
    }
}
