//! Lists of turns, as text.

ghost use Rattle.std.specs.Prelude.{◌≡◌, ◌<◌, ◌≤◌, IfErr, IfOk, is_some};
ghost use Rattle.control_word.specs.declared.refusal.Refusal.TheVariants.{Limit};
ghost use Rattle.script_orders.specs.Seen.{GoesOn, one_where, seen};

use crate::search::Search;
use control_word::Refusal;
use std::alloc::{AllocError, Global};
use std::fmt::Write as _;

/// Turns with single commas between them.
pub(crate) fn list_of(alloc: Global, turns: &[u8]) -> Result<Vec<u8>, AllocError> {
    let mut text = String::new(alloc);
    for turn in turns {
        if !text.is_empty() {
            text.push(',')?;
        }
        write!(text, "{turn}")?;
    }
    Ok(text.into_bytes())
}

/// The next list of turns that is tried; none where there is no further one.
pub(crate) fn next_list(alloc: Global, search: &mut Search) -> Result<Option<Vec<u8>>, Refusal>
    requires within { seen search.old.states ≤ search.old.most }
    ensures sees { IfOk result (λ list. GoesOn (one_where (is_some list)) search.old search.new) }
    ensures limit { IfErr result (λ why. why ≡ Limit → search.new.most < seen search.new.states) }
{
    let Some(turns) = search.next_end()? else {
        return Ok(None);
    };
    Ok(Some(list_of(alloc, turns.as_slice())?))
}
