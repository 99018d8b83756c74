//! Walks over a whole trie.
ghost use Rattle.std.specs.Prelude.{◌≡◌, ◌<◌, ◌≤◌, ◌^◌, [], ◌∷◌, IfErr, IfOk, SomeIff};
ghost use Rattle.shared_trie.specs.Sweeps.{Retains, Sifts, WhyNotRetained, outs, place_after};
ghost use Rattle.shared_trie.specs.Tries.{member_at};

use crate::key::{key_at, number_at, place_behind};
use crate::node::key_of;
use crate::slot::take;
use crate::trie::SharedTrie;
use crate::way::End;
use pointers::{Domain, Fault, Shared};
use std::sync::Wait;

/// Which objects of a trie are kept, for `SharedTrie::retain`.
pub trait Keep<D: Domain> {
    ghost use Rattle.std.specs.Prelude.{ℕ, Bool, Result};
    ghost use Rattle.pointers.specs.declared.fault.Fault.{Fault};
    ghost use Rattle.pointers.specs.declared.known.Known.{Known};

    /// At a key and its object's owner it answered that, and was that keeper then. Where it is left out it says
    /// nothing.
    ghost judges: { Self → ℕ → Known D.Value → Result Bool Fault → Self → Type 0 } = { λ k n c r h. Unit {0} };

    /// Whether the key's object stays. A fault ends the walk.
    fn keeps(&mut self, key: u64, owner: &Shared<'_, D>) -> Result<bool, Fault>
        ensures { judges self.old key owner.now result self.new };
}

/// What came of a member where a way ends: what it held stays, if anything; the entry came out; or it was there no
/// more.
#[derive(Clone, Copy, Drop)]
pub(crate) enum Sifted {
    Stays,
    Out,
    Changed,
}

impl Sifted {
    /// How many entries came out.
    fn number(self) -> usize
        ensures { result ≡ outs (self ∷ []) }
    {
        match self {
            Sifted::Out => 1,
            _ => 0,
        }
    }
}

/// Where a way ends the entry comes out unless it is kept (waits).
fn sift<'t, D: Domain, R: Wait, K: Keep<D>>(
    rt: &R,
    key: u64,
    end: End<'t, D>,
    keep: &mut K,
) -> Result<Sifted, Fault>
    requires { end.level ≤ 21 }
    ensures sifted { IfOk result (λ s. Sifts K.judges D.opened (member_at key end.entry.level end.entry.node)
        end.entry.held keep.old s keep.new) }
    ensures refused { IfErr result (WhyNotRetained K.judges) }
{
    let End { node, level, held } = end;
    let Some(entry) = held else {
        return Ok(Sifted::Stays);
    };
    let its_key = key_of(&entry)?;
    if keep.keeps(its_key, &entry)? {
        return Ok(Sifted::Stays);
    }
    match take(rt, &node.owner(number_at(key, level)), entry)? {
        Some(_) => Ok(Sifted::Out),
        None => Ok(Sifted::Changed),
    }
}

/// The place that the walk goes on at, if there is one: the same where the entry was there no more.
fn place_after(place: u64, level: u32, sifted: Sifted) -> Option<u64>
    requires { level ≤ 21 }
    ensures { SomeIff result (place_after place level sifted < 2 ^ 64) (place_after place level sifted) }
{
    match sifted {
        Sifted::Changed => Some(place),
        _ => place_behind(place, level),
    }
}

impl<'t, D: Domain> SharedTrie<'t, D> {
    /// The objects that `keep` doesn't keep are removed (waits): how many were. What comes to a key meanwhile may
    /// stay unasked. An object is asked about again where another thread changed its place. Faults: those of `get`,
    /// and what `keep` answers.
    pub fn retain<R: Wait, K: Keep<D>>(&self, rt: &R, keep: &mut K) -> Result<usize, Fault>
        ensures retained { IfOk result (Retains K.judges D.opened self.now.root keep.old keep.new) }
        ensures refused { IfErr result (WhyNotRetained K.judges) }
    {
        let mut place = 0u64;
        let mut removed = 0usize;
        for _ in rt.forever() {
            let key = key_at(place);
            let end = self.end_of(rt, key)?;
            let level = end.level;
            let sifted = sift(rt, key, end, keep)?;
            removed = removed.saturating_add(sifted.number());
            match place_after(place, level, sifted) {
                Some(next) => place = next,
                None => return Ok(removed),
            }
        }
        unreachable!()
    }
}
