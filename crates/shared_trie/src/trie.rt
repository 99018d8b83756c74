//! A trie, as one worker has it.
ghost use Rattle.std.specs.Prelude.{◌≡◌, IfErr, IfOk, Some};
ghost use Rattle.control_word.specs.declared.model.handle.Kind.TheVariants.{Owner};
ghost use Rattle.pointers.specs.SiteCalls.{Loaded};
ghost use Rattle.shared_trie.specs.Refusals.{WhyNotFound, WhyNotPut};
ghost use Rattle.shared_trie.specs.Tries.{Gets, IsNode};

use crate::key::number_at;
use crate::node::{is_node, key_of, node_in};
use crate::way::below;
use pointers::{Desk, Domain, Fault, Member, Shared};
use std::sync::Wait;

/// A map of objects that threads share, by a key of 64 bits in each, as one worker has it: `open` gives it. An object's
/// key is the field that the pointer to it points at: the first one, as a make gives it. What one worker puts in all
/// find.
///
/// It has no number of buckets: it is a trie, whose nodes are objects with eight members for owners, as
/// `team.shape(blocks, 1, 0).with_members(8, 1)` gives. In a domain whose objects have fewer it is refused `Member`.
///
/// A call answers `Busy` within a visit, `Crowded` where the desk has as many pointers as it may, and
/// `Refused(_, Null)` or `Refused(_, Outside)` where there is an object that no trie put there. An insert also answers
/// `Refused(Make, Full)`, where no block is vacant for a node.
pub struct SharedTrie<'t, D: Domain> {
    pub(crate) desk: &'t Desk<'t, D>,
    pub(crate) root: Shared<'t, D>,
}

impl<'t, D: Domain> Drop for SharedTrie<'t, D> {
    #[inline(always)]
    fn drop(self) {
        let Self { desk: _, root } = self;
        drop(root);
    }
}

impl<'t, D: Domain> SharedTrie<'t, D> {
    /// The map in a place, a new one where the place is empty (waits).
    pub fn open<R: Wait>(
        rt: &R,
        desk: &'t Desk<'t, D>,
        place: &Member<'_, 't, D>,
    ) -> Result<SharedTrie<'t, D>, Fault>
    where
        D::Value: Default,
        ensures opened { IfOk result (λ t. Loaded D.opened Owner place.now (Some t.root)) }
        ensures root { IfOk result (λ t. IsNode t.root) }
        ensures refused { IfErr result WhyNotPut }
    {
        let root = node_in(rt, desk, place)?;
        Ok(SharedTrie { desk, root })
    }

    /// A copy of the owner of the key's object (waits). None where there is none.
    pub fn get<R: Wait>(&self, rt: &R, key: u64) -> Result<Option<Shared<'t, D>>, Fault>
        ensures done { IfOk result (Gets D.opened self.now.root key) }
        ensures refused { IfErr result WhyNotFound }
    {
        let mut level = 0;
        let mut held = self.root.owner(number_at(key, 0)).load(rt)?;
        for _ in rt.forever() {
            let Some(next) = held else {
                return Ok(None);
            };
            if !is_node(&next) {
                if key_of(&next)? == key {
                    return Ok(Some(next));
                }
                return Ok(None);
            }
            level = below(level)?;
            held = next.owner(number_at(key, level)).load(rt)?;
        }
        unreachable!()
    }
}
