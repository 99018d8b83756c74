//! What callers prove with no proof file, and owners in a struct and a list.
ghost use Rattle.std.specs.Prelude.{◌≡◌, IfOk, true};

use pointers::{Desk, Domain, Fault, Shared};
use std::alloc::Global;

/// A root and owners of it.
pub struct Tree<'t, D: Domain> {
    pub root: Shared<'t, D>,
    pub others: Vec<Shared<'t, D>, Global>,
}

impl<'t, D: Domain> Drop for Tree<'t, D> {
    fn drop(self) {
        let Self { root, others } = self;
        drop(root);
        drop(others);
    }
}

/// One root with three owners more.
pub fn grow<'t, D: Domain<Value = ()>>(
    alloc: Global,
    desk: &'t Desk<'t, D>,
) -> Result<Tree<'t, D>, Fault> {
    let root = desk.make([1, 2, 3, 4], ())?;
    let mut others = Vec::new(alloc);
    for _ in 0..3 {
        others.push(root.share()?)?;
    }
    Ok(Tree { root, others })
}

/// Owners that come and go in a struct, a list and an option.
pub fn pass<D: Domain<Value = ()>>(alloc: Global, desk: &Desk<D>) -> Result<u64, Fault> {
    let tree = grow(alloc, desk)?;
    let mut kept = Some(tree.root.share()?);
    if let Some(one) = kept.take() {
        drop(one);
    }
    let weak = tree.root.downgrade()?;
    tree.root.read()
}

/// A copy points where it points.
pub fn copies<D: Domain>(p: &Shared<D>) -> Result<bool, Fault>
    ensures { IfOk result (λ b. b ≡ true) }
{
    let q = p.share()?;
    Ok(p.place() == q.place())
}

/// What was made is read.
#[tactic(auto, using(pointers::proofs::Objects::first_field))]
pub fn reads<D: Domain<Value = ()>>(desk: &Desk<D>) -> Result<u64, Fault>
    ensures { IfOk result (λ n. n ≡ 7) }
{
    let p = desk.make([7, 2, 3, 4], ())?;
    let q = p.share()?;
    q.read()
}
