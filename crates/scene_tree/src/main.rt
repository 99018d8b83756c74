//! A scene tree: a node owns its first child and its next sibling, and knows its parent by a weak pointer.
#![tactic(auto)]

use pointers::{Desk, Domain, Fault, Program, Shared, Team, run};
use std::io;
use std::sync::Wait;
use std::thread::Threads;

/// What a node's end says.
struct Name<R: Print + Drop> {
    rt: R,
    name: u64,
}

impl<R: Print + Drop> Drop for Name<R> {
    fn drop(self) {
        let Self { rt, name } = self;
        let _ = println!(&rt; "{name} ends");
    }
}

/// What a new node's end says.
fn named<R: Print + Clone + Drop>(rt: &R, name: u64) -> Result<Name<R>, Fault> {
    let rt = rt.clone()?;
    Ok(Name { rt, name })
}

/// A new child, before the others.
fn add_child<'t, D: Domain, R: Wait>(
    rt: &R,
    parent: &Shared<'t, D>,
    child: Shared<'t, D>,
) -> Result<(), Fault> {
    child.up().store(Some(parent.downgrade()?))?;
    child.next().store(parent.first().load(rt)?)?;
    parent.first().store(Some(child))
}

/// Says what the parent of the node is.
fn tell_parent<D: Domain, R: Wait + Print>(rt: &R, node: &Shared<'_, D>) -> Result<(), Fault> {
    let name = node.read()?;
    let _ = match node.parent(rt)? {
        Some(parent) => println!(rt; "{name} has the parent {}", parent.read()?),
        None => println!(rt; "{name} has no parent"),
    };
    Ok(())
}

/// The last child but one of a root that goes, with all that it alone owns.
fn play<D: Domain<Value = Name<R>>, R: Wait + Print + Clone + Drop>(
    rt: &R,
    desk: &Desk<D>,
) -> Result<(), Fault> {
    let root = desk.make([100, 0, 0, 0], named(rt, 100)?)?;
    for name in 1..=4 {
        let child = desk.make([name, 0, 0, 0], named(rt, name)?)?;
        add_child(rt, &root, child)?;
    }
    let Some(last) = root.first().load(rt)? else {
        return Ok(());
    };
    let Some(kept) = last.next().load(rt)? else {
        return Ok(());
    };
    drop(last);
    tell_parent(rt, &kept)?;
    drop(root);
    tell_parent(rt, &kept)
}

struct Scene;

impl<R: Threads + Wait + Sync + Print + Clone + Drop> Program<Name<R>, R> for Scene {
    fn work<D: Domain<Value = Name<R>>>(
        &self,
        rt: &R,
        _number: usize,
        desk: &Desk<D>,
    ) -> Result<(), Fault> {
        play(rt, desk)
    }
}

fn main(rt: HostRuntime) -> io::Result<()> {
    let team = Team {
        workers: 1,
        pointers: 8,
    };
    match run(&rt, rt.alloc(), team.shape(8, 0, 0), team, &Scene) {
        Ok(ran) => println!(&rt; "{} blocks vacant", ran.census.vacant()),
        Err(why) => println!(&rt; "not run: {why}"),
    }
}
