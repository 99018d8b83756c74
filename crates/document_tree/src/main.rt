//! A document: elements own their children and know their parents, subtrees move, and the root's end ends what is left.
#![tactic(auto)]

use pointers::{Desk, Domain, Fault, Program, Shared, Team, run};
use std::alloc::Global;
use std::io;
use std::sync::atomic::{AtomicU32, Ordering};
use std::sync::{Arc, Wait};
use std::thread::Threads;

/// What is called so. Its end counts.
struct Element {
    name: String,
    ended: Arc<AtomicU32>,
}

impl Drop for Element {
    fn drop(self) {
        let Self { name, ended } = self;
        drop(name);
        ended.fetch_add(1, Ordering::SeqCst);
    }
}

/// An element of the document, or a node of a list of children, which is none.
type Object = Option<Element>;

/// Whether the element stands in the part of the tree under the other one, or is it.
fn is_under<'t, D: Domain, R: Wait>(
    rt: &R,
    element: &Shared<'t, D>,
    other: &Shared<'t, D>,
) -> Result<bool, Fault> {
    let mut at = Some(element.share()?);
    for _ in 0..u64::MAX {
        let Some(node) = at else {
            break;
        };
        if node.is(other) {
            return Ok(true);
        }
        at = node.parent(rt)?;
    }
    Ok(false)
}

/// The element, with all that stands under it, becomes the last child of the parent, unless that makes a circle.
fn append<'t, D: Domain<Value = Object>, R: Wait>(
    rt: &R,
    parent: &Shared<'t, D>,
    element: &Shared<'t, D>,
) -> Result<(), Fault> {
    if is_under(rt, parent, element)? {
        return Ok(());
    }
    if let Some(before) = element.parent(rt)? {
        before.first().list().remove(rt, element)?;
    }
    element.up().store(Some(parent.downgrade()?))?;
    parent.first().list().push(rt, element.share()?)
}

/// Prints an element's name.
fn told<R: Print>(rt: &R, element: &Object) -> io::Result<()> {
    match element {
        Some(element) => println!(rt; "{}", element.name),
        None => Ok(()),
    }
}

#[derive(Drop)]
struct Document {
    alloc: Global,
    ended: Arc<AtomicU32>,
}

impl Document {
    fn make<'t, D: Domain<Value = Object>>(
        &self,
        desk: &'t Desk<D>,
        name: &str,
    ) -> Result<Shared<'t, D>, Fault> {
        let name = String::from_str(self.alloc, name)?;
        let ended = self.ended.clone()?;
        Ok(desk.new(Some(Element { name, ended }))?)
    }

    /// The element and all that stands under it, each a line.
    fn print<'t, D: Domain<Value = Object>, R: Wait + Print>(
        &self,
        rt: &R,
        root: &Shared<'t, D>,
    ) -> Result<(), Fault> {
        let mut left = Vec::new(self.alloc);
        left.push((root.share()?, 0u32))?;
        for _ in 0..u64::MAX {
            let Some((element, depth)) = left.pop() else {
                break;
            };
            for _ in 0..depth {
                print!(rt; "  ")?;
            }
            element.visit(rt, |it| told(rt, it))??;
            let mut children = Vec::new(self.alloc);
            element.first().list().each(rt, |child| {
                children.push(child.share()?)?;
                Ok(())
            })?;
            for _ in 0..children.len() {
                if let Some(child) = children.pop() {
                    left.push((child, depth.saturating_add(1)))?;
                }
            }
        }
        Ok(())
    }

    fn play<D: Domain<Value = Object>, R: Wait + Print>(
        &self,
        rt: &R,
        desk: &Desk<D>,
    ) -> Result<(), Fault> {
        let html = self.make(desk, "html")?;
        let body = self.make(desk, "body")?;
        let left = self.make(desk, "left")?;
        let right = self.make(desk, "right")?;
        let list = self.make(desk, "list")?;
        let item = self.make(desk, "item")?;
        append(rt, &html, &body)?;
        append(rt, &body, &left)?;
        append(rt, &body, &right)?;
        append(rt, &left, &list)?;
        append(rt, &list, &item)?;
        self.print(rt, &html)?;
        append(rt, &right, &list)?;
        append(rt, &list, &html)?; // that would be a circle
        self.print(rt, &html)?;
        drop((body, left, right, item));
        drop(html);
        let parent = if list.parent(rt)?.is_some() {
            "a"
        } else {
            "no"
        };
        let ended = self.ended.load(Ordering::SeqCst);
        println!(rt; "{ended} ended, the list has {parent} parent")?;
        self.print(rt, &list)?;
        drop(list);
        println!(rt; "{} ended", self.ended.load(Ordering::SeqCst))?;
        Ok(())
    }
}

impl<R: Threads + Wait + Sync + Print> Program<Object, R> for Document {
    fn work<D: Domain<Value = Object>>(
        &self,
        rt: &R,
        _number: usize,
        desk: &Desk<D>,
    ) -> Result<(), Fault> {
        self.play(rt, desk)
    }
}

/// The document, at one worker's desk.
fn play<R: Threads + Wait + Sync + Print + AllocGlobal>(rt: &R) -> Result<(), Fault> {
    let document = Document {
        alloc: rt.alloc(),
        ended: Arc::new(rt.alloc(), AtomicU32::new(0))?,
    };
    let team = Team {
        workers: 1,
        pointers: 16,
    };
    match run(rt, rt.alloc(), team.shape(32, 0, 0), team, &document) {
        Ok(ran) => println!(rt;
            "{} faults, {} blocks vacant",
            ran.failed.len(),
            ran.census.vacant()
        )?,
        Err(why) => println!(rt; "not run: {why}")?,
    }
    Ok(())
}

fn main(rt: HostRuntime) -> io::Result<()> {
    match play(&rt) {
        Ok(()) => Ok(()),
        Err(why) => println!(&rt; "{why}"),
    }
}
