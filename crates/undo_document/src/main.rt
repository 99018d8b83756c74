//! A document of objects of several classes, its history, undo, and a copy that another thread saves.
#![tactic(auto)]

use pointers::{Desk, Domain, Fault, Program, Shared, SharedCell, Team, run};
use shared_vec::SharedVec;
use std::io;
use std::sync::Wait;
use std::thread::Threads;

/// The copy that is to be saved, until it is.
const TO_SAVE: SharedCell = SharedCell(0);

/// An object of one of the classes.
#[derive(Default, Drop)]
enum Object {
    Number(i32),
    Text(String),
    #[default]
    Document,
    Mine,
}

/// A document's elements, in C++ a `std::vector`.
fn elements<'p, 't, D: Domain>(document: &'p Shared<'t, D>) -> SharedVec<'p, 't, D> {
    SharedVec::at(document.desk(), document.first())
}

/// A copy of the document, which shares its elements.
fn copy<'t, D: Domain<Value = Object>, R: Wait>(
    rt: &R,
    document: &Shared<'t, D>,
) -> Result<Shared<'t, D>, Fault> {
    let copy = document.desk().new(Object::Document)?;
    let mut copied = elements(&copy);
    elements(document).each(rt, |it: &Shared<D>| {
        copied.push(rt, it.share()?)?;
        Ok(())
    })?;
    drop(copied);
    Ok(copy)
}

/// Prints the document, and those in it.
fn draw<D: Domain<Value = Object>, R: Wait + Print + AllocGlobal>(
    rt: &R,
    document: &Shared<D>,
) -> Result<(), Fault> {
    let mut left = vec![in rt.alloc(); (0usize, Some(document.share()?))]?;
    for _ in 0..u64::MAX {
        let Some((at, object)) = left.pop() else {
            break;
        };
        let Some(object) = object else {
            println!(rt; "{:at$}</document>", "")?;
            continue;
        };
        object.visit(rt, |it| match it {
            Object::Number(number) => println!(rt; "{:at$}{number}", ""),
            Object::Text(text) => println!(rt; "{:at$}{text}", ""),
            Object::Document => println!(rt; "{:at$}<document>", ""),
            Object::Mine => println!(rt; "{:at$}my_class_t", ""),
        })??;
        if object.visit(rt, |it| matches!(it, Object::Document))? {
            left.push((at, None))?;
            for index in (0..elements(&object).len(rt)?).rev() {
                let element = elements(&object).get(rt, index)?;
                left.push((at.saturating_add(2), element))?;
            }
        }
    }
    Ok(())
}

struct Editor;

impl<R: Threads + Wait + Sync + Print + AllocGlobal> Program<Object, R> for Editor {
    fn work<D: Domain<Value = Object>>(
        &self,
        rt: &R,
        me: usize,
        desk: &Desk<D>,
    ) -> Result<(), Fault> {
        if me > 0 {
            desk.wait_while(rt, TO_SAVE, None)?;
            draw(rt, &desk.load(rt, TO_SAVE)?.ok_or(Fault::Other(0))?)?;
            return desk.clear(TO_SAVE);
        }
        let text = |text| String::from_str(rt.alloc(), text);
        let current = desk.new(Object::Document)?;
        let mut all = elements(&current);
        all.push(rt, desk.new(Object::Number(0))?)?;
        all.push(rt, desk.new(Object::Text(text("Hello!")?))?)?;
        draw(rt, &current)?;
        println!(rt; "--------------------------")?;
        let mut history = vec![in rt.alloc(); copy(rt, &current)?]?; // commit(h)
        all.push(rt, copy(rt, &current)?)?;
        all.push(rt, desk.new(Object::Mine)?)?;
        all.set(rt, 1, desk.new(Object::Text(text("World")?))?)?; // current(h)[1] = string("World")
        let document = copy(rt, &current)?;
        document.share()?.store(TO_SAVE)?;
        desk.wait_while(rt, TO_SAVE, Some(&document))?; // saving.get()
        println!(rt; "--------------------------")?;
        draw(rt, &history.pop().ok_or(Fault::Other(0))?) // undo(h)
    }
}

fn main(rt: HostRuntime) -> io::Result<()> {
    let team = Team {
        workers: 2,
        pointers: 32,
    };
    let shape = team.shape(64, 1, 0).with_members(8, 1);
    match run(&rt, rt.alloc(), shape, team, &Editor) {
        Ok(ran) => println!(&rt; "{} workers, {} faults", ran.workers, ran.failed.len()),
        Err(why) => println!(&rt; "not run: {why}"),
    }
}
