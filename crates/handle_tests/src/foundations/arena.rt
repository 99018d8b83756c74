//! What cells give, and how often a value is dropped.
ghost use Rattle.std.specs.Prelude.{◌≡◌, ℕ, IfSome, None, Some, replicate};

use crate::same::{is_told, same};
use control_word::Refusal;
use slot_arena::{Arena, ValueCell};
use std::alloc::Global;
use std::sync::atomic::AtomicU64;
use std::sync::atomic::Ordering::SeqCst;
use std::test::Fail;

// Two cells.
fn both<V: Drop>(cells: Vec<ValueCell<V>>) -> Option<(ValueCell<V>, ValueCell<V>)>
    requires { cells.items ≡ replicate 2 None }
    ensures { IfSome result (λ r. (r.0 ≡ None) × (r.1 ≡ None)) }
{
    let mut cells = cells.into_iter();
    let one = cells.next()?;
    Some((one, cells.next()?))
}

// A value is filled in, seen, and changed where it lies.
fn fill_and_change(cell: &mut ValueCell<u64>) -> u64
    requires { cell.old ≡ None }
    ensures { cell.new ≡ Some 8 }
{
    cell.fill(7);
    let first = *cell.get();
    *cell.get_mut() = 8;
    first
}

// A value is taken out while another lies beside it, and a third goes into its cell: all three.
fn take_beside(cell: &mut ValueCell<u64>, other: &mut ValueCell<u64>) -> [u64; 3]
    requires there { (x : ℕ) × (cell.old ≡ Some x) }
    requires vacant { other.old ≡ None }
{
    other.fill(1);
    let value = cell.take();
    cell.fill(9);
    [value, *other.get(), *cell.get()]
}

// All of these.
fn fill_and_take(alloc: Global) -> Result<Option<(u64, [u64; 3])>, Refusal> {
    let Some((mut other, mut cell)) = both(Arena::new(alloc, 2)?) else {
        return Ok(None);
    };
    let first = fill_and_change(&mut cell);
    Ok(Some((first, take_beside(&mut cell, &mut other))))
}

#[test]
fn a_value_stays_in_its_cell_until_it_is_taken(rt: HostRuntime) -> Result<(), Fail> {
    is_told(&rt, fill_and_take(rt.alloc()), Some((7, [8, 1, 9])))
}

// A value that counts its drops.
struct Counted<'a> {
    drops: &'a AtomicU64,
}

impl Drop for Counted<'_> {
    fn drop(self) {
        let Self { drops } = self;
        drops.fetch_add(1, SeqCst);
    }
}

// How many values were dropped before a cell's end, and after it.
fn drop_in_cell<'a>(mut cell: ValueCell<Counted<'a>>, drops: &'a AtomicU64) -> [u64; 2]
    requires { cell ≡ None }
{
    cell.fill(Counted { drops });
    let before = drops.load(SeqCst);
    drop(cell);
    [before, drops.load(SeqCst)]
}

// The same of a value that was taken out, and whose cell has ended.
fn drop_taken<'a>(mut cell: ValueCell<Counted<'a>>, drops: &'a AtomicU64) -> [u64; 2]
    requires { cell ≡ None }
{
    cell.fill(Counted { drops });
    let value = cell.take();
    drop(cell);
    let before = drops.load(SeqCst);
    drop(value);
    [before, drops.load(SeqCst)]
}

// Both.
fn drop_both(alloc: Global, drops: &AtomicU64) -> Result<Option<[[u64; 2]; 2]>, Refusal> {
    let Some((one, other)) = both(Arena::new(alloc, 2)?) else {
        return Ok(None);
    };
    Ok(Some([drop_in_cell(one, drops), drop_taken(other, drops)]))
}

#[test]
fn a_value_is_dropped_once(rt: HostRuntime) -> Result<(), Fail> {
    let drops = AtomicU64::new(0);
    is_told(&rt, drop_both(rt.alloc(), &drops), Some([[0, 1], [1, 2]]))
}

#[test]
fn an_arena_may_be_refused(rt: HostRuntime) {
    match Arena::new::<[u64; 512]>(rt.alloc(), 3) {
        Ok(cells) => same(&rt, cells.len(), 3),
        Err(why) => same(&rt, why, Refusal::Memory),
    }
}
