//! Values that tell of their ends.

use pointers::{Desk, Domain, Fault, Shared};
use std::alloc::Global;
use std::sync::Arc;
use std::sync::atomic::{AtomicU32, AtomicU64, Ordering};

/// How many values were made, how many ended, and the numbers of these as decimal digits, the first one first.
#[derive(Drop)]
pub struct Ends {
    pub made: AtomicU32,
    pub count: AtomicU32,
    pub order: AtomicU64,
}

/// The ends of a play.
pub type Told = Arc<Ends, Global>;

/// A value that tells of its end.
pub struct Value {
    pub told: Told,
    pub number: u64,
}

impl Drop for Value {
    fn drop(self) {
        let Self { told, number } = self;
        told.count.fetch_add(1, Ordering::SeqCst);
        let order = told.order.load(Ordering::SeqCst);
        let order = order.wrapping_mul(10).wrapping_add(number);
        told.order.store(order, Ordering::SeqCst);
    }
}

/// New ends, of nothing yet.
pub fn new_ends(alloc: Global) -> Result<Told, Fault> {
    let ends = Ends {
        made: AtomicU32::new(0),
        count: AtomicU32::new(0),
        order: AtomicU64::new(0),
    };
    match Arc::new(alloc, ends) {
        Ok(told) => Ok(told),
        Err(_) => Err(Fault::Memory),
    }
}

/// A value of that number.
pub fn numbered(told: &Told, number: u64) -> Result<Value, Fault> {
    let told = Arc::try_clone(told)?;
    told.made.fetch_add(1, Ordering::SeqCst);
    Ok(Value { told, number })
}

/// A new object of that number.
pub fn object<'t, D: Domain<Value = Value>>(
    desk: &'t Desk<'t, D>,
    told: &Told,
    number: u64,
) -> Result<Shared<'t, D>, Fault> {
    Ok(desk.make([number, 20, 30, 40], numbered(told, number)?)?)
}

/// How many values were made.
pub fn made(told: &Told) -> u32 {
    told.made.load(Ordering::SeqCst)
}

/// How many values ended.
pub fn ended(told: &Told) -> u32 {
    told.count.load(Ordering::SeqCst)
}

/// In which order.
pub fn order(told: &Told) -> u64 {
    told.order.load(Ordering::SeqCst)
}

/// Nothing has ended yet.
pub fn begin(told: &Told) {
    told.count.store(0, Ordering::SeqCst);
    told.order.store(0, Ordering::SeqCst);
}
