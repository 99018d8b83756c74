//! Places for pointers that other threads see too: free cells, and members of objects.
ghost use Rattle.std.specs.Prelude.{◌≡◌, ◌<◌, ◌≤◌, ◌^◌};

pub mod cached;
pub mod cached_value;
pub mod cached_weak;
mod compares;
mod compares_weak;
pub mod link;
pub mod location;
pub mod member;
pub mod pool;
pub mod up;
mod updates;
mod waits;
mod weak_waits;

/// A free cell of the domain for owners, by its number from 0, in C++ `atomic<shared_ptr>`
/// ([util.smartptr.atomic.shared]).
#[derive(Clone, Copy, PartialEq, Eq, Debug, Drop)]
pub struct SharedCell(pub u32);

/// A free cell for weak pointers, in C++ `atomic<weak_ptr>` ([util.smartptr.atomic.weak]).
#[derive(Clone, Copy, PartialEq, Eq, Debug, Drop)]
pub struct WeakCell(pub u32);

impl SharedCell {
    /// The cell of that number. One above all is none of a domain's.
    pub fn at(number: usize) -> SharedCell
        ensures that { number < 2 ^ 32 → result.0 ≡ number }
        ensures none { 2 ^ 32 ≤ number → result.0 ≡ 4294967295 }
    {
        SharedCell(u32::try_from(number).unwrap_or(u32::MAX))
    }
}

impl WeakCell {
    /// The cell of that number. One above all is none of a domain's.
    pub fn at(number: usize) -> WeakCell
        ensures that { number < 2 ^ 32 → result.0 ≡ number }
        ensures none { 2 ^ 32 ≤ number → result.0 ≡ 4294967295 }
    {
        WeakCell(u32::try_from(number).unwrap_or(u32::MAX))
    }
}
