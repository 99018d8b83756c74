//! The script language: its text, read and written.
//!
//! A script is a list of lines, each with a line feed; a carriage return just before it is ignored.
//! Words are parted by spaces and tabs. A line without words, or whose first word begins with `#`,
//! is skipped. The first line that isn't skipped may be `version 2 blocks N` with N from 64 to
//! 65535: then the script has N blocks and at most 64 threads. Without this header it is of version
//! 1, with 4,095 blocks and at most 16 threads. The rest is the same in both. A line `thread`
//! begins the next thread; thread 1 begins with the text. Every other line is a statement, of which
//! a script has at most 65,536. A name is a letter `a` to `z`, then letters, digits or `_`, 1 to 16
//! bytes; names are each thread's own, at most 32. A name is declared by the first statement that
//! has it as its target (`T`), and for good: an owner name (`O`) is a `shared_ptr`
//! ([util.smartptr.shared]), a weak name (`W`) a `weak_ptr` ([util.smartptr.weak]).
//!
//! | statement | call | target |
//! |---|---|---|
//! | `make T [n [n [n [n]]]]` | `Make`; fields left out are 0 | owner |
//! | `makethis T [n [n [n [n]]]]` | `MakeThis` | owner |
//! | `null T` | `Null` | owner |
//! | `empty T` | `Empty` | owner |
//! | `reset O` | `Reset` | |
//! | `copy T O` | `Copy` | owner |
//! | `move T O` | `Move` | owner |
//! | `alias T O O F` | `Alias`; `alias T O F` is `alias T O O F` | owner |
//! | `alias T O null` | `AliasNull` | owner |
//! | `count O` | `Count` | |
//! | `weak T O` | `Weak` | weak |
//! | `wcopy T W` | `WeakCopy` | weak |
//! | `wempty T` | `WeakEmpty` | weak |
//! | `wreset W` | `WeakReset` | |
//! | `lock T W` | `Lock` | owner |
//! | `upgrade T W` | `Upgrade` | owner |
//! | `wcount W` | `WeakCount` | |
//! | `expired W` | `Expired` | |
//! | `this T O` | `This` | owner |
//! | `wthis T O` | `WeakThis` | weak |
//! | `read O` | `Read` | |
//! | `place O` | `Place` | |
//! | `same O O` | `Same` | |
//! | `before Y Y` | `Before`; each name of either kind | |
//! | `load T C` | `Load` | of the kind of the cell |
//! | `store C X` | `Store`; X of the kind of the cell | |
//! | `exchange C X` | `Exchange`; the same, and C no member of X | |
//! | `compare C X X` | `Compare`; the same | |
//! | `compare_weak C X X` | `Compare`, weak; the same | |
//! | `holds C X` | `Holds`; the same | |
//!
//! A number is at most 18446744073709551615, a field (`F`) a number from 0 to 3; leading zeros are
//! read, and not written. A cell (`C`) is `s` ([util.smartptr.atomic.shared]) or `w`
//! ([util.smartptr.atomic.weak]) and a number from 0 to 127, or an owner name, a dot and a member:
//! `first` and `next` are shared, `up` is weak.
//!
//! On one line causes are looked for in the order in which [`Cause`] lists them, except that the
//! words after the first are looked at from left to right (those of `load` from right to left):
//! each by its form, then whether a source, or the name before a dot, is declared, then whether it
//! is declared with the other kind, be it one of these or a target.
//!
//! A further statement is a variant of `step_core::Call` with its names in `names_of`, a row in
//! `keyword.rt`, an arm in `statement.rt`, one in `calls.rt` by its shape and one in `line.rt`, the
//! same in `specs/Keywords`, `specs/Calls` and `specs/Canonical`, and a line in `proofs/Rewrites`.
//! A new shape of words is a function in `shape.rt` (`alias.rt` has the widest) and one in
//! `calls.rt`, a definition in `specs/Shapes` and a lemma in `proofs/Reversible`.
#![tactic(auto)]

mod canonical;
mod conversion;
mod fault;
mod line;
mod parts;
mod program;
mod script;
mod text;
mod words;

pub use canonical::print;
pub use conversion::convert;
pub use fault::{Cause, Fault};
pub use line::{member_text, put_number, put_numbers};
pub use script::Script;
pub use text::parse;
