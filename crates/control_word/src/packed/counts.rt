//! The word of a count: the number of handles, and the funds that loads may turn into handles.
ghost use Rattle.std.specs.Prelude.{◌≡◌, ◌↔◌, ◌+◌, ◌*◌, ◌<◌, ◌≤◌, IsTrue};
ghost use Rattle.control_word.specs.Packing.{IsCount, count_bits, funds_of, number_of};
ghost use Rattle.control_word.specs.declared.packed.counts.Count.{Count};

use crate::shape::CELL_FUNDS;

/// Width of the number.
pub const NUMBER_BITS: u32 = 32;
/// Width of the funds.
pub const FUNDS_BITS: u32 = 32;

/// Where the funds begin.
pub const FUNDS_SHIFT: u32 = NUMBER_BITS;

/// The number's bits.
pub const NUMBER_MASK: u64 = (1 << NUMBER_BITS) - 1;
/// One handle on a count.
pub const ONE_HANDLE: u64 = 1;
/// One fund on a count: 4,294,967,296.
pub const ONE_FUND: u64 = 1 << FUNDS_SHIFT;
/// What is taken from a count where a fund becomes a handle: 4,294,967,295.
pub const FUND_TURNED: u64 = ONE_FUND - ONE_HANDLE;
/// One handle with its funds on a count, as each handle of a running desk has them:
/// 1,099,511,627,777.
pub const ONE_FUNDED: u64 = CELL_FUNDS as u64 * ONE_FUND + ONE_HANDLE;
/// What is added to a count where a running desk's fund becomes a handle, which brings the others
/// that it is to have: 1,095,216,660,481.
pub const FUND_TURNED_FUNDED: u64 = ONE_FUNDED - ONE_FUND;

/// What a count's word says (own). A block has two: of its object's owners and of its weak handles.
///
/// | bits | part | value |
/// |---|---|---|
/// | 0 to 31 | number | handles that are counted one by one |
/// | 32 to 63 | funds | handles paid for ahead |
///
/// Funds are those that cells still offer, those that loads under way took, those of running desks'
/// handles in hand, and those that half-done calls brought or have to give back.
///
/// Of the owners:
///
/// | number | funds | the object |
/// |---|---|---|
/// | 0 | 0 | isn't live: it was never made, is ending, or is gone |
/// | 0 | some | lives by loads under way alone, which took a fund and haven't turned it yet |
/// | 1 | 0 | has one owner, whose leave is the last |
/// | 1 | some | has one counted owner, and a leave that finds this isn't the last |
/// | more | any | has several owners |
///
/// Of the weak handles, where all owners together count as one more while the object is live or
/// ending:
///
/// | number | funds | the block |
/// |---|---|---|
/// | 0 | 0 | is vacant |
/// | 0 | some | is kept by loads of weak handles under way alone |
/// | 1 | 0 | is vacant after the next leave |
/// | 1 | some | stays in use after the next leave |
/// | more | any | stays in use after the next leave |
#[derive(Clone, Copy, PartialEq, Eq, Debug, Drop)]
pub struct Count {
    pub number: u32,
    pub funds: u32,
}

/// Owner handles and weak handles on a block, as a census lists them: without the one that the
/// owners have in common.
#[derive(Clone, Copy, PartialEq, Eq, Debug, Default, Drop)]
pub struct Counts {
    pub owners: u32,
    pub weaks: u32,
}

/// What a count's word says (own): the very count that was packed.
#[inline]
pub fn unpack_count(word: u64) -> Count
    ensures number { result.number ≡ number_of word }
    ensures funds { result.funds ≡ funds_of word }
    ensures bits { count_bits result ≡ word }
    ensures packed { (count : Count) → IsCount count → word ≡ count_bits count → result ≡ count }
{
    Count {
        number: (word & NUMBER_MASK) as u32,
        funds: (word >> FUNDS_SHIFT) as u32,
    }
}

/// One handle more (own). Condition: the number has room.
#[inline]
pub fn with_handle(word: u64) -> u64
    requires { number_of word < 4294967295 }
    ensures word { result ≡ word + 1 }
    ensures number { number_of result ≡ number_of word + 1 }
    ensures funds { funds_of result ≡ funds_of word }
{
    word + ONE_HANDLE
}

/// One handle less (own). Condition: there is one.
#[inline]
pub fn without_handle(word: u64) -> u64
    requires { 0 < number_of word }
    ensures word { result + 1 ≡ word }
    ensures number { number_of result + 1 ≡ number_of word }
    ensures funds { funds_of result ≡ funds_of word }
{
    word - ONE_HANDLE
}

/// So many funds more (own), as a call brings them for a handle that goes into a cell. Condition:
/// the funds have room.
#[inline]
pub fn with_funds(word: u64, brought: u32) -> u64
    requires { funds_of word + brought < 4294967296 }
    ensures word { result ≡ word + 4294967296 * brought }
    ensures number { number_of result ≡ number_of word }
    ensures funds { funds_of result ≡ funds_of word + brought }
{
    word + u64::from(brought) * ONE_FUND
}

/// So many funds less (own), as a call gives back what it brought or found left. Condition: they
/// are there.
#[inline]
pub fn without_funds(word: u64, returned: u32) -> u64
    requires { returned ≤ funds_of word }
    ensures word { result + 4294967296 * returned ≡ word }
    ensures number { number_of result ≡ number_of word }
    ensures funds { funds_of result + returned ≡ funds_of word }
{
    word - u64::from(returned) * ONE_FUND
}

/// A fund turned into a handle (own): one fund less and one handle more, in one subtraction.
/// Conditions: a fund is there, and the number has room.
#[inline]
pub fn with_fund_turned(word: u64) -> u64
    requires fund { 0 < funds_of word }
    requires room { number_of word < 4294967295 }
    ensures word { result + 4294967295 ≡ word }
    ensures number { number_of result ≡ number_of word + 1 }
    ensures funds { funds_of result + 1 ≡ funds_of word }
{
    word - FUND_TURNED
}

/// Whether a leave that finds this word is the last: of the owners it ends the object
/// ([util.smartptr.shared.dest]), of the weak handles it makes the block vacant (own). A fund that
/// is left stands for another handle.
#[inline]
pub fn is_last(word: u64) -> bool
    ensures { IsTrue result ↔ ((number_of word ≡ 1) × (funds_of word ≡ 0)) }
{
    word == ONE_HANDLE
}

/// What `use_count` tells of this owner word ([util.smartptr.shared.obs]): the number, but 1 where
/// only loads under way hold the object.
#[inline]
pub fn use_count_of(word: u64) -> u32
    ensures counted { 0 < number_of word → result ≡ number_of word }
    ensures under_way { number_of word ≡ 0 → 0 < funds_of word → result ≡ 1 }
    ensures none { number_of word ≡ 0 → funds_of word ≡ 0 → result ≡ 0 }
{
    let Count { number, funds } = unpack_count(word);
    if number == 0 && funds > 0 { 1 } else { number }
}
