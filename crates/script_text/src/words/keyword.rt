//! The first words of statements.

ghost use Rattle.std.specs.Prelude.{◌≡◌, find};
ghost use Rattle.std.specs.Str.{bytes_eq};
ghost use Rattle.text_lines.specs.Reading.{Gives};
ghost use Rattle.script_text.specs.Keywords.{spelling_of, keyword_at, takes_words};

use crate::fault::{Cause, Stop};

/// A statement by its first word.
#[derive(Clone, Copy)]
pub(crate) enum Keyword {
    Make,
    MakeThis,
    Null,
    Empty,
    Reset,
    Copy,
    Count,
    /// A statement on where owners point, or on what they own.
    Place(PlaceKeyword),
    /// A statement on a cell.
    Cell(CellKeyword),
    /// A statement on weak names.
    Weak(WeakKeyword),
}

/// A statement on where owners point, or on what they own, by its first word.
#[derive(Clone, Copy)]
pub(crate) enum PlaceKeyword {
    Move,
    Alias,
    This,
    WeakThis,
    Read,
    Place,
    Same,
    Before,
}

/// A statement on a cell by its first word.
#[derive(Clone, Copy)]
pub(crate) enum CellKeyword {
    Load,
    Store,
    Exchange,
    Compare,
    CompareWeak,
    Holds,
}

/// A statement on weak names by its first word.
#[derive(Clone, Copy)]
pub(crate) enum WeakKeyword {
    Weak,
    Copy,
    Empty,
    Reset,
    Lock,
    Upgrade,
    Count,
    Expired,
}

/// Each statement once.
const KEYWORDS: [Keyword; 29] = [
    Keyword::Make,
    Keyword::MakeThis,
    Keyword::Null,
    Keyword::Empty,
    Keyword::Reset,
    Keyword::Copy,
    Keyword::Count,
    Keyword::Place(PlaceKeyword::Move),
    Keyword::Place(PlaceKeyword::Alias),
    Keyword::Place(PlaceKeyword::This),
    Keyword::Place(PlaceKeyword::WeakThis),
    Keyword::Place(PlaceKeyword::Read),
    Keyword::Place(PlaceKeyword::Place),
    Keyword::Place(PlaceKeyword::Same),
    Keyword::Place(PlaceKeyword::Before),
    Keyword::Cell(CellKeyword::Load),
    Keyword::Cell(CellKeyword::Store),
    Keyword::Cell(CellKeyword::Exchange),
    Keyword::Cell(CellKeyword::Compare),
    Keyword::Cell(CellKeyword::CompareWeak),
    Keyword::Cell(CellKeyword::Holds),
    Keyword::Weak(WeakKeyword::Weak),
    Keyword::Weak(WeakKeyword::Copy),
    Keyword::Weak(WeakKeyword::Empty),
    Keyword::Weak(WeakKeyword::Reset),
    Keyword::Weak(WeakKeyword::Lock),
    Keyword::Weak(WeakKeyword::Upgrade),
    Keyword::Weak(WeakKeyword::Count),
    Keyword::Weak(WeakKeyword::Expired),
];

/// A first word, and the least and the greatest number of words that may follow it.
#[derive(Clone, Copy)]
struct Spelling {
    word: &'static str,
    least: usize,
    most: usize,
}

/// The table of the statements.
fn spelling_of(keyword: Keyword) -> Spelling
    ensures word { result.word.now ≡ (spelling_of keyword).word }
    ensures least { result.least ≡ (spelling_of keyword).least }
    ensures most { result.most ≡ (spelling_of keyword).most }
{
    let (word, least, most) = match keyword {
        Keyword::Make => ("make", 1, 5),
        Keyword::MakeThis => ("makethis", 1, 5),
        Keyword::Null => ("null", 1, 1),
        Keyword::Empty => ("empty", 1, 1),
        Keyword::Reset => ("reset", 1, 1),
        Keyword::Copy => ("copy", 2, 2),
        Keyword::Count => ("count", 1, 1),
        Keyword::Place(PlaceKeyword::Move) => ("move", 2, 2),
        Keyword::Place(PlaceKeyword::Alias) => ("alias", 3, 4),
        Keyword::Place(PlaceKeyword::This) => ("this", 2, 2),
        Keyword::Place(PlaceKeyword::WeakThis) => ("wthis", 2, 2),
        Keyword::Place(PlaceKeyword::Read) => ("read", 1, 1),
        Keyword::Place(PlaceKeyword::Place) => ("place", 1, 1),
        Keyword::Place(PlaceKeyword::Same) => ("same", 2, 2),
        Keyword::Place(PlaceKeyword::Before) => ("before", 2, 2),
        Keyword::Cell(CellKeyword::Load) => ("load", 2, 2),
        Keyword::Cell(CellKeyword::Store) => ("store", 2, 2),
        Keyword::Cell(CellKeyword::Exchange) => ("exchange", 2, 2),
        Keyword::Cell(CellKeyword::Compare) => ("compare", 3, 3),
        Keyword::Cell(CellKeyword::CompareWeak) => ("compare_weak", 3, 3),
        Keyword::Cell(CellKeyword::Holds) => ("holds", 2, 2),
        Keyword::Weak(WeakKeyword::Weak) => ("weak", 2, 2),
        Keyword::Weak(WeakKeyword::Copy) => ("wcopy", 2, 2),
        Keyword::Weak(WeakKeyword::Empty) => ("wempty", 1, 1),
        Keyword::Weak(WeakKeyword::Reset) => ("wreset", 1, 1),
        Keyword::Weak(WeakKeyword::Lock) => ("lock", 2, 2),
        Keyword::Weak(WeakKeyword::Upgrade) => ("upgrade", 2, 2),
        Keyword::Weak(WeakKeyword::Count) => ("wcount", 1, 1),
        Keyword::Weak(WeakKeyword::Expired) => ("expired", 1, 1),
    };
    Spelling { word, least, most }
}

fn is_spelled(keyword: Keyword, word: &[u8]) -> bool
    ensures { result ≡ bytes_eq word.now (spelling_of keyword).word }
{
    word == spelling_of(keyword).word.as_bytes()
}

/// The first of the keywords that a word spells.
fn find_keyword(keywords: &[Keyword], word: &[u8]) -> Option<Keyword>
    ensures { result ≡ find (λ keyword. bytes_eq word.now (spelling_of keyword).word) keywords.now }
{
    keywords
        .iter()
        .copied()
        .find(|keyword| is_spelled(*keyword, word))
}

/// The statement that a first word begins.
#[tactic(auto, unfolding(crate::specs::Keywords::keyword_at))]
pub(crate) fn keyword_of(word: &[u8]) -> Result<Keyword, Stop>
    ensures { Gives (λ keyword. keyword) result (keyword_at word.now) }
{
    match find_keyword(&KEYWORDS, word) {
        Some(keyword) => Ok(keyword),
        None => Err(Stop::Cause(Cause::UnknownStatement)),
    }
}

/// Whether so many words may follow the first.
pub(crate) fn takes(keyword: Keyword, count: usize) -> bool
    ensures { result ≡ takes_words keyword count }
{
    let Spelling { least, most, .. } = spelling_of(keyword);
    least <= count && count <= most
}
