//! Where things stand on a picture, and the elements that it is made of.

ghost use Rattle.std.specs.Prelude.{◌≡◌, ◌∷◌, ◌++◌, [], OnOk, codes, decimal, string_bytes};
ghost use Rattle.std.specs.List.{flat_map};
ghost use Rattle.run_picture.specs.Elements.{Shows};
ghost use Rattle.run_picture.specs.Shown.{block_words};

use crate::element::{Attribute, Value, put_label, put_shape};
use std::alloc::{AllocError, Global};
use std::fmt::Write;

/// Where the first row stands.
pub(crate) const TOP: u32 = 132;
/// How high a line of text is.
pub(crate) const LINE: u32 = 16;
/// How wide a lane is.
pub(crate) const LANE: u32 = 88;
/// How wide and high the box of a block is.
pub(crate) const BOX_WIDTH: u32 = 84;

const BOX_HEIGHT: u32 = 20;
/// Where the first thread's column begins.
pub(crate) const LEFT: u32 = 56;

/// A point of a picture.
#[derive(Clone, Copy)]
pub(crate) struct Point {
    pub x: u32,
    pub y: u32,
}

/// An attribute that is a word.
pub(crate) fn word<'a>(name: &'static str, word: &'a str) -> Attribute<'a> {
    Attribute {
        name,
        value: Value::Word(word),
    }
}

/// An attribute that is a number.
pub(crate) fn number<'a>(name: &'static str, number: u32) -> Attribute<'a> {
    Attribute {
        name,
        value: Value::Number(number),
    }
}

pub(crate) fn at(x: u32, y: u32) -> Point {
    Point { x, y }
}

/// How wide so many characters are.
pub(crate) fn width_of(characters: usize) -> u32 {
    let few = characters.min(1_000) as u32;
    few * 8
}

/// Adds words at a point.
pub(crate) fn put_words(
    text: &mut String,
    class: &'static str,
    point: Point,
    shown: &[u8],
) -> Result<(), AllocError>
    ensures { OnOk result (Shows (string_bytes text.old) (string_bytes text.new) (shown.now ∷ [])) }
{
    let attributes = [
        word("class", class),
        number("x", point.x),
        number("y", point.y),
    ];
    put_label(text, "text", &attributes, shown)
}

/// Adds a line from a point to another.
pub(crate) fn put_line(
    text: &mut String,
    class: &'static str,
    from: Point,
    to: Point,
) -> Result<(), AllocError>
    ensures { OnOk result (Shows (string_bytes text.old) (string_bytes text.new) []) }
{
    let attributes = [
        word("class", class),
        number("x1", from.x),
        number("y1", from.y),
        number("x2", to.x),
        number("y2", to.y),
    ];
    put_shape(text, "line", &attributes)
}

/// Adds a dot at a point.
pub(crate) fn put_dot(
    text: &mut String,
    class: &'static str,
    point: Point,
    radius: u32,
) -> Result<(), AllocError>
    ensures { OnOk result (Shows (string_bytes text.old) (string_bytes text.new) []) }
{
    let attributes = [
        word("class", class),
        number("cx", point.x),
        number("cy", point.y),
        number("r", radius),
    ];
    put_shape(text, "circle", &attributes)
}

/// Adds the head of an arrow, whose tip is at a point.
#[tactic(auto, using(crate::proofs::Showing::shows_none, crate::proofs::Showing::shows_after))]
pub(crate) fn put_head(
    alloc: Global,
    text: &mut String,
    to_right: bool,
    point: Point,
) -> Result<(), AllocError>
    ensures { OnOk result (Shows (string_bytes text.old) (string_bytes text.new) []) }
{
    let Point { x, y } = point;
    let mut path = String::new(alloc);
    write!(path, "M{x} {y}")?;
    path.push_str(if to_right { "l-8 -4v8z" } else { "l8 -4v8z" })?;
    put_path(text, path.as_str())?;
    Ok(())
}

fn put_path(text: &mut String, path: &str) -> Result<(), AllocError>
    ensures { OnOk result (Shows (string_bytes text.old) (string_bytes text.new) []) }
{
    let attributes = [word("class", "head"), word("d", path)];
    put_shape(text, "path", &attributes)
}

/// Adds a box whose upper left corner is at a point.
pub(crate) fn put_box(
    text: &mut String,
    color: &'static str,
    corner: Point,
) -> Result<(), AllocError>
    ensures { OnOk result (Shows (string_bytes text.old) (string_bytes text.new) []) }
{
    let attributes = [
        word("class", "box"),
        word("fill", color),
        number("x", corner.x),
        number("y", corner.y),
        number("width", BOX_WIDTH),
        number("height", BOX_HEIGHT),
    ];
    put_shape(text, "rect", &attributes)
}

/// Adds a number at a point, behind these words.
fn put_counted(
    alloc: Global,
    text: &mut String,
    words: Words,
    number: u32,
    point: Point,
) -> Result<(), AllocError>
    ensures { OnOk result (Shows (string_bytes text.old) (string_bytes text.new)
        ((words.before.now ++ decimal number) ∷ [])) }
{
    let Words { class, before } = words;
    let shown = format!(in alloc; "{before}{number}")?;
    put_words(text, class, point, shown.as_bytes())?;
    Ok(())
}

/// Words of a class.
#[derive(Clone, Copy)]
struct Words {
    class: &'static str,
    before: &'static str,
}

fn title_class(before: &str) -> &'static str {
    if before == "thread " { "title" } else { "lane" }
}

/// Adds the title of a thread or of a lane.
pub(crate) fn put_title(
    alloc: Global,
    text: &mut String,
    before: &'static str,
    number: u32,
    point: Point,
) -> Result<(), AllocError>
    ensures { OnOk result (Shows (string_bytes text.old) (string_bytes text.new)
        ((before.now ++ decimal number) ∷ [])) }
{
    let class = title_class(before);
    put_counted(alloc, text, Words { class, before }, number, point)?;
    Ok(())
}

/// Adds the name of a block that is left.
pub(crate) fn put_left(
    alloc: Global,
    text: &mut String,
    block: u32,
    point: Point,
) -> Result<(), AllocError>
    ensures { OnOk result (Shows (string_bytes text.old) (string_bytes text.new)
        (block_words block)) }
{
    let words = Words {
        class: "left",
        before: "block ",
    };
    put_counted(alloc, text, words, block, point)?;
    Ok(())
}

/// Adds the number of an act.
pub(crate) fn put_number(
    alloc: Global,
    text: &mut String,
    number: u32,
    point: Point,
) -> Result<(), AllocError>
    ensures { OnOk result (Shows (string_bytes text.old) (string_bytes text.new)
        (decimal number ∷ [])) }
{
    let words = Words {
        class: "number",
        before: "",
    };
    put_counted(alloc, text, words, number, point)?;
    Ok(())
}
