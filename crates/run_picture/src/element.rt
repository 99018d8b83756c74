//! Elements as text (own).
ghost use Rattle.std.specs.Prelude.{◌≡◌, ℕ, ◌∷◌, ◌++◌, List, [], OnOk, codes, decimal, string_bytes};
ghost use Rattle.std.specs.List.{flat_map};
ghost use Rattle.run_picture.specs.ElementTexts.{attribute_text, closing, escaped, opening};
ghost use Rattle.run_picture.specs.ElementTexts.{plain_or_number, value_text};
ghost use Rattle.run_picture.specs.Elements.{Markup, Shows, element, label, rendered, shape};

use std::alloc::AllocError;
use std::fmt::Write;

/// What an attribute says.
#[derive(Clone, Copy)]
pub(crate) enum Value<'a> {
    Word(&'a str),
    Number(u32),
}

/// An attribute of an element.
#[derive(Clone, Copy)]
pub(crate) struct Attribute<'a> {
    pub(crate) name: &'static str,
    pub(crate) value: Value<'a>,
}

/// Adds a byte, or the number of one that isn't printable.
fn put_plain(text: &mut String, byte: u8) -> Result<(), AllocError>
    ensures { OnOk result (string_bytes text.new ≡ string_bytes text.old ++ plain_or_number byte) }
{
    if byte == b'\n' || (b' ' <= byte && byte <= b'~') {
        text.push(char::from(byte))?;
        return Ok(());
    }
    write!(text, "\\{byte}")?;
    Ok(())
}

/// Adds a byte that is shown.
fn put_byte(text: &mut String, byte: u8) -> Result<(), AllocError>
    ensures { OnOk result (string_bytes text.new ≡ string_bytes text.old ++ escaped byte) }
{
    if byte == b'&' {
        text.push_str("&amp;")
    } else if byte == b'<' {
        text.push_str("&lt;")
    } else if byte == b'>' {
        text.push_str("&gt;")
    } else if byte == b'"' {
        text.push_str("&quot;")
    } else {
        put_plain(text, byte)
    }
}

/// Adds bytes that are shown.
fn put_bytes(text: &mut String, bytes: &[u8]) -> Result<(), AllocError>
    ensures { OnOk result (string_bytes text.new ≡ string_bytes text.old ++ flat_map escaped bytes.now) }
{
    for byte in bytes {
        put_byte(text, *byte)?;
    }
    Ok(())
}

/// Adds what an attribute says.
fn put_value(text: &mut String, value: Value<'_>) -> Result<(), AllocError>
    ensures { OnOk result (string_bytes text.new ≡ string_bytes text.old ++ value_text value.entry) }
{
    match value {
        Value::Word(word) => put_bytes(text, word.as_bytes()),
        Value::Number(number) => {
            write!(text, "{number}")?;
            Ok(())
        }
    }
}

/// Adds an attribute.
fn put_attribute(text: &mut String, attribute: &Attribute<'_>) -> Result<(), AllocError>
    ensures { OnOk result (string_bytes text.new ≡ string_bytes text.old ++ attribute_text attribute.now) }
{
    let name = attribute.name;
    write!(text, " {name}=\"")?;
    put_value(text, attribute.value)?;
    text.push_str("\"")?;
    Ok(())
}

/// Adds attributes, in order.
fn put_attributes(text: &mut String, attributes: &[Attribute<'_>]) -> Result<(), AllocError>
    ensures { OnOk result
        (string_bytes text.new ≡ string_bytes text.old ++ flat_map attribute_text attributes.now) }
{
    for attribute in attributes {
        put_attribute(text, attribute)?;
    }
    Ok(())
}

/// Adds how an element begins.
fn put_opening(
    text: &mut String,
    name: &str,
    attributes: &[Attribute<'_>],
) -> Result<(), AllocError>
    ensures { OnOk result (string_bytes text.new ≡ string_bytes text.old ++ opening name.now attributes.now) }
{
    write!(text, "<{name}")?;
    put_attributes(text, attributes)?;
    text.push_str(">")?;
    Ok(())
}

/// Adds how an element ends.
fn put_closing(text: &mut String, name: &str) -> Result<(), AllocError>
    ensures { OnOk result (string_bytes text.new ≡ string_bytes text.old ++ closing name.now) }
{
    writeln!(text, "</{name}>")?;
    Ok(())
}

/// Adds an element with nothing in it (own). Refused where a growth was.
pub(crate) fn put_shape(
    text: &mut String,
    name: &str,
    attributes: &[Attribute<'_>],
) -> Result<(), AllocError>
    ensures text { OnOk result (string_bytes text.new
        ≡ string_bytes text.old ++ rendered (shape name.now attributes.now)) }
    ensures shows { OnOk result (Shows (string_bytes text.old) (string_bytes text.new) []) }
{
    put_opening(text, name, attributes)?;
    put_closing(text, name)?;
    Ok(())
}

/// Adds an element that shows these bytes (own): `&`, `<`, `>` and `"` stand as their entities. What isn't printable
/// stands as a backslash and its number. Refused where a growth was.
pub(crate) fn put_label(
    text: &mut String,
    name: &str,
    attributes: &[Attribute<'_>],
    shown: &[u8],
) -> Result<(), AllocError>
    ensures text { OnOk result (string_bytes text.new
        ≡ string_bytes text.old ++ rendered (label name.now attributes.now shown.now)) }
    ensures shows { OnOk result (Shows (string_bytes text.old) (string_bytes text.new) (shown.now ∷ [])) }
{
    put_opening(text, name, attributes)?;
    put_bytes(text, shown)?;
    put_closing(text, name)?;
    Ok(())
}

/// Adds an element with these elements in it, which are text already (own). Refused where a growth was.
pub(crate) fn put_group(
    text: &mut String,
    name: &str,
    attributes: &[Attribute<'_>],
    inner: &str,
) -> Result<(), AllocError>
    ensures text { (within : Markup) → inner.now ≡ rendered within → OnOk result (string_bytes text.new
        ≡ string_bytes text.old ++ rendered (element name.now attributes.now within Markup.nothing)) }
    ensures shows { (shown : List (List ℕ)) → Shows [] inner.now shown
        → OnOk result (Shows (string_bytes text.old) (string_bytes text.new) shown) }
{
    put_opening(text, name, attributes)?;
    text.push_str(inner)?;
    put_closing(text, name)?;
    Ok(())
}
