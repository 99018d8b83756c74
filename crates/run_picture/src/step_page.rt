//! Pages on which runs are gone through act by act.

ghost use Rattle.std.specs.Prelude.{◌≡◌, ◌++◌, IfOk, OnOk, string_bytes};
ghost use Rattle.run_picture.specs.Pages.{head_text, lines_element, page_text, run_lines};
ghost use Rattle.run_picture.specs.Pages.{with_scripts};

use crate::element::put_label;
use crate::page_head::HEAD;
use crate::page_reader::READER;
use crate::page_view::VIEW;
use crate::picture::Picture;
use crate::run_lines::put_run;
use std::alloc::{AllocError, Global};

/// The lines of a picture's run, as they stand on a page (own): those of the script, of each row just
/// once, in order, and of what is left. Refused where a growth was.
pub fn run_text(alloc: Global, picture: &Picture) -> Result<String, AllocError>
    ensures { IfOk result (λ text. string_bytes text ≡ run_lines picture.now) }
{
    let mut lines = String::new(alloc);
    put_run(&mut lines, picture)?;
    Ok(lines)
}

/// The head of a page, which is the same on each (own).
pub fn begin_page(alloc: Global) -> Result<String, AllocError>
    ensures { IfOk result (λ text. string_bytes text ≡ head_text) }
{
    let mut text = String::new(alloc);
    text.push_str(HEAD)?;
    Ok(text)
}

/// Adds lines to a page, in one element (own).
pub fn put_lines(text: &mut String, lines: &[u8]) -> Result<(), AllocError>
    ensures { OnOk result (string_bytes text.new ≡ string_bytes text.old ++ lines_element lines.now) }
{
    put_label(text, "pre", &[], lines)
}

/// Adds a page's scripts, which are the same on each, and its end (own).
pub fn put_scripts(text: &mut String) -> Result<(), AllocError>
    ensures { OnOk result (string_bytes text.new ≡ with_scripts (string_bytes text.old)) }
{
    text.push_str(READER)?;
    text.push_str(VIEW)?;
    Ok(())
}

/// A picture's run as the text of one HTML page, on which it is gone through act by act (own): a
/// head and a tail, which are the same on each page, and between them, in one element, the lines of
/// the script, of each row just once, in order, and of what is left. Refused where a growth was.
pub fn run_page(alloc: Global, picture: &Picture) -> Result<String, AllocError>
    ensures { IfOk result (λ text. string_bytes text ≡ page_text picture.now) }
{
    let lines = run_text(alloc, picture)?;
    let mut text = begin_page(alloc)?;
    put_lines(&mut text, lines.as_bytes())?;
    put_scripts(&mut text)?;
    Ok(text)
}
