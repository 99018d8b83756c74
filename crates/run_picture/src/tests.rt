//! A picture with each kind of what it shows.

use crate::{Change, Holder, Left, LeftBlock, Picture, Pointer, Row, Touch, draw, run_page};
use control_word::{Block, Counts, Site};
use std::alloc::{AllocError, Global};

fn row(alloc: Global, number: u32, cell: Site, counts: Option<Counts>) -> Result<Row, AllocError> {
    let change = Change { block: 1, counts };
    let pointer = Pointer {
        holder: Holder::Cell(cell),
        block: 1,
        is_owner: true,
    };
    Ok(Row {
        number,
        thread: 1,
        statement: String::from_str(alloc, "1.1 store s0 a<b")?,
        word: "swap",
        lines: vec![in alloc; String::from_str(alloc, "1.1 lock owner")?]?,
        touch: Some(Touch {
            cell,
            writes: true,
            shown: String::from_str(alloc, "b1")?,
        }),
        changes: vec![in alloc; change]?,
        pointers: vec![in alloc; pointer]?,
    })
}

fn picture(alloc: Global) -> Result<Picture, AllocError> {
    let counts = Some(Counts {
        owners: 2,
        weaks: 1,
    });
    let free = row(alloc, 7, Site::Free { number: 0 }, counts)?;
    let member = Site::Member {
        block: Block::numbered(1),
        member: 0,
    };
    let gone = row(alloc, 8, member, None)?;
    let block = LeftBlock {
        block: 1,
        color: "white",
    };
    Ok(Picture {
        threads: 1,
        shared_cells: 128,
        script: String::from_str(alloc, "threads 1\n")?,
        rows: vec![in alloc; free, gone]?,
        left: Some(Left {
            blocks: vec![in alloc; block]?,
            totals: String::from_str(alloc, "made 1 ended 0 left 1")?,
        }),
    })
}

fn drawn(alloc: Global) -> Result<String, AllocError> {
    let picture = picture(alloc)?;
    draw(alloc, &picture)
}

/// What has to stand on it, in this order, by the rules of XML.
const PARTS: [&str; 8] = [
    "<svg xmlns=\"http://www.w3.org/2000/svg\"",
    ">thread 1</text>",
    ">7</text>",
    ">1.1 store s0 a&lt;b</text>",
    ">2 w1</text>",
    ">0 w0</text>",
    ">made 1 ended 0 left 1</text>",
    "</svg>\n",
];

/// Whether these stand on a text, in this order, and nothing behind the last.
fn has_all(text: &str, parts: &[&str]) -> bool {
    let mut rest = text;
    for part in parts {
        match rest.split_once(*part) {
            Some((_, after)) => rest = after,
            None => return false,
        }
    }
    rest.is_empty()
}

#[test]
fn a_picture_shows_its_rows(rt: HostRuntime) {
    match drawn(rt.alloc()) {
        Ok(text) => assert!(&rt; has_all(text.as_str(), &PARTS)),
        Err(_) => panic!(&rt; "no memory"),
    }
}

/// What has to stand on its page, in this order.
const LINES: [&str; 9] = [
    "<!DOCTYPE html>",
    "<pre>threads 1\nact 7 1 swap\nat 1.1 store s0 a&lt;b\nsaid 1.1 lock owner\n",
    "block 1 2 w1\n",
    "free 0 owner 1\n",
    "act 8 1 swap\n",
    "block 1 0 w0\n",
    "member 1 0 owner 1\n",
    "left 1 white\ntotals made 1 ended 0 left 1\n</pre>",
    "</html>\n",
];

fn paged(alloc: Global) -> Result<String, AllocError> {
    let picture = picture(alloc)?;
    run_page(alloc, &picture)
}

#[test]
fn a_page_has_the_lines_of_its_rows(rt: HostRuntime) {
    match paged(rt.alloc()) {
        Ok(text) => assert!(&rt; has_all(text.as_str(), &LINES)),
        Err(_) => panic!(&rt; "no memory"),
    }
}
