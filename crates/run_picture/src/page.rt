//! Where the threads' columns and the lanes of a picture are.

use crate::lanes::{Lanes, lanes_of};
use crate::picture::{Picture, Row};
use crate::sheet::{LANE, LEFT, width_of};
use std::alloc::{AllocError, Global};

/// Where each thread's column begins, and where the last ends; and the lanes.
#[derive(Drop)]
pub(crate) struct Page {
    pub columns: Vec<u32>,
    pub lanes: Lanes,
}

/// How wide the text of an act is.
fn wide(row: &Row) -> u32 {
    let act = row.statement.len().saturating_add(row.word.len());
    width_of(act.saturating_add(6))
}

/// How wide each thread's column is.
fn widths_of(alloc: Global, threads: u8, rows: &[Row]) -> Result<Vec<u32>, AllocError> {
    let mut widths = vec![in alloc; 120; usize::from(threads)]?;
    for row in rows {
        let index = usize::from(row.thread.saturating_sub(1));
        if index < widths.len() {
            widths[index] = widths[index].max(wide(row));
        }
    }
    Ok(widths)
}

fn columns_of(alloc: Global, widths: &[u32]) -> Result<Vec<u32>, AllocError> {
    let mut columns = Vec::new(alloc);
    let mut x = LEFT;
    for width in widths {
        columns.push(x)?;
        x = x.saturating_add(*width);
    }
    columns.push(x)?;
    Ok(columns)
}

/// Where a thread's column begins, by its index from 0.
pub(crate) fn column_of(columns: &[u32], index: usize) -> u32 {
    if index < columns.len() {
        columns[index]
    } else {
        LEFT
    }
}

/// Where the parts of a picture are.
pub(crate) fn page_of(alloc: Global, picture: &Picture) -> Result<Page, AllocError> {
    let rows = picture.rows.as_slice();
    let widths = widths_of(alloc, picture.threads, rows)?;
    let columns = columns_of(alloc, widths.as_slice())?;
    let left = column_of(columns.as_slice(), usize::from(picture.threads));
    let lanes = lanes_of(alloc, left.saturating_add(LANE), rows)?;
    Ok(Page { columns, lanes })
}
