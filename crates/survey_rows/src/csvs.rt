//! A grid as CSV: the names of the columns, then a line of fields for each row.

use crate::cells::{Grid, head_texts, row_texts};
use csv::{Writer, WriterBuilder};
use std::alloc::{AllocError, Global};

/// Writes a row. A writer into memory fails only if memory runs out.
fn put_row(writer: &mut Writer<Vec<u8>>, texts: &[String]) -> Result<(), AllocError> {
    for text in texts {
        if writer.write_field(text.as_bytes()).is_err() {
            return Err(AllocError);
        }
    }
    match writer.end_record() {
        Ok(()) => Ok(()),
        Err(_) => Err(AllocError),
    }
}

/// A grid as CSV, with the names of the columns in the first line if they are asked for.
pub fn csv_text(alloc: Global, grid: &Grid, has_header: bool) -> Result<Vec<u8>, AllocError> {
    let mut writer = WriterBuilder::new().from_writer(Vec::new(alloc));
    if has_header {
        let names = head_texts(alloc, grid.heads.as_slice())?;
        put_row(&mut writer, names.as_slice())?;
    }
    for row in &grid.rows {
        let texts = row_texts(alloc, row.as_slice())?;
        put_row(&mut writer, texts.as_slice())?;
    }
    match writer.into_inner() {
        Ok(bytes) => Ok(bytes),
        Err(_) => Err(AllocError),
    }
}
