//! A grid as JSON: a line with an object for each row.

use crate::cells::{ColumnHead, Grid, RowCell};
use serde_json::{Map, Value};
use std::alloc::{AllocError, Global};
use std::num::nearest_u64_to_f64;

/// A cell as a JSON value.
fn value_of(alloc: Global, cell: &RowCell) -> Result<Value, AllocError> {
    match cell {
        RowCell::Text(text) => Ok(Value::from(String::from_str(alloc, text.as_str())?)),
        RowCell::Number(number) => Ok(Value::from(*number)),
        RowCell::Thousandths(number) => Ok(Value::from(nearest_u64_to_f64(*number) / 1000.0)),
        RowCell::Nothing => Ok(Value::Null),
    }
}

/// A row as a JSON object, with a value under each column's name.
fn object_of(alloc: Global, heads: &[ColumnHead], row: &[RowCell]) -> Result<Value, AllocError> {
    let mut values = Map::new(alloc);
    for index in 0..heads.len() {
        if let Some(cell) = row.get(index) {
            let name = String::from_str(alloc, heads[index].name)?;
            let value = value_of(alloc, cell)?;
            values.insert(name, value)?;
        }
    }
    Ok(Value::Object(values))
}

/// A grid as JSON, a line for each row.
pub fn json_text(alloc: Global, grid: &Grid) -> Result<String, AllocError> {
    let mut lines = String::new(alloc);
    for row in &grid.rows {
        let object = object_of(alloc, grid.heads.as_slice(), row.as_slice())?;
        let line = object.to_string(alloc)?;
        lines.push_str(line.as_str())?;
        lines.push('\n')?;
    }
    Ok(lines)
}
