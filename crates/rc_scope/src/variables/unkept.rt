//! The variables that have members whose entry isn't kept.

use crate::variables::name_rows::Row;
use crate::variables::value_rows::Value;
use std::alloc::{AllocError, Global};
use std::collections::BTreeMap;

/// Adds the name of a variable, if it is one of these.
fn push_unkept(names: &mut Vec<String>, name: &String, value: &Value) -> Result<(), AllocError> {
    if value.texts.is_unkept() {
        names.push(name.clone()?)?;
    }
    Ok(())
}

/// Adds the names of those in a map.
fn push_map_unkept(
    names: &mut Vec<String>,
    entries: &BTreeMap<String, Value>,
) -> Result<(), AllocError> {
    for (name, value) in entries {
        push_unkept(names, name, value)?;
    }
    Ok(())
}

/// Adds the names of those in a row.
fn push_row_unkept(names: &mut Vec<String>, row: &Row) -> Result<(), AllocError> {
    match row {
        Row::Empty => Ok(()),
        Row::One(entry) => push_unkept(names, &entry.name, &entry.value),
        Row::Many(map) => push_map_unkept(names, map),
    }
}

/// Their names, of all rows.
pub(crate) fn unkept_in(alloc: Global, rows: &[Row]) -> Result<Vec<String>, AllocError> {
    let mut names = Vec::new(alloc);
    for row in rows {
        push_row_unkept(&mut names, row)?;
    }
    Ok(names)
}
