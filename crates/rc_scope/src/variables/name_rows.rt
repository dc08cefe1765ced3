//! The values of the variables whose names begin with the same byte. Most often there is one.

ghost use Rattle.std.specs.Prelude.{◌≡◌, IfErr, IfOk, None, OnErr, OnOk};
ghost use Rattle.std.specs.Borrow.{sem};
ghost use Rattle.std.specs.BTreeMap.{insert_entry};
ghost use Rattle.std.specs.List.Sorted.{IsStrictlySortedBy};
ghost use Rattle.std.specs.Map.{lookup, remove_entry, keys_of};
ghost use Rattle.std.specs.Option.{option_copied, option_copied_mut};
ghost use Rattle.std.specs.String.{string_cmp};
ghost use Rattle.rc_scope.specs.RowLends.{LendsValue};
ghost use Rattle.rc_scope.specs.Rows.{entries_in, is_named};

use crate::variables::value_members::Members;
use crate::variables::value_rows::Value;
use std::alloc::{AllocError, Global};
use std::collections::BTreeMap;
use std::mem::replace;

/// A variable with its value.
#[derive(Drop)]
pub(crate) struct Entry {
    pub name: String,
    pub value: Value,
}

impl Entry {
    /// An empty entry, which takes the place of one that was taken out.
    fn nothing(alloc: Global) -> Entry {
        Entry {
            name: String::new(alloc),
            value: Value {
                texts: Members::none(alloc),
                covers: false,
            },
        }
    }

    /// Whether this is the entry of a name.
    fn is_named(&self, name: &str) -> bool
        ensures { result ≡ is_named name.now self.now.name }
    {
        name == self.name.as_str()
    }
}

impl Clone for Entry {
    ghost use Rattle.rc_scope.specs.RowCopies.{IsEntryCopy};

    ghost is_clone = { IsEntryCopy };

    fn clone(&self) -> Result<Entry, AllocError> {
        Ok(Entry {
            name: self.name.clone()?,
            value: self.value.clone()?,
        })
    }
}

/// The variables whose names begin with the same byte. The box keeps the rows small, since most of them are empty.
pub(crate) enum Row {
    Empty,
    One(Box<Entry>),
    Many(BTreeMap<String, Value>),
}

impl Drop for Row {
    fn drop(self) {
        match self {
            Row::Empty | Row::One(_) | Row::Many(_) => (),
        }
    }
}

impl Clone for Row {
    ghost use Rattle.rc_scope.specs.RowCopies.{IsRowCopy};

    ghost is_clone = { IsRowCopy };

    fn clone(&self) -> Result<Row, AllocError> {
        match self {
            Row::Empty => Ok(Row::Empty),
            Row::One(entry) => Ok(Row::One(entry.clone()?)),
            Row::Many(map) => Ok(Row::Many(map.clone()?)),
        }
    }
}

impl Row {
    /// The value of a name.
    pub(crate) fn get(&self, name: &str) -> Option<&Value>
        ensures { option_copied result ≡ lookup (is_named name.now) (entries_in self.now) }
    {
        match self {
            Row::Empty => None,
            Row::One(entry) => {
                if entry.is_named(name) {
                    Some(&entry.value)
                } else {
                    None
                }
            }
            Row::Many(map) => map.get(name),
        }
    }

    /// The value of a name, to be changed in place.
    pub(crate) fn get_mut(&mut self, name: &str) -> Option<&mut Value>
        ensures* writes_back { sem 𝓛 (LendsValue self.entry name.now result) }
        ensures value { option_copied_mut result ≡ lookup (is_named name.now) (entries_in self.old) }
    {
        match self {
            Row::Empty => None,
            Row::One(entry) => {
                if entry.is_named(name) {
                    Some(&mut entry.value)
                } else {
                    None
                }
            }
            Row::Many(map) => map.get_mut(name),
        }
    }

    /// The entries as a map; or the row as it was, if there is no memory.
    fn into_map(self, alloc: Global) -> Result<BTreeMap<String, Value>, Row>
        ensures ok { IfOk result (λ map. map.entries ≡ entries_in self) }
        ensures err { IfErr result (λ row. entries_in row ≡ entries_in self) }
    {
        let mut map = BTreeMap::new(alloc);
        match self {
            Row::Empty => Ok(map),
            Row::One(mut entry) => {
                let Entry { name, value } = replace(&mut *entry, Entry::nothing(alloc));
                match map.insert(name, value) {
                    Ok(_) => Ok(map),
                    Err(refused) => {
                        let (name, value) = refused.value;
                        *entry = Entry { name, value };
                        Err(Row::One(entry))
                    }
                }
            }
            Row::Many(map) => Ok(map),
        }
    }

    /// Inserts the value of a name into a row that isn't empty. On `Err` nothing has changed.
    fn insert_beside(&mut self, alloc: Global, name: String, value: Value) -> Result<(), AllocError>
        ensures ok { OnOk result (entries_in self.new ≡ insert_entry string_cmp (entries_in self.old) name value) }
        ensures ordered { OnOk result (IsStrictlySortedBy string_cmp (keys_of (entries_in self.new))) }
        ensures err { OnErr result (entries_in self.new ≡ entries_in self.old) }
    {
        match replace(self, Row::Empty).into_map(alloc) {
            Ok(mut map) => {
                let inserted = map.insert(name, value);
                *self = Row::Many(map);
                inserted?;
                Ok(())
            }
            Err(row) => {
                *self = row;
                Err(AllocError)
            }
        }
    }

    /// Inserts the value of a name. On `Err` nothing has changed.
    pub(crate) fn insert(
        &mut self,
        alloc: Global,
        name: String,
        value: Value,
    ) -> Result<(), AllocError>
        ensures ok { OnOk result (entries_in self.new ≡ insert_entry string_cmp (entries_in self.old) name value) }
        ensures ordered { OnOk result (IsStrictlySortedBy string_cmp (keys_of (entries_in self.new))) }
        ensures err { OnErr result (entries_in self.new ≡ entries_in self.old) }
    {
        if let Row::Empty = self {
            *self = Row::One(Box::new(alloc, Entry { name, value })?);
            return Ok(());
        }
        self.insert_beside(alloc, name, value)
    }

    /// Removes the value of a name, if it has one.
    pub(crate) fn remove(&mut self, name: &str)
        ensures taken { entries_in self.new ≡ remove_entry (is_named name.now) (entries_in self.old) }
        ensures gone { lookup (is_named name.now) (entries_in self.new) ≡ None }
        ensures ordered { IsStrictlySortedBy string_cmp (keys_of (entries_in self.new)) }
    {
        match self {
            Row::Empty => return,
            Row::One(entry) => {
                if !entry.is_named(name) {
                    return;
                }
            }
            Row::Many(map) => {
                let _ = map.remove(name);
                return;
            }
        }
        *self = Row::Empty;
    }
}
