//! The values of variables, by name. Names that begin with the same byte are in the same row.

ghost use Rattle.std.specs.Prelude.{◌≡◌, [], ◌∷◌, ◌<◌, length, None, Some, is_some, true, IfOk, IfErr, IfSome, OnOk};
ghost use Rattle.std.specs.Prelude.{MatchOption, OnErr, option_map};
ghost use Rattle.rc_model.specs.Handed.Image.{value_text};
ghost use Rattle.std.specs.Option.{option_copied};
ghost use Rattle.std.specs.List.Sorted.{IsStrictlySortedBy};
ghost use Rattle.std.specs.Map.{lookup, set_value, remove_entry, keys_of};
ghost use Rattle.std.specs.BTreeMap.{insert_entry};
ghost use Rattle.std.specs.String.{string_cmp};
ghost use Rattle.rc_scope.specs.KeptEntries.{kept_text};
ghost use Rattle.rc_scope.specs.Rows.{row_of, is_named, entries_of, Grows};
ghost use Rattle.rc_scope.specs.Stacks.{covers_in, texts_of, Appends, Returns};

use crate::kept_entries::KeptEntry;
use crate::variables::name_rows::Row;
use crate::variables::value_members::Members;
use rc_text::Text;
use std::alloc::{AllocError, Global};
use std::marker::Model;
use std::mem::replace;

/// The value of a variable, visible or covered.
#[derive(Drop)]
pub(crate) struct Value {
    pub texts: Members,
    /// Whether it covers another value, which is in the log.
    pub covers: bool,
}

impl Clone for Value {
    ghost use Rattle.rc_scope.specs.Copies.{IsValueCopy};

    ghost is_clone = { IsValueCopy };

    fn clone(&self) -> Result<Value, AllocError> {
        Ok(Value {
            texts: self.texts.clone()?,
            covers: self.covers,
        })
    }
}

/// The values of variables: a name is looked up only among those that begin with its first byte.
#[derive(Drop)]
pub(crate) struct Values {
    /// The index of a row is the byte that its names begin with; the empty name is in the first row.
    rows: Vec<Row>,
}

impl Model for Values {
    ghost use Rattle.std.specs.Prelude.{List};
    ghost use Rattle.std.specs.declared.alloc.Global.{Global};
    ghost use Rattle.std.specs.declared.string.String.{String};
    ghost use Rattle.rc_scope.specs.declared.variables.value_rows.Value.{Value as Entry};
    ghost use Rattle.rc_scope.specs.Rows.{entries_of, AreRows};

    ghost Value = { List (String Global × Entry) };

    ghost view = { λ v. entries_of v.rows.items };

    ghost invariant = { λ v. AreRows 0 v.rows.items };
}

/// The index of the row for a name.
fn row_of(name: &str) -> usize
    ensures { result ≡ row_of name.now }
{
    match name.as_bytes() {
        [first, ..] => *first as usize,
        [] => 0,
    }
}

/// Adds empty rows up to this index.
fn grow(rows: &mut Vec<Row>, row: usize) -> Result<(), AllocError>
    ensures ok { OnOk result (row < length rows.new.items) }
    ensures kept { Grows rows.old.items rows.new.items }
{
    while rows.len() <= row {
        rows.push(Row::Empty)?;
    }
    Ok(())
}

impl Values {
    ghost use Rattle.rc_scope.specs.Copies.{AreCopies};

    /// No values.
    pub(crate) fn new(alloc: Global) -> Values
        ensures { result ≡ [] }
    {
        Values {
            rows: Vec::new(alloc),
        }
    }

    /// The value of a name.
    pub(crate) fn get(&self, name: &str) -> Option<&Value>
        ensures { option_copied result ≡ lookup (is_named name.now) self.now }
    {
        let row = row_of(name);
        if self.rows.len() <= row {
            return None;
        }
        self.rows[row].get(name)
    }

    /// Replaces the value of a name, and returns the old one; or returns `value` if the name has none.
    pub(crate) fn replace(&mut self, name: &str, value: Value) -> Result<Value, Value>
        ensures found { IfOk result (λ old. lookup (is_named name.now) self.old ≡ Some old) }
        ensures new { OnOk result (self.new ≡ set_value (is_named name.now) self.old value) }
        ensures absent { OnErr result (lookup (is_named name.now) self.old ≡ None) }
        ensures back { IfErr result (λ given. given ≡ value) }
        ensures same { OnErr result (self.new ≡ self.old) }
        ensures ordered { IsStrictlySortedBy string_cmp (keys_of self.old) }
    {
        let row = row_of(name);
        if self.rows.len() <= row {
            return Err(value);
        }
        let row = &mut self.rows[row];
        if let Some(old) = row.get_mut(name) {
            return Ok(replace(old, value));
        }
        Err(value)
    }

    /// Replaces the texts in the value of a name; or returns them if it has none.
    pub(crate) fn write(&mut self, name: &str, texts: Members) -> Result<(), Members>
        ensures found { OnOk result (is_some (lookup (is_named name.now) self.old) ≡ true) }
        ensures new { OnOk result (self.new ≡ set_value (is_named name.now) self.old
            (record { texts = texts; covers = covers_in name.now self.old })) }
        ensures absent { OnErr result (lookup (is_named name.now) self.old ≡ None) }
        ensures back { IfErr result (λ given. given ≡ texts) }
        ensures same { OnErr result (self.new ≡ self.old) }
        ensures ordered { IsStrictlySortedBy string_cmp (keys_of self.old) }
    {
        let row = row_of(name);
        if self.rows.len() <= row {
            return Err(texts);
        }
        let row = &mut self.rows[row];
        if let Some(value) = row.get_mut(name) {
            value.texts = texts;
            return Ok(());
        }
        Err(texts)
    }

    /// Writes one text over that of the value at a name, whose room it takes; or returns it if there is no value of one
    /// text.
    pub(crate) fn write_one(&mut self, name: &str, text: Text) -> Result<(), Text>
        ensures found { OnOk result (is_some (lookup (is_named name.now) self.old) ≡ true) }
        ensures new { OnOk result (self.new ≡ set_value (is_named name.now) self.old
            (record { texts = text ∷ []; covers = covers_in name.now self.old })) }
        ensures back { IfErr result (λ given. given ≡ text) }
        ensures same { OnErr result (self.new ≡ self.old) }
        ensures ordered { IsStrictlySortedBy string_cmp (keys_of self.old) }
    {
        let row = row_of(name);
        if self.rows.len() <= row {
            return Err(text);
        }
        let row = &mut self.rows[row];
        if let Some(value) = row.get_mut(name) {
            return value.texts.replace_only(text);
        }
        Err(text)
    }

    /// Appends one text to the value at a name; or returns it if the name has none. On `Err` nothing has changed.
    pub(crate) fn append(&mut self, name: &str, text: Text) -> Result<Option<Text>, AllocError>
        ensures ok { IfOk result (λ left. MatchOption left
            (Appends name.now text self.old self.new) (Returns name.now text self.old self.new)) }
        ensures err { OnErr result (self.new ≡ self.old) }
        ensures ordered { IsStrictlySortedBy string_cmp (keys_of self.old) }
    {
        let row = row_of(name);
        if self.rows.len() <= row {
            return Ok(Some(text));
        }
        let row = &mut self.rows[row];
        if let Some(value) = row.get_mut(name) {
            value.texts.push(text)?;
            return Ok(None);
        }
        Ok(Some(text))
    }

    /// The members of the value at a name, which both share from now on; or none if the name has no value.
    pub(crate) fn share(&mut self, alloc: Global, name: &str) -> Result<Option<Members>, AllocError>
        ensures ok { IfOk result (λ found.
            found ≡ option_map (λ (v : Value). v.texts) (lookup (is_named name.now) self.old)) }
        ensures same { self.new ≡ self.old }
    {
        let row = row_of(name);
        if self.rows.len() <= row {
            return Ok(None);
        }
        let row = &mut self.rows[row];
        let Some(value) = row.get_mut(name) else {
            return Ok(None);
        };
        Ok(Some(value.texts.share(alloc)?))
    }

    /// Keeps an entry for the value at a name, if there is one.
    pub(crate) fn keep_entry(&mut self, name: &str, kept: KeptEntry)
        requires { IfSome (lookup (is_named name.now) self.old) (λ v. kept_text kept ≡ value_text (texts_of v)) }
        ensures { self.new ≡ self.old }
    {
        let row = row_of(name);
        if self.rows.len() <= row {
            return;
        }
        let row = &mut self.rows[row];
        let Some(value) = row.get_mut(name) else {
            return;
        };
        value.texts.keep(kept);
    }

    /// Inserts the value of a name. On `Err` nothing has changed.
    pub(crate) fn insert(
        &mut self,
        alloc: Global,
        name: String,
        value: Value,
    ) -> Result<(), AllocError>
        ensures ok { OnOk result (self.new ≡ insert_entry string_cmp self.old name value) }
        ensures err { OnErr result (self.new ≡ self.old) }
        ensures ordered { IsStrictlySortedBy string_cmp (keys_of self.old) }
    {
        let row = row_of(&name);
        grow(&mut self.rows, row)?;
        let row = &mut self.rows[row];
        row.insert(alloc, name, value)?;
        Ok(())
    }

    /// Removes the value of a name, if it has one.
    pub(crate) fn remove(&mut self, name: &str)
        ensures taken { self.new ≡ remove_entry (is_named name.now) self.old }
        ensures gone { lookup (is_named name.now) self.new ≡ None }
    {
        let row = row_of(name);
        if self.rows.len() <= row {
            return;
        }
        let row = &mut self.rows[row];
        row.remove(name);
    }

    /// Copies the values.
    pub(crate) fn copy(&self) -> Result<Values, AllocError>
        ensures { IfOk result (λ copy. AreCopies self.now copy) }
    {
        Ok(Values {
            rows: self.rows.clone()?,
        })
    }

    /// The rows, in byte order of their names.
    pub(crate) fn rows(&self) -> &[Row]
        ensures { entries_of result.now ≡ self.now }
    {
        self.rows.as_slice()
    }
}
