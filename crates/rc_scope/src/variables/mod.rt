//! The variables of a shell: a map from names to visible values, and a log of the values that locals cover.

mod locals;
mod member_lists;
mod name_rows;
pub(crate) mod positional_members;
mod unkept;
pub(crate) mod value_members;
mod value_rows;

ghost use Rattle.std.specs.Prelude.{◌≡◌, ◌∷◌, ◌++◌, [], None, false, drop, map, string_bytes, OnOk, OnErr, IfOk};
ghost use Rattle.std.specs.Str.{bytes_eq};
ghost use Rattle.rc_model.specs.Run.State.{status_name, visible, covered, put_values};
ghost use Rattle.rc_model.specs.Handed.Image.{value_text};
ghost use Rattle.std.specs.Map.{lookup, set_value, keys_of};
ghost use Rattle.std.specs.List.Sorted.{IsStrictlySortedBy};
ghost use Rattle.std.specs.String.{string_cmp};
ghost use Rattle.rc_scope.specs.KeptEntries.{kept_text};
ghost use Rattle.rc_scope.specs.Rows.{entries_in, is_named};
ghost use Rattle.rc_scope.specs.Bindings.{bindings_of, bindings_in};
ghost use Rattle.rc_text.specs.Texts.{text_bytes};
ghost use Rattle.rc_scope.specs.Stacks.{names_in, uncovered, without_newest, flat_names, is_listed, Covers, Uncovers};

use crate::kept_entries::KeptEntry;
use crate::names::is_status;
use locals::{Local, LocalName};
use name_rows::Row;
use rc_text::Text;
use std::alloc::{AllocError, Global};
use std::collections::BTreeMap;
use unkept::unkept_in;
use value_members::Members;
use value_rows::{Value, Values};

/// The variables of a shell, with its open locals.
#[derive(Drop)]
pub(crate) struct Variables {
    values: Values,
    /// The open locals, the newest last.
    log: Vec<Local>,
    /// Whether a value has changed since the last search for entries that aren't kept.
    changed: bool,
}

/// A variable with its visible value.
#[derive(Clone, Copy)]
pub struct Binding<'a> {
    pub name: &'a str,
    pub value: &'a Members,
}

/// Whether a variable has members.
#[tactic(auto, using(crate::proofs::Stacks::length_texts))]
fn is_listed(name: &str, texts: &[Text]) -> bool
    ensures { result ≡ is_listed name.now (map text_bytes texts.now) }
{
    !texts.is_empty() && !is_status(name)
}

/// Adds the name of a variable, if it has members.
fn push_name(names: &mut Vec<String>, name: &String, value: &Value) -> Result<(), AllocError>
    ensures { OnOk result (map string_bytes names.new.items
        ≡ map string_bytes names.old.items ++ names_in ((name.now, value.now) ∷ [])) }
{
    if is_listed(name, value.texts.as_slice()) {
        names.push(name.clone()?)?;
    }
    Ok(())
}

/// Adds the names of the variables in a map that have members.
fn push_map_names(
    names: &mut Vec<String>,
    entries: &BTreeMap<String, Value>,
) -> Result<(), AllocError>
    ensures { OnOk result (map string_bytes names.new.items
        ≡ map string_bytes names.old.items ++ names_in entries.now.entries) }
{
    for (name, value) in entries {
        push_name(names, name, value)?;
    }
    Ok(())
}

/// Adds the names of the variables in a row that have members.
fn push_names(names: &mut Vec<String>, row: &Row) -> Result<(), AllocError>
    ensures { OnOk result (map string_bytes names.new.items
        ≡ map string_bytes names.old.items ++ names_in (entries_in row.now)) }
{
    match row {
        Row::Empty => Ok(()),
        Row::One(entry) => push_name(names, &entry.name, &entry.value),
        Row::Many(map) => push_map_names(names, map),
    }
}

/// Adds a variable with its visible value.
fn push_binding<'a>(
    all: &mut Vec<Binding<'a>>,
    name: &'a String,
    value: &'a Value,
) -> Result<(), AllocError>
    ensures { OnOk result (bindings_of all.new.items
        ≡ bindings_of all.old.items ++ bindings_in ((name.now, value.now) ∷ [])) }
{
    all.push(Binding {
        name,
        value: &value.texts,
    })?;
    Ok(())
}

/// Adds each variable of a map with its visible value.
fn push_map_bindings<'a>(
    all: &mut Vec<Binding<'a>>,
    entries: &'a BTreeMap<String, Value>,
) -> Result<(), AllocError>
    ensures { OnOk result (bindings_of all.new.items ≡ bindings_of all.old.items ++ bindings_in entries.now.entries) }
{
    all.reserve(entries.len())?;
    for (name, value) in entries {
        push_binding(all, name, value)?;
    }
    Ok(())
}

/// Adds each variable of a row with its visible value.
fn push_bindings<'a>(all: &mut Vec<Binding<'a>>, row: &'a Row) -> Result<(), AllocError>
    ensures { OnOk result (bindings_of all.new.items
        ≡ bindings_of all.old.items ++ bindings_in (entries_in row.now)) }
{
    match row {
        Row::Empty => Ok(()),
        Row::One(entry) => push_binding(all, &entry.name, &entry.value),
        Row::Many(map) => push_map_bindings(all, map),
    }
}

impl Variables {
    ghost use Rattle.rc_scope.specs.Stacks.{stacks_of, locals_of, stack_in, covers_in};
    ghost use Rattle.rc_scope.specs.Bindings.{visible_values};

    /// No variables.
    #[tactic(auto, unfolding(crate::specs::Stacks::stacks_of, crate::specs::Stacks::locals_of))]
    pub(crate) fn new(alloc: Global) -> Variables
        ensures stacks { stacks_of result ≡ [] }
        ensures locals { locals_of result ≡ [] }
    {
        Variables {
            values: Values::new(alloc),
            log: Vec::new(alloc),
            changed: true,
        }
    }

    /// The visible value of a variable: empty if it was never assigned.
    #[tactic(auto, using(crate::proofs::Stacks::variables), unfolding(crate::specs::Stacks::stacks_of))]
    pub(crate) fn get(&self, name: &str) -> &[Text]
        ensures { map text_bytes result.now ≡ visible (stack_in (stacks_of self.now) name.now) }
    {
        match self.values.get(name) {
            Some(value) => value.texts.as_slice(),
            None => &[],
        }
    }

    /// Changes the visible value. On `Err` nothing has changed.
    #[tactic(auto, using(crate::proofs::Stacks::variables), unfolding(crate::specs::Stacks::stacks_of))]
    pub(crate) fn set(
        &mut self,
        alloc: Global,
        name: &str,
        texts: Members,
    ) -> Result<(), AllocError>
        ensures ok { OnOk result (stacks_of self.new
            ≡ put_values (stacks_of self.old) name.now (map text_bytes texts
            ∷ covered (stack_in (stacks_of self.old) name.now))) }
        ensures locals { locals_of self.new ≡ locals_of self.old }
        ensures err { OnErr result (stacks_of self.new ≡ stacks_of self.old) }
    {
        self.changed = true;
        let Err(texts) = self.values.write(name, texts) else {
            return Ok(());
        };
        let name = String::from_str(alloc, name)?;
        let value = Value {
            texts,
            covers: false,
        };
        self.values.insert(alloc, name, value)
    }

    /// Changes the visible value to one text. An `Err` changes nothing.
    #[tactic(auto, using(crate::proofs::Stacks::variables), unfolding(crate::specs::Stacks::stacks_of))]
    pub(crate) fn set_one(
        &mut self,
        alloc: Global,
        name: &str,
        text: Text,
    ) -> Result<(), AllocError>
        ensures ok { OnOk result (stacks_of self.new
            ≡ put_values (stacks_of self.old) name.now ((text_bytes text ∷ [])
            ∷ covered (stack_in (stacks_of self.old) name.now))) }
        ensures locals { locals_of self.new ≡ locals_of self.old }
        ensures err { OnErr result (stacks_of self.new ≡ stacks_of self.old) }
    {
        self.changed = true;
        let Err(text) = self.values.write_one(name, text) else {
            return Ok(());
        };
        let texts = Members::one(alloc, text)?;
        self.set(alloc, name, texts)
    }

    /// Appends one text to the visible value. An `Err` changes nothing.
    #[tactic(auto, using(crate::proofs::Stacks::variables), unfolding(crate::specs::Stacks::stacks_of))]
    pub(crate) fn append(&mut self, alloc: Global, name: &str, text: Text) -> Result<(), AllocError>
        ensures ok { OnOk result (stacks_of self.new
            ≡ put_values (stacks_of self.old) name.now
            ((visible (stack_in (stacks_of self.old) name.now) ++ text_bytes text ∷ [])
            ∷ covered (stack_in (stacks_of self.old) name.now))) }
        ensures locals { locals_of self.new ≡ locals_of self.old }
        ensures err { OnErr result (stacks_of self.new ≡ stacks_of self.old) }
    {
        self.changed = true;
        let Some(text) = self.values.append(name, text)? else {
            return Ok(());
        };
        let texts = Members::one(alloc, text)?;
        self.set(alloc, name, texts)
    }

    /// Keeps an entry for the visible value, if there is one.
    #[tactic(auto, using(crate::proofs::Stacks::variables), unfolding(crate::specs::Stacks::stacks_of))]
    pub(crate) fn keep_entry(&mut self, name: &str, kept: KeptEntry)
        requires { kept_text kept ≡ value_text (visible (stack_in (stacks_of self.old) name.now)) }
        ensures stacks { stacks_of self.new ≡ stacks_of self.old }
        ensures locals { locals_of self.new ≡ locals_of self.old }
    {
        self.values.keep_entry(name, kept);
    }

    /// Removes the first members of the visible value. On `Err` nothing has changed.
    #[tactic(auto, using(crate::proofs::Stacks::variables), unfolding(crate::specs::Stacks::stacks_of))]
    pub(crate) fn drop_first(
        &mut self,
        alloc: Global,
        name: &str,
        count: usize,
    ) -> Result<(), AllocError>
        ensures ok { OnOk result (stacks_of self.new
            ≡ put_values (stacks_of self.old) name.now (drop count (visible (stack_in (stacks_of self.old) name.now))
            ∷ covered (stack_in (stacks_of self.old) name.now))) }
        ensures locals { locals_of self.new ≡ locals_of self.old }
        ensures err { OnErr result (stacks_of self.new ≡ stacks_of self.old) }
    {
        self.changed = true;
        let nothing = Value {
            texts: Members::none(alloc),
            covers: false,
        };
        let Ok(mut value) = self.values.replace(name, nothing) else {
            return self.set(alloc, name, Members::none(alloc));
        };
        value.texts.drop_first(count);
        let _ = self.values.replace(name, value);
        Ok(())
    }

    /// Covers the value of a name, and returns the covered one: an empty one if it has none.
    fn cover(&mut self, alloc: Global, name: &str, texts: Members) -> Result<Value, AllocError>
        ensures ok { IfOk result (λ old.
            Covers name.now (map text_bytes texts) self.old.values self.new.values old) }
        ensures err { OnErr result (self.new.values ≡ self.old.values) }
        ensures log { self.new.log ≡ self.old.log }
    {
        let covering = Value {
            texts,
            covers: true,
        };
        match self.values.replace(name, covering) {
            Ok(covered) => Ok(covered),
            Err(Value { texts, .. }) => self.put(alloc, name, texts),
        }
    }

    /// Inserts the value of a name that has none, and returns an empty one.
    fn put(&mut self, alloc: Global, name: &str, texts: Members) -> Result<Value, AllocError>
        requires { lookup (is_named name.now) self.old.values ≡ None }
        ensures ok { IfOk result (λ old.
            Covers name.now (map text_bytes texts) self.old.values self.new.values old) }
        ensures err { OnErr result (self.new.values ≡ self.old.values) }
        ensures log { self.new.log ≡ self.old.log }
    {
        let name = String::from_str(alloc, name)?;
        let value = Value {
            texts,
            covers: false,
        };
        self.values.insert(alloc, name, value)?;
        Ok(Value {
            texts: Members::none(alloc),
            covers: false,
        })
    }

    /// Opens a local with this value. On `Err` nothing has changed.
    #[tactic(auto, using(crate::proofs::Stacks::variables), unfolding(crate::specs::Stacks::stacks_of))]
    pub(crate) fn push(
        &mut self,
        alloc: Global,
        name: &str,
        texts: Members,
    ) -> Result<(), AllocError>
        requires { bytes_eq name.now status_name ≡ false }
        ensures ok { OnOk result (stacks_of self.new
            ≡ put_values (stacks_of self.old) name.now (map text_bytes texts
            ∷ stack_in (stacks_of self.old) name.now)) }
        ensures locals { OnOk result (locals_of self.new ≡ name.now ∷ locals_of self.old) }
        ensures err { OnErr result (stacks_of self.new ≡ stacks_of self.old) }
        ensures err_locals { OnErr result (locals_of self.new ≡ locals_of self.old) }
    {
        self.changed = true;
        let local = LocalName::of(alloc, name)?;
        self.log.reserve(1)?;
        let covered = self.cover(alloc, name, texts)?;
        self.log.push(Local {
            name: local,
            covered,
        })?;
        Ok(())
    }

    /// Members that share the list of the visible value. Whether it fails or not, nothing has changed.
    #[tactic(auto, using(crate::proofs::Stacks::variables), unfolding(crate::specs::Stacks::stacks_of))]
    fn share(&mut self, alloc: Global, name: &str) -> Result<Members, AllocError>
        ensures ok { IfOk result (λ texts. map text_bytes texts ≡ visible (stack_in (stacks_of self.old) name.now)) }
        ensures stacks { stacks_of self.new ≡ stacks_of self.old }
        ensures locals { locals_of self.new ≡ locals_of self.old }
    {
        match self.values.share(alloc, name)? {
            Some(texts) => Ok(texts),
            None => Ok(Members::none(alloc)),
        }
    }

    /// Opens a local with the members of the visible value, which both share. On `Err` nothing has changed.
    #[tactic(auto, using(crate::proofs::Stacks::variables), unfolding(crate::specs::Stacks::stacks_of))]
    pub(crate) fn push_visible(&mut self, alloc: Global, name: &str) -> Result<(), AllocError>
        requires { bytes_eq name.now status_name ≡ false }
        ensures ok { OnOk result (stacks_of self.new
            ≡ put_values (stacks_of self.old) name.now (visible (stack_in (stacks_of self.old) name.now)
            ∷ stack_in (stacks_of self.old) name.now)) }
        ensures locals { OnOk result (locals_of self.new ≡ name.now ∷ locals_of self.old) }
        ensures err { OnErr result (stacks_of self.new ≡ stacks_of self.old) }
        ensures err_locals { OnErr result (locals_of self.new ≡ locals_of self.old) }
    {
        let texts = self.share(alloc, name)?;
        self.push(alloc, name, texts)
    }

    /// Opens a local of the status, which covers nothing. On `Err` nothing has changed.
    #[tactic(auto, using(crate::proofs::Stacks::variables), unfolding(crate::specs::Stacks::stacks_of))]
    pub(crate) fn push_status(&mut self, alloc: Global) -> Result<(), AllocError>
        ensures stacks { stacks_of self.new ≡ stacks_of self.old }
        ensures ok { OnOk result (locals_of self.new ≡ status_name ∷ locals_of self.old) }
        ensures err { OnErr result (locals_of self.new ≡ locals_of self.old) }
    {
        let covered = Value {
            texts: Members::none(alloc),
            covers: false,
        };
        self.log.push(Local {
            name: LocalName::Status,
            covered,
        })?;
        Ok(())
    }

    /// Restores the covered value of a name, and returns whether that value covers another.
    fn restore(&mut self, name: &str, covered: Value) -> bool
        ensures covers { result ≡ covers_in name.now self.old.values }
        ensures written { self.new.values ≡ set_value (is_named name.now) self.old.values covered }
        ensures ordered { IsStrictlySortedBy string_cmp (keys_of self.old.values) }
        ensures log { self.new.log ≡ self.old.log }
    {
        match self.values.replace(name, covered) {
            Ok(ended) => ended.covers,
            Err(_) => false,
        }
    }

    /// Makes the value that a local covers visible. It allocates nothing: its name is there.
    fn uncover(&mut self, local: Local)
        ensures values { Uncovers local self.old.values self.new.values }
        ensures log { self.new.log ≡ self.old.log }
    {
        let Local { name, covered } = local;
        let name = name.as_str();
        if is_status(name) {
            return;
        }
        if self.restore(name, covered) {
            return;
        }
        self.values.remove(name);
    }

    /// Ends the newest local.
    #[tactic(auto, using(crate::proofs::Stacks::variables), unfolding(crate::specs::Stacks::stacks_of))]
    pub(crate) fn pop(&mut self)
        ensures stacks { stacks_of self.new ≡ uncovered (locals_of self.old) (stacks_of self.old) }
        ensures locals { locals_of self.new ≡ without_newest (locals_of self.old) }
    {
        let Some(local) = self.log.pop() else {
            return;
        };
        self.changed = true;
        self.uncover(local);
    }

    /// The names of the variables that have members, in byte order.
    #[tactic(auto, using(crate::proofs::Stacks::names), unfolding(crate::specs::Stacks::stacks_of))]
    pub(crate) fn names(&self, alloc: Global) -> Result<Vec<String>, AllocError>
        ensures { IfOk result (λ names. map string_bytes names.items ≡ flat_names (stacks_of self.now)) }
    {
        let mut names = Vec::new(alloc);
        for row in self.values.rows() {
            push_names(&mut names, row)?;
        }
        Ok(names)
    }

    /// Each variable with its visible value, in byte order of the names.
    #[tactic(auto, using(crate::proofs::Stacks::names), unfolding(crate::specs::Stacks::stacks_of))]
    pub(crate) fn bindings(&self, alloc: Global) -> Result<Vec<Binding<'_>>, AllocError>
        ensures { IfOk result (λ all. bindings_of all.items ≡ visible_values (stacks_of self.now)) }
    {
        let mut all = Vec::new(alloc);
        for row in self.values.rows() {
            push_bindings(&mut all, row)?;
        }
        Ok(all)
    }

    /// The names of the variables that have members whose entry isn't kept: none if no value has changed since the last
    /// call.
    #[tactic(auto, unfolding(crate::specs::Stacks::stacks_of, crate::specs::Stacks::locals_of))]
    pub(crate) fn unkept(&mut self, alloc: Global) -> Result<Vec<String>, AllocError>
        ensures stacks { stacks_of self.new ≡ stacks_of self.old }
        ensures locals { locals_of self.new ≡ locals_of self.old }
    {
        if !self.changed {
            return Ok(Vec::new(alloc));
        }
        let names = unkept_in(alloc, self.values.rows())?;
        self.changed = false;
        Ok(names)
    }

    /// Copies the variables, with the open locals.
    #[tactic(auto, using(crate::proofs::Copies::variables))]
    pub(crate) fn copy(&self) -> Result<Variables, AllocError>
        ensures stacks { IfOk result (λ copy. stacks_of copy ≡ stacks_of self.now) }
        ensures locals { IfOk result (λ copy. locals_of copy ≡ locals_of self.now) }
    {
        Ok(Variables {
            values: self.values.copy()?,
            log: self.log.clone()?,
            changed: true,
        })
    }
}
