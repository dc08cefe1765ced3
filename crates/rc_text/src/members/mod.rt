//! The members of a text, one after the other.

mod separators;

ghost use Rattle.std.specs.Prelude.{◌≡◌, [], ◌∷◌, string_bytes, IfOk, MatchOption};
ghost use Rattle.std.specs.Str.{IsUtf8, NoCharPasses};
ghost use Rattle.rc_model.specs.Run.Lists.{split};
ghost use Rattle.rc_text.specs.Members.{among, members_in, IsCut};

use separators::Separators;
use std::alloc::{AllocError, Global};
use std::marker::Model;

/// An iterator over the members of a text: the longest runs of characters that are not separators.
pub struct Members<'a> {
    rest: &'a str,
    separators: Separators,
}

impl Drop for Members<'_> {
    fn drop(self) {
        let Members {
            rest: _,
            separators: _,
        } = self;
    }
}

impl<'a> Model for Members<'a> {
    ghost use Rattle.std.specs.Prelude.{ℕ, List};
    ghost use Rattle.std.specs.Str.{IsUtf8};
    ghost use Rattle.rc_text.specs.Members.{members_in};

    ghost Value = { List (List ℕ) };

    ghost view = { λ m. members_in m.separators m.rest.now };

    ghost invariant = { λ m. IsUtf8 m.rest.now };
}

impl<'a> Members<'a> {
    /// The members of a text, separated by the characters of another.
    pub(crate) fn new(
        alloc: Global,
        text: &'a str,
        separators: &str,
    ) -> Result<Members<'a>, AllocError>
        ensures { IfOk result (λ members. members ≡ split text.now separators.now) }
    {
        let separators = Separators::new(alloc, separators)?;
        Ok(Members {
            rest: text,
            separators,
        })
    }

    /// Returns the next member, and removes it.
    pub fn next(&mut self) -> Option<&'a str>
        ensures { MatchOption result ((self.old ≡ []) × (self.new ≡ [])) (λ member. self.old ≡ member.now ∷ self.new) }
    {
        let (member, rest) = first_member(self.rest, &self.separators)?;
        self.rest = rest;
        Some(member)
    }
}

/// Splits off the first member of the text.
fn first_member<'a>(text: &'a str, separators: &Separators) -> Option<(&'a str, &'a str)>
    requires { IsUtf8 text.now }
    ensures { MatchOption result (members_in separators.now text.now ≡ [])
        (λ parts. (members_in separators.now text.now ≡ parts.0.now ∷ members_in separators.now parts.1.now)
        × IsUtf8 parts.1.now) }
{
    let mut rest = text;
    while let Some((member, more)) = cut(rest, separators) {
        if !member.is_empty() {
            return Some((member, more));
        }
        rest = more;
    }
    if rest.is_empty() {
        return None;
    }
    Some((rest, ""))
}

/// Splits the text at the first separator.
fn cut<'a>(text: &'a str, separators: &Separators) -> Option<(&'a str, &'a str)>
    ensures { MatchOption result (NoCharPasses (among separators.now) text.now)
        (λ parts. IsCut separators.now text.now parts.0.now parts.1.now) }
{
    let skipped = separators.skipped(text);
    let (front, back) = text[skipped..].split_once(|c: char| separators.contains(c))?;
    Some((&text[..skipped + front.len()], back))
}

/// Output, and the characters that separate its members.
pub struct Output {
    text: String,
    separators: String,
}

impl Drop for Output {
    fn drop(self) {
        let Output {
            text: _,
            separators: _,
        } = self;
    }
}

impl Model for Output {
    ghost use Rattle.std.specs.Prelude.{ℕ, List, string_bytes};
    ghost use Rattle.rc_model.specs.Run.Lists.{split};

    ghost Value = { List (List ℕ) };

    ghost view = { λ o. split (string_bytes o.text) (string_bytes o.separators) };
}

impl Output {
    pub fn new(text: String, separators: String) -> Output
        ensures { result ≡ split (string_bytes text) (string_bytes separators) }
    {
        Output { text, separators }
    }

    /// Output with no members.
    #[tactic(auto, using(crate::proofs::Runs::no_members))]
    pub fn empty(alloc: Global) -> Output
        ensures { result ≡ [] }
    {
        Output::new(String::new(alloc), String::new(alloc))
    }

    /// The members of the output.
    pub fn members(&self, alloc: Global) -> Result<Members<'_>, AllocError>
        ensures { IfOk result (λ members. members ≡ self.now) }
    {
        Members::new(alloc, &self.text, &self.separators)
    }
}
