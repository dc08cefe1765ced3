//! The open locals of a shell.

ghost use Rattle.std.specs.Prelude.{◌≡◌, IfOk};
ghost use Rattle.rc_scope.specs.Locals.{name_of};

use crate::variables::value_rows::Value;
use std::alloc::{AllocError, Global};

/// The name of a local. The names that the shell itself binds take no memory: each call of a function binds `$*`.
#[derive(Drop)]
pub(crate) enum LocalName {
    Arguments,
    Status,
    Other(String),
}

impl Clone for LocalName {
    ghost use Rattle.rc_scope.specs.Copies.{IsNameCopy};

    ghost is_clone = { IsNameCopy };

    fn clone(&self) -> Result<LocalName, AllocError> {
        match self {
            LocalName::Arguments => Ok(LocalName::Arguments),
            LocalName::Status => Ok(LocalName::Status),
            LocalName::Other(name) => Ok(LocalName::Other(name.clone()?)),
        }
    }
}

impl LocalName {
    /// The local name for this name.
    pub(crate) fn of(alloc: Global, name: &str) -> Result<LocalName, AllocError>
        ensures { IfOk result (λ local. name_of local ≡ name.now) }
    {
        if name == "*" {
            return Ok(LocalName::Arguments);
        }
        Ok(LocalName::Other(String::from_str(alloc, name)?))
    }

    /// The name as a text.
    pub(crate) fn as_str(&self) -> &str
        ensures { result.now ≡ name_of self.now }
    {
        match self {
            LocalName::Arguments => "*",
            LocalName::Status => "status",
            LocalName::Other(name) => name.as_str(),
        }
    }
}

/// An open local.
#[derive(Drop)]
pub(crate) struct Local {
    pub name: LocalName,
    /// The value that it covers, or none if its name had no value.
    pub covered: Value,
}

impl Clone for Local {
    ghost use Rattle.rc_scope.specs.Copies.{IsLocalCopy};

    ghost is_clone = { IsLocalCopy };

    fn clone(&self) -> Result<Local, AllocError> {
        Ok(Local {
            name: self.name.clone()?,
            covered: self.covered.clone()?,
        })
    }
}
