//! Warnings for what is accepted and seldom meant.

pub(crate) mod comments;
pub(crate) mod kind;
pub(crate) mod overview;
pub(crate) mod repair;
pub(crate) mod walk;
pub(crate) mod warning;
