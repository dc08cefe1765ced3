//! The recursive descent: a function for each production of the grammar.

pub(crate) mod arguments;
pub(crate) mod command_lists;
pub(crate) mod commands;
pub(crate) mod controls;
pub(crate) mod openings;
pub(crate) mod prefixes;
pub(crate) mod redirections;
pub(crate) mod switches;
pub(crate) mod variable_names;
