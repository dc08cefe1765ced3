//! What the environment of a launch is made of.

use crate::functions::Definition;
use crate::variables::Binding;

/// Each variable with its visible value, and each function, in byte order of their names.
#[derive(Drop)]
pub struct Environment<'a> {
    pub variables: Vec<Binding<'a>>,
    pub functions: Vec<Definition<'a>>,
}

/// The names of variables and functions whose entry in an environment isn't kept.
#[derive(Drop)]
pub struct Unkept {
    pub variables: Vec<String>,
    pub functions: Vec<String>,
}
