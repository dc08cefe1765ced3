//! Runs a script over a world, and families of shells.
//!
//! The language is that of rc, the shell of Plan 9. It is described in the page rc(1) of the manual of Plan 9, and in
//! Tom Duff's paper "Rc - The Plan 9 Shell".
#![tactic(auto)]

mod family;
mod image;
mod run;
mod script;

pub use family::{Family, FamilyFault};
pub use image::execute_image;
pub use run::{Ran, ShellFault};
pub use script::execute;
