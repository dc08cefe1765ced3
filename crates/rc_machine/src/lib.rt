//! The virtual machine, which runs compiled code over a world.
#![tactic(auto)]

mod configuration;
mod control;
mod descriptors;
mod expressions;
mod fused;
mod machine;
mod stack;
mod steps;

pub use machine::{Machine, Progress};
