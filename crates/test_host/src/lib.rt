//! Tests of Linux as a world, for calls when memory runs out and for tests that need descriptors of their own, which
//! start their program again. The calls of `test_linux` show the rest.
#![tactic(auto)]

#[cfg(test)]
mod calls;
#[cfg(test)]
mod descriptors;
#[cfg(test)]
mod environment;
#[cfg(test)]
mod host;
#[cfg(test)]
mod plans;
#[cfg(test)]
mod process;
