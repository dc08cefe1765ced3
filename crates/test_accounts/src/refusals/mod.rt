//! Scripts over a world that refuses calls.

pub mod account_rows;
pub mod accounts;
pub mod calls;
pub mod machine;
pub mod runs;
pub mod trials;
pub mod world;
