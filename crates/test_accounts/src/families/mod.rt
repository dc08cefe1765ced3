//! Families of shells, in the steps of rows and in many orders.

pub mod accounts;
pub mod fault;
pub mod measure;
pub mod orders;
pub mod rows;
pub mod runs;
pub mod trees;
