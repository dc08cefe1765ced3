//! Children: programs, the stages of pipelines, subshells, commands in the background and backquotes; and opening files
//! of commands.
#![tactic(auto)]

mod backquotes;
mod child_statuses;
mod command_files;
mod jobs;
mod launches;
mod output_reading;
mod programs;
mod stages;
mod statuses;

pub use backquotes::backquote;
pub use child_statuses::{end_refused, end_stages, wait_stages};
pub use command_files::open_file;
pub use jobs::{background, wait_for};
pub use launches::subshell;
pub use programs::{find_program, is_path, run_program, runtime_error};
pub use stages::{LaunchedStages, start_stages};
pub use statuses::misuse;
