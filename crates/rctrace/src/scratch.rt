//! The scratch directory of the runs in which calls are refused.
//!
//! Each run is made in its directory `run`, so that all runs have the same paths: there are the files `calls`,
//! `output`, `errors` and `status`, and the directory `files`, in which the script runs. That of the run without a
//! refusal is called `plain` afterwards, and that of any other one `refused` for a while. The file `differences` has
//! what is shown of them.

use crate::paths::absolute;
use anyhow::{Context, Result};
use std::alloc::AllocError;
use std::fs::{DirBuilder, File};
use std::os::unix::fs::DirBuilderExt;
use std::random::RandomSource;
use std::{env, fs};

/// The mode of the directory, which nobody but its owner may enter.
const PRIVATE: u32 = 0o700;

/// The scratch directory of the runs.
#[derive(Drop)]
pub(crate) struct Scratch {
    rt: HostRuntime,
    path: String,
}

impl Scratch {
    /// Makes a directory with a name that nobody can guess.
    pub(crate) fn new(rt: HostRuntime) -> Result<Scratch> {
        let mut random = [0u8; 16];
        rt.fill_bytes(&mut random)?;
        let number = u128::from_le_bytes(random);
        let parent = absolute(&rt, env::temp_dir(&rt)?.as_str())?;
        let path = format!(in rt.alloc(); "{parent}/rctrace.{number}")?;
        DirBuilder::new()
            .mode(PRIVATE)
            .create(&rt, path.as_str())
            .context(format_args!("cannot create {path}"))?;
        Ok(Scratch { rt, path })
    }

    /// The path of the directory.
    pub(crate) fn path(&self) -> &str {
        &self.path
    }

    /// A path in it.
    pub(crate) fn path_of(&self, name: &str) -> Result<String, AllocError> {
        let parent = &self.path;
        format!(in self.rt.alloc(); "{parent}/{name}")
    }

    /// What a file in it holds.
    pub(crate) fn text(&self, name: &str) -> Result<String> {
        fs::read_to_string(&self.rt, self.path_of(name)?.as_str()).context(format_args!(
            "cannot read {name}"
        ))
    }

    /// The bytes of a file in it.
    pub(crate) fn bytes(&self, name: &str) -> Result<Vec<u8>> {
        fs::read(&self.rt, self.path_of(name)?.as_str()).context(format_args!("cannot read {name}"))
    }

    /// Writes a file in it.
    pub(crate) fn write(&self, name: &str, text: &str) -> Result<()> {
        fs::write(&self.rt, self.path_of(name)?.as_str(), text).context(format_args!(
            "cannot write {name}"
        ))
    }

    /// A file in it, which is made.
    pub(crate) fn create(&self, name: &str) -> Result<File> {
        fs::create(&self.rt, self.path_of(name)?.as_str()).context(format_args!(
            "cannot create {name}"
        ))
    }

    /// A file in it, at whose end is written.
    pub(crate) fn end_of(&self, name: &str) -> Result<File> {
        File::options()
            .append(true)
            .create(true)
            .open(&self.rt, self.path_of(name)?.as_str())
            .context(format_args!("cannot open {name}"))
    }

    /// Makes a directory in it.
    pub(crate) fn make_directory(&self, name: &str) -> Result<()> {
        fs::create_dir(&self.rt, self.path_of(name)?.as_str()).context(format_args!(
            "cannot create {name}"
        ))
    }

    /// Calls what has the first name by the second one.
    pub(crate) fn rename(&self, from: &str, to: &str) -> Result<()> {
        fs::rename(
            &self.rt,
            self.path_of(from)?.as_str(),
            self.path_of(to)?.as_str(),
        )
        .context(format_args!("cannot rename {from}"))
    }

    /// Removes a directory in it.
    pub(crate) fn remove_directory(&self, name: &str) -> Result<()> {
        fs::remove_dir_all(&self.rt, self.path_of(name)?.as_str()).context(
            "cannot remove the files of a run",
        )
    }

    /// Removes the directory.
    pub(crate) fn remove(&self) -> Result<()> {
        let path = self.path();
        fs::remove_dir_all(&self.rt, path).context(format_args!("cannot remove {path}"))
    }
}
