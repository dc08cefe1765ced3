//! Paths that stay the same when the directory is changed.

use std::alloc::AllocError;
use std::env;

/// The absolute path of a file, if the current directory can be found; the name alone if it can't.
pub(crate) fn absolute(rt: &HostRuntime, name: &str) -> Result<String, AllocError> {
    if name.starts_with('/') {
        return String::from_str(rt.alloc(), name);
    }
    match env::current_dir(rt) {
        Ok(directory) => format!(in rt.alloc(); "{}/{name}", directory.as_str()),
        Err(_) => String::from_str(rt.alloc(), name),
    }
}
