//! Calls of Linux that name a file. A parameter whose name begins with an underscore is what the caller itself was asked
//! for: a call that asks Linux for anything else has no proof.
ghost use Rattle.std.specs.Prelude.{◌≡◌};
ghost use Rattle.rc_host.specs.Files.{options_of};
ghost use Rattle.rc_host.specs.Names.{directory_path};

use rc_world::Mode;
use std::fs::{File, Metadata, OpenOptions};
use std::rt::HostRuntime;
use std::{env, fs, io};

/// Opens a file.
pub(crate) fn open_file(
    rt: &HostRuntime,
    options: &OpenOptions,
    path: &str,
    _mode: Mode,
    _path: &str,
) -> io::Result<File>
    requires options { options.now ≡ options_of _mode }
    requires path { path.now ≡ _path.now }
{
    options.open(rt, path)
}

/// Opens a directory.
pub(crate) fn open_directory(rt: &HostRuntime, path: &str, _path: &str) -> io::Result<File>
    requires { path.now ≡ directory_path _path.now }
{
    fs::open(rt, path)
}

/// What Linux says of the file at a path, to which a link leads if it is one.
pub(crate) fn metadata(rt: &HostRuntime, path: &str, _path: &str) -> io::Result<Metadata>
    requires { path.now ≡ _path.now }
{
    fs::metadata(rt, path)
}

/// Makes a directory that of this process.
pub(crate) fn enter(rt: &HostRuntime, path: &str, _path: &str) -> io::Result<()>
    requires { path.now ≡ _path.now }
{
    env::set_current_dir(rt, path)
}
