//! What a program gets from its process.
ghost use Rattle.std.specs.Prelude.{◌≡◌, ◌==◌, ◌+◌, ◌<◌, ◌≤◌, pos, None, Some, IfOk, IfSome, OnErr, count_by, drop};
ghost use Rattle.std.specs.Prelude.{map, string_bytes, vec_len, ◌↔◌, IsTrue, Err, IsOkAnd, MatchResult};
ghost use Rattle.std.specs.Path.{path_buf_bytes};
ghost use Rattle.rc_host.specs.Names.{entries_in};
ghost use Rattle.rc_host.specs.Process.{arguments_error, is_deleted, own_path, program_link, IsFileLost};
ghost use Rattle.rc_world.specs.Faults.{fault_at};

use crate::ended::{Sort, push_ended};
use crate::files::read_again;
use crate::leaving::open_null;
use rc_model::InputError;
use rc_world::{Fault, fault_of};
use std::alloc::{AllocError, AllocGlobal, Global};
use std::env::FillError;
use std::io::Read;
use std::os::fd::{AsFd, AsRawFd, IntoRawFd};
use std::path::PathBuf;
use std::rt::{Env, HostRuntime};
use std::{env, fs, io, process};
use thiserror::Error;

/// Linux's number for a descriptor that is not open.
const NOT_OPEN: i32 = 9;

/// How many bytes of a long environment are read at first.
const ENVIRONMENT_BYTES: usize = 8_192;

/// For how many entries of the environment there is room at first. An environment that has more is long.
const USUAL_ENTRIES: usize = 64;

/// For how many bytes of an environment that is not long there is room at first.
const USUAL_BYTES: usize = 1_024;

/// For how many bytes of an entry that is taken by its index there is room at first. An environment that has a longer
/// one is long.
const ENTRY_BYTES: usize = 256;

/// The fault of the arguments of a program.
#[derive(Clone, Copy, Debug, Error)]
pub enum ArgumentsFault {
    #[error("an argument is not UTF-8")]
    NotText,
}

/// The arguments of the program, without its own name.
pub fn arguments<R: Env + AllocGlobal>(rt: &R) -> Result<Vec<String>, InputError<ArgumentsFault>> {
    match env::args(rt) {
        Ok(all) => arguments_of(all.collect(rt.alloc())),
        Err(error) => Err(arguments_error(&error)),
    }
}

/// The arguments of a program, by the collection of all words that it was started with.
fn arguments_of(
    all: Result<Vec<String>, AllocError>,
) -> Result<Vec<String>, InputError<ArgumentsFault>>
    ensures { MatchResult all (λ all. IsOkAnd result (λ words. words.items ≡ drop 1 all.items))
        (λ _. result ≡ Err InputError.NoMemory) }
{
    match all {
        Ok(all) => Ok(after_name(all)),
        Err(AllocError) => Err(InputError::NoMemory),
    }
}

/// The arguments after the first, which is the name of the program.
fn after_name(mut all: Vec<String>) -> Vec<String>
    ensures { result.items ≡ drop 1 all.items }
{
    if !all.is_empty() {
        all.remove(0);
    }
    all
}

fn arguments_error(error: &io::Error) -> InputError<ArgumentsFault>
    ensures { result ≡ arguments_error (fault_at error.now) }
{
    match fault_of(error) {
        Fault::NoMemory => InputError::NoMemory,
        _ => InputError::Fault(ArgumentsFault::NotText),
    }
}

/// The entries of the environment that are UTF-8, in their order. A long environment is read from Linux.
pub fn entries(rt: &HostRuntime) -> Result<Vec<String>, AllocError> {
    if !is_present(rt, USUAL_ENTRIES) {
        if let Some(bytes) = usual_environment(rt)? {
            let (entries, _) = entries_in(rt.alloc(), &bytes)?;
            return Ok(entries);
        }
    }
    if let Ok(bytes) = environment(rt) {
        let (entries, count) = entries_in(rt.alloc(), &bytes)?;
        if has_entries(rt, count) {
            return Ok(entries);
        }
    }
    entries_by_place(rt)
}

/// What Linux has of the environment of this process: bytes in which a byte 0 terminates each entry. A read that leaves
/// room is the last one; if it left out an entry, there are fewer than the environment has.
fn environment(rt: &HostRuntime) -> io::Result<Vec<u8>> {
    let mut file = fs::open(rt, "/proc/self/environ")?;
    let mut bytes = vec![in rt.alloc(); 0u8; ENVIRONMENT_BYTES]?;
    let count = read_again(&mut file, &mut bytes)?;
    bytes.truncate(count);
    if count == ENVIRONMENT_BYTES {
        file.read_to_end(&mut bytes)?;
    }
    Ok(bytes)
}

/// The entries that are UTF-8, from bytes in which a byte 0 terminates each entry, and how many entries there are.
fn entries_in(alloc: Global, bytes: &[u8]) -> Result<(Vec<String>, usize), AllocError>
    ensures entries { IfOk result (λ found. map string_bytes found.0.items ≡ entries_in bytes.now) }
    ensures count { IfOk result (λ found. found.1 ≡ count_by (λ byte. byte == 0) bytes.now) }
{
    let mut entries = Vec::with_capacity(alloc, USUAL_ENTRIES)?;
    let count = push_ended(&mut entries, bytes, Sort::Entries)?;
    Ok((entries, count))
}

/// Whether the environment has exactly this many entries.
fn has_entries<R: Env>(rt: &R, count: usize) -> bool {
    !is_present(rt, count) && (count == 0 || is_present(rt, count - 1))
}

/// Whether the environment has an entry at this index.
fn is_present<R: Env>(rt: &R, place: usize) -> bool {
    !matches!(rt.var_at(place, &mut []), Err(FillError::NotPresent))
}

/// The entries of the environment that are UTF-8, in their order, each taken by its index. The C library counts the
/// entries anew for each.
pub fn entries_by_place<R: Env + AllocGlobal>(rt: &R) -> Result<Vec<String>, AllocError> {
    let bytes = environment_by_place(rt)?;
    let (entries, _) = entries_in(rt.alloc(), &bytes)?;
    Ok(entries)
}

/// The environment of this process, each entry taken by its index and terminated by a byte 0.
fn environment_by_place<R: Env + AllocGlobal>(rt: &R) -> Result<Vec<u8>, AllocError> {
    let mut bytes = Vec::with_capacity(rt.alloc(), USUAL_BYTES)?;
    let mut buffer = vec![in rt.alloc(); 0u8; ENTRY_BYTES]?;
    for place in 0..usize::MAX {
        let Some(length) = fill_entry(rt, place, &mut buffer)? else {
            break;
        };
        bytes.extend_from_slice(&buffer[..length])?;
        bytes.push(0)?;
    }
    Ok(bytes)
}

/// The environment of this process as `environment_by_place` returns it, unless it is long.
fn usual_environment<R: Env + AllocGlobal>(rt: &R) -> Result<Option<Vec<u8>>, AllocError> {
    let mut bytes = Vec::with_capacity(rt.alloc(), USUAL_BYTES)?;
    let mut buffer = vec![in rt.alloc(); 0u8; ENTRY_BYTES]?;
    for place in 0..USUAL_ENTRIES + 1 {
        match rt.var_at(place, &mut buffer) {
            Ok(length) => {
                bytes.extend_from_slice(&buffer[..length])?;
                bytes.push(0)?;
            }
            Err(FillError::NotPresent) => return Ok(Some(bytes)),
            Err(FillError::TooLong) => return Ok(None),
        }
    }
    Ok(None)
}

/// Fills the buffer with the entry at an index of the environment, and returns the entry's length. A buffer that is
/// too small is doubled.
fn fill_entry<R: Env>(
    rt: &R,
    place: usize,
    buffer: &mut Vec<u8>,
) -> Result<Option<usize>, AllocError>
    ensures { IfOk result (λ found. IfSome found (λ length. length ≤ vec_len buffer.new)) }
{
    for _ in 0..usize::BITS {
        match rt.var_at(place, buffer) {
            Ok(length) => return Ok(Some(length)),
            Err(FillError::NotPresent) => return Ok(None),
            Err(FillError::TooLong) => buffer.resize(buffer.len().saturating_mul(2), 0)?,
        }
    }
    Err(AllocError)
}

/// What Linux writes after the path of a file that has no name any more.
const DELETED: &[u8] = b" (deleted)";

/// Whether Linux says of a path that its file has no name any more.
fn is_deleted(path: &str) -> bool
    ensures { result ≡ is_deleted path.now }
{
    path.as_bytes().ends_with(DELETED)
}

/// The path with which a program starts itself, given its path according to Linux, and the number of its process: that
/// path, or else, if there is none or its file has no name any more, the link that Linux keeps to the program of a
/// process.
pub fn own_path(
    alloc: Global,
    found: io::Result<PathBuf>,
    process: u32,
) -> Result<String, AllocError>
    ensures found { IfOk found (λ path. IfOk result (λ text.
        string_bytes text ≡ own_path (path_buf_bytes path) process)) }
    ensures unknown { OnErr found (IfOk result (λ text. string_bytes text ≡ program_link process)) }
{
    match found {
        Ok(path) if !is_deleted(path.as_str()) => String::from_str(alloc, path.as_str()),
        _ => format!(in alloc; "/proc/{process}/exe"),
    }
}

/// The link to the program of the process that follows it.
pub(crate) const OWN_LINK: &str = "/proc/self/exe";

/// Linux's number for a program whose file is being written.
const BEING_WRITTEN: i32 = 26;

/// Whether a start is refused since the program's file is gone, or another that can't be started is in its place.
pub(crate) fn is_file_lost(refused: &io::Error) -> bool
    ensures { IsTrue result ↔ IsFileLost refused.now }
{
    matches!(
        refused.raw_os_error(),
        Some(libc::ENOENT | libc::ENOEXEC | libc::EACCES | libc::ENOTDIR | BEING_WRITTEN)
    )
}

/// The path with which this program starts itself. What finds it has three pages of buffers on the stack, which a
/// launch of any other program is not to have.
#[inline(never)]
pub(crate) fn own_program(rt: &HostRuntime) -> Result<String, AllocError> {
    own_path(rt.alloc(), env::current_exe(rt), process::id(rt.process()))
}

/// Opens `/dev/null` as each of the descriptors 0, 1 and 2 that is absent, so that no other file gets its number, and
/// returns how many of them are open then. Call it before any file is opened.
pub fn open_standard(rt: &HostRuntime) -> io::Result<u8>
    ensures { IfOk result (λ count. count ≡ 3) }
{
    let open = open_if_absent(rt, &rt.stdin(), 0)?;
    let open = open_if_absent(rt, &rt.stdout(), open)?;
    open_if_absent(rt, &rt.stderr(), open)
}

/// Opens `/dev/null` as a descriptor that is absent: Linux gives it the lowest free number, so all descriptors below it
/// must be open. `below` is how many of these are, and the result how many are with it.
fn open_if_absent<F: AsFd + AsRawFd>(rt: &HostRuntime, own: &F, below: u8) -> io::Result<u8>
    requires lowest { F.raw_fd own.now ≡ Some (pos below) }
    requires standard { below < 3 }
    ensures { IfOk result (λ count. count ≡ below + 1) }
{
    match own.as_fd().try_clone_to_owned() {
        Err(error) if error.raw_os_error() == Some(NOT_OPEN) => {
            open_null(rt)?.into_raw_fd();
        }
        _ => {}
    }
    Ok(below + 1)
}
