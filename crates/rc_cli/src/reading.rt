//! Reading a script.
ghost use Rattle.std.specs.Prelude.{◌≡◌, ◌⊎◌, ◌<◌, ◌++◌, List, ℕ, None, Err, IfOk, IfErr, IfSome, OnOk, length};
ghost use Rattle.std.specs.Io.KnownBytes.{Consumes, IsAtEnd, Keeps};
ghost use Rattle.std.specs.IoError.{error_kind};
ghost use Rattle.rc_cli.specs.Runs.{IsScriptOf};
ghost use Rattle.rc_cli.specs.declared.run_error.RunError.TheVariants.{CannotRead, NoMemory};

use crate::run_error::RunError;
use rc_model::limits::LONGEST_SCRIPT;
use std::alloc::Global;
use std::io;
use std::io::{ErrorKind, Read};

/// How many bytes of a script are read at once.
const PART_BYTES: usize = 4_096;

/// One byte more than a script may have.
const MOST_BYTES: u64 = LONGEST_SCRIPT as u64 + 1;

/// Reads the bytes of the script from an input of this name, if it could be opened. It reads no more than it takes to
/// see that the script is too long.
pub(crate) fn read_script<'a, R: Read + Drop>(
    alloc: Global,
    input: Option<R>,
    name: &'a str,
) -> Result<Vec<u8>, RunError<'a>>
    ensures script { IfOk result (λ script. IfSome input (λ r. IsScriptOf (R.remaining r) script.items)) }
    ensures unopened { input ≡ None → result ≡ Err (CannotRead name.entry) }
    ensures err { IfErr result (λ error. (error ≡ CannotRead name.entry) ⊎ (error ≡ NoMemory)) }
{
    let Some(input) = input else {
        return Err(RunError::CannotRead(name));
    };
    match read_whole(alloc, &mut input.take(MOST_BYTES)) {
        Ok(script) => Ok(script),
        Err(error) => Err(RunError::at(&error, RunError::CannotRead(name))),
    }
}

/// Reads once, appends what was read, and returns its length: 0 only at the end of the input.
fn read_part<R: Read>(input: &mut R, part: &mut [u8], bytes: &mut Vec<u8>) -> io::Result<usize>
    requires { 0 < length part.old }
    ensures length { length part.new ≡ length part.old }
    ensures read { OnOk result ((read : List ℕ) × (bytes.new.items ≡ bytes.old.items ++ read)
        × Consumes (R.remaining input.old) (R.remaining input.new) read) }
    ensures end { IfOk result (λ count. count ≡ 0 → IsAtEnd (R.remaining input.new)) }
    ensures interrupted { IfErr result (λ error. error_kind error ≡ ErrorKind.Interrupted
        → (bytes.new.items ≡ bytes.old.items) × Keeps (R.remaining input.old) (R.remaining input.new)) }
{
    let count = input.read(part)?;
    bytes.extend_from_slice(&part[..count])?;
    Ok(count)
}

/// Reads all bytes that an input has left. The room for a part of them is filled with zeros once; `read_to_end` would
/// fill it for each read.
fn read_whole<R: Read>(alloc: Global, input: &mut R) -> io::Result<Vec<u8>>
    ensures { IfOk result (λ bytes. IfSome (R.remaining input.old) (λ all. bytes.items ≡ all)) }
{
    let mut bytes = Vec::new(alloc);
    let mut part = vec![in alloc; 0u8; PART_BYTES]?;
    for _ in 0..u64::MAX {
        match read_part(input, &mut part, &mut bytes) {
            Ok(0) => return Ok(bytes),
            Ok(_) => {}
            Err(error) if error.kind() == ErrorKind::Interrupted => {}
            Err(error) => return Err(error),
        }
    }
    Err(io::Error::from(ErrorKind::Other))
}
