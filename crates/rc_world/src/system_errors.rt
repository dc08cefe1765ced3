//! How an `io::Error` maps to a `Fault`.
ghost use Rattle.std.specs.Prelude.{◌≡◌, ◌≢◌};
ghost use Rattle.rc_model.specs.declared.call.Fault.TheVariants.{Halt};
ghost use Rattle.rc_world.specs.Faults.{fault_at};

use rc_model::Fault;
use std::io;
use std::io::ErrorKind;

/// Returns the fault for an error of the system.
pub fn fault_of(error: &io::Error) -> Fault
    ensures meant { result ≡ fault_at error.now }
    ensures answered { result ≢ Halt }
{
    match error.kind() {
        ErrorKind::NotFound => Fault::NotFound,
        ErrorKind::PermissionDenied => Fault::Denied,
        ErrorKind::AlreadyExists => Fault::Exists,
        ErrorKind::BrokenPipe => Fault::Broken,
        ErrorKind::StorageFull => Fault::Full,
        ErrorKind::OutOfMemory if error.raw_os_error().is_none() => Fault::NoMemory,
        _ => Fault::Other,
    }
}
