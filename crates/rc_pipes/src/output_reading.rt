//! Reading to the end.

ghost use Rattle.rc_model.specs.Run.Acts.{read_all};
ghost use Rattle.rc_model.specs.Run.State as model;
ghost use Rattle.rc_world.specs.Comes.{Reads};
ghost use Rattle.rc_pipes.specs.Readings.{got_of};

use rc_world::{Handle, Stop, World, calls};
use std::alloc::Global;

/// The bytes read, and why reading stopped early, if it did.
#[derive(Drop)]
pub(crate) struct ReadBytes {
    pub(crate) bytes: Vec<u8>,
    pub(crate) why: Option<&'static str>,
}

/// Reads up to the empty answer, or until there are more than this many bytes.
pub(crate) fn read_all<W: World>(
    alloc: Global,
    world: &mut W,
    handle: Handle,
    most: usize,
) -> Result<ReadBytes, Stop>
    ensures { (s : model.State) → Reads W.events world.old world.new s (read_all most handle.0) got_of result }
{
    let mut bytes = Vec::new(alloc);
    while bytes.len() <= most {
        let Some(more) = calls::read(world, handle)? else {
            return Ok(ReadBytes {
                bytes,
                why: Some("cannot read"),
            });
        };
        if more.is_empty() {
            return Ok(ReadBytes { bytes, why: None });
        }
        bytes.extend_from_slice(&more)?;
    }
    Ok(ReadBytes {
        bytes,
        why: Some("too large"),
    })
}
