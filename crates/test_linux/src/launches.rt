//! The notation for launches: three descriptors, `1` for an own one and `f1` for the file 1; the entries of the
//! environment, each after `+`; the program, which is `shell` if the shell starts itself; and its arguments.

use crate::calls::unescaped;
use anyhow::{Result, anyhow};
use rc_text::Text;
use rc_world::{Handle, Launch, Program, Slot, Slots};
use std::alloc::Global;

/// Parses a descriptor.
pub fn slot(written: &str) -> Result<Slot> {
    Ok(match written.strip_prefix('f') {
        Some(number) => Slot::To(Handle(number.parse::<u32>()?)),
        None => Slot::Own(written.parse::<u8>()?),
    })
}

fn program(path: String) -> Program {
    if path.as_str() == "shell" {
        Program::Shell
    } else {
        Program::Path(path)
    }
}

/// Parses a launch.
pub fn launch(alloc: Global, written: &str) -> Result<Launch> {
    let mut words = written.split(' ');
    let (Some(input), Some(output), Some(errors)) = (words.next(), words.next(), words.next())
    else {
        return Err(anyhow!("a launch without its descriptors"));
    };
    let slots = Slots {
        input: slot(input)?,
        output: slot(output)?,
        errors: slot(errors)?,
    };
    let mut env = Vec::new(alloc);
    let mut args = Vec::new(alloc);
    for word in words {
        match word.strip_prefix('+') {
            Some(entry) => env.push(Text::from_string(alloc, unescaped(alloc, entry)?)?)?,
            None => args.push(Text::from_string(alloc, unescaped(alloc, word)?)?)?,
        }
    }
    if args.is_empty() {
        return Err(anyhow!("a launch without a program"));
    }
    let path = args.remove(0).into_string(alloc)?;
    Ok(Launch {
        program: program(path),
        args,
        env,
        slots,
    })
}
