//! The plans of launches: a program gets what its slots name.
use crate::host::{granted, launch};
use rc_host::plan;
use rc_world::{Fault, Handle, Launch, PLAIN_SLOTS, Program, Slot, Slots};
use std::alloc::Global;
use std::test::Fail;

/// The path of the shell.
const SHELL: &str = "/bin/rc";

/// A launch of a program with the argument `x` and the entry `status=`.
fn launched(alloc: Global, path: &str, slots: Slots) -> Result<Launch, Fault> {
    launch(alloc, path, &["x"], &["status="], slots).map_err(|_| Fault::NoMemory)
}

#[test]
fn are_the_program_and_its_slots(rt: HostRuntime) -> Result<(), Fail> {
    let (own, file) = (Slot::Own(2), Slot::To(Handle(7)));
    for (path, input, output, errors) in [
        ("/bin/c", Slot::Own(0), Slot::Own(1), own),
        ("/a=b", file, file, own),
        ("/bin/c", Slot::Own(0), own, own),
        ("/a=b", Slot::Own(0), Slot::Own(1), Slot::Own(1)),
        ("/a=b", Slot::Own(0), own, Slot::Own(1)),
        ("/a=b", own, file, Slot::Own(0)),
    ] {
        let slots = Slots {
            input,
            output,
            errors,
        };
        let launch = granted(launched(rt.alloc(), path, slots))?;
        let plan = plan(&launch, SHELL);
        assert_eq!(rt; plan.program, path);
        assert!(rt; plan.args.len() == 1 && plan.args[0].as_str() == "x");
        assert!(rt; plan.env.len() == 1 && plan.env[0].as_str() == "status=");
        assert!(rt; plan.slots == slots);
    }
    let mut launch = granted(launched(rt.alloc(), "/bin/c", PLAIN_SLOTS))?;
    launch.program = Program::Shell;
    assert_eq!(rt; plan(&launch, SHELL).program, SHELL);
    Ok(())
}
