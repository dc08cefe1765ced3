//! Calls when memory runs out.
use crate::host::{granted, host, launch, read_all};
use rc_world::{Ending, Kind, Mode, PLAIN_SLOTS, Slot, World};
use std::test::Fail;

#[test]
fn out_of_memory_is_answered(rt: HostRuntime) -> Result<(), Fail> {
    let alloc = rt.alloc();
    let mut host = host(rt)?;
    let (reader, writer) = granted(host.pipe())?;
    let mut child = launch(
        alloc,
        "/bin/echo",
        &["a", "b"],
        &["a=1", "b=2"],
        PLAIN_SLOTS,
    )?;
    child.slots.output = Slot::To(writer);
    let started = granted(host.start(&child))?;
    granted(host.close(writer))?;
    assert!(rt; read_all(alloc, &mut host, reader)?.as_str() == "a b\n");
    assert!(rt; granted(host.wait(started))? == Ending::Code(0));
    let here = granted(host.here("text"))?;
    assert!(rt; read_all(alloc, &mut host, here)?.as_str() == "text");
    let nothing = granted(host.open("/dev/null", Mode::Read))?;
    assert!(rt; read_all(alloc, &mut host, nothing)?.is_empty());
    assert!(rt; !granted(host.list("/"))?.is_empty());
    assert!(rt; granted(host.probe("/bin/sh"))? == Kind::Program);
    granted(host.chdir("/"))?;
    granted(host.write(Slot::Own(1), b"text\n"))?;
    Ok(())
}

#[test]
fn out_of_memory_starts_nothing(rt: HostRuntime) -> Result<(), Fail> {
    let alloc = rt.alloc();
    let mut host = host(rt)?;
    let (reader, writer) = granted(host.pipe())?;
    let mut child = launch(alloc, "/bin/echo", &["started"], &[], PLAIN_SLOTS)?;
    child.slots.output = Slot::To(writer);
    let started = host.start(&child);
    granted(host.close(writer))?;
    // The pipe has what a child has written.
    let wanted = if started.is_ok() { "started\n" } else { "" };
    assert_eq!(rt; read_all(alloc, &mut host, reader)?.as_str(), wanted);
    assert!(rt; granted(host.wait(granted(started)?))? == Ending::Code(0));
    Ok(())
}
