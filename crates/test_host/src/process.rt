//! What a program gets from its process: the test starts itself again, by way of `/bin/sh`.
use crate::host::{again, granted, host, is_started_again, run, run_script, this_program};
use rc_host::{ArgumentsFault, InputError, arguments, entries, open_standard};
use rc_world::{Ending, Mode, PLAIN_SLOTS, World};
use std::test::Fail;

/// The command that starts it: descriptors 0 and 2 are closed, an argument and an entry are not UTF-8.
const START: &str =
    "exec /usr/bin/env \"BAD=$(printf 'a\\377')\" \"$0\" \"$@\" \"$(printf '\\377')\" <&- 2>&-";

#[test]
fn is_taken(rt: HostRuntime) -> Result<(), Fail> {
    let alloc = rt.alloc();
    open_standard(&rt)?;
    let mut host = host(rt)?;
    if is_started_again(rt)? {
        assert!(rt;
            matches!(
                arguments(&rt),
                Err(InputError::Fault(ArgumentsFault::NotText))
            )
        );
        assert!(rt;
            !entries(&rt)?
                .iter()
                .any(|entry| entry.as_str().starts_with("BAD="))
        );
        granted(host.open("/dev/zero", Mode::Read))?;
        let text =
            "for fd in $PPID/fd/0 $$/fd/0 $$/fd/2; do test /proc/$fd -ef /dev/null || exit; done";
        assert!(rt; run_script(alloc, &mut host, text)? == Ending::Code(0));
        return Ok(());
    }
    let words = arguments(&rt)?;
    assert!(rt; words.len() == 1 && words[0].as_str() == "process::is_taken");
    let this = this_program(rt)?;
    let again = again(
        alloc,
        &mut host,
        "/bin/sh",
        &["-c", START, &this],
        PLAIN_SLOTS,
    )?;
    assert!(rt; run(&mut host, &again)? == Ending::Code(0));
    Ok(())
}
