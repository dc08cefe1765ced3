//! Printing calls, without allocating.

use rc_text::Text;
use rc_world::{Call, Launch, Mode, Program, Slot, Slots};
use std::io;

/// Prints a call on a line of its own.
pub fn print_call(rt: HostRuntime, call: &Call) -> io::Result<()> {
    match call {
        Call::Open(path, mode) => println!(rt; "open {path} {}", mode_name(*mode)),
        Call::Here(text) => println!(rt; "here {text:?}"),
        Call::Pipe => println!(rt; "pipe"),
        Call::Close(file) => println!(rt; "close {}", file.0),
        Call::Read(file) => println!(rt; "read {}", file.0),
        Call::Write(slot, text) => {
            print!(rt; "write {text:?}")?;
            print_slot(rt, *slot)?;
            println!(rt; "")
        }
        Call::Start(launch) => print_launch(rt, launch),
        Call::Wait(child) => println!(rt; "wait {}", child.0),
        Call::List(path) => println!(rt; "list {path}"),
        Call::Probe(path) => println!(rt; "probe {path}"),
        Call::Chdir(path) => println!(rt; "chdir {path}"),
    }
}

fn mode_name(mode: Mode) -> &'static str {
    match mode {
        Mode::Read => "read",
        Mode::Write => "write",
        Mode::Append => "append",
    }
}

fn print_launch(rt: HostRuntime, launch: &Launch) -> io::Result<()> {
    let program = match &launch.program {
        Program::Shell => "the shell",
        Program::Path(path) => path.as_str(),
    };
    print!(rt; "start {program} ")?;
    print_texts(rt, &launch.args)?;
    print!(rt; " ")?;
    print_texts(rt, &launch.env)?;
    print_slots(rt, launch.slots)?;
    println!(rt; "")
}

fn print_texts(rt: HostRuntime, texts: &[Text]) -> io::Result<()> {
    print!(rt; "[")?;
    for (place, text) in texts.iter().enumerate() {
        if place > 0 {
            print!(rt; ", ")?;
        }
        print!(rt; "{:?}", text.as_str())?;
    }
    print!(rt; "]")
}

fn print_slots(rt: HostRuntime, slots: Slots) -> io::Result<()> {
    print_slot(rt, slots.input)?;
    print_slot(rt, slots.output)?;
    print_slot(rt, slots.errors)
}

fn print_slot(rt: HostRuntime, slot: Slot) -> io::Result<()> {
    match slot {
        Slot::Own(number) => print!(rt; " {number}"),
        Slot::To(file) => print!(rt; " file {}", file.0),
    }
}
