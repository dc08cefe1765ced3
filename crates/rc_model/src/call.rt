//! What the calls of a world take and return.

/// Why a call was refused. Scripts can't tell these faults apart, except `Halt`.
#[derive(Clone, Copy, PartialEq)]
pub enum Fault {
    /// Nothing has this name.
    NotFound,
    /// There is no permission for it.
    Denied,
    /// Something has this name already.
    Exists,
    /// Nobody reads from the other end of the pipe.
    Broken,
    /// There is no space left.
    Full,
    /// Any other reason, such as a number that isn't held.
    Other,
    /// The world has stopped, and the call was not answered.
    Halt,
    /// The call was not made.
    NoMemory,
}

/// An open file, a here document or an end of a pipe.
#[derive(Clone, Copy, PartialEq)]
pub struct Handle(pub u32);

/// A child that was started.
#[derive(Clone, Copy, PartialEq)]
pub struct ChildNo(pub u32);

/// A descriptor of a child: a descriptor of the shell's own, or an open file.
#[derive(Clone, Copy, PartialEq)]
pub enum Slot {
    Own(u8),
    To(Handle),
}

/// The descriptors 0, 1 and 2.
#[derive(Clone, Copy, PartialEq)]
pub struct Slots {
    pub input: Slot,
    pub output: Slot,
    pub errors: Slot,
}

/// The shell's own descriptors, each in its own place.
pub const PLAIN_SLOTS: Slots = Slots {
    input: Slot::Own(0),
    output: Slot::Own(1),
    errors: Slot::Own(2),
};

/// How a file is opened. `Write` creates the file, or truncates it.
#[derive(Clone, Copy, PartialEq)]
pub enum Mode {
    Read,
    Write,
    Append,
}

/// What a path names, following links. A program is a regular file that can be executed.
#[derive(Clone, Copy, PartialEq)]
pub enum Kind {
    Directory,
    Program,
    Other,
}

/// How a child ended.
#[derive(Clone, Copy, PartialEq)]
pub enum Ending {
    Code(u8),
    Signal,
}
