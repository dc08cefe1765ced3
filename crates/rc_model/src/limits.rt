//! The limits of the shell.

/// The greatest length of a script, in bytes.
pub const LONGEST_SCRIPT: usize = 1_048_576;

/// The greatest depth of a tree.
pub const MOST_LEVELS: usize = 200;

/// The greatest number of stages of a pipeline.
pub const MOST_STAGES: usize = 64;

/// The greatest length of the output of a backquote, in bytes.
pub const LONGEST_OUTPUT: usize = 16_777_216;

/// The greatest length of one read, in bytes.
pub const LONGEST_READ: usize = 4096;

/// The greatest length of an argument or an entry of a launch, in bytes.
pub const LONGEST_ARGUMENT: usize = 100_000;

/// The greatest number of pieces of an image.
pub const MOST_PIECES: usize = 16;

/// The greatest number that a script or an image can write.
pub const GREATEST_NUMBER: usize = 4_294_967_295;

/// The greatest number of instructions in a run of the program.
pub const MOST_INSTRUCTIONS: u64 = 1 << 62;
