//! The world of a shell: the calls that it makes, and a tape that replays answers.
#![tactic(auto)]

pub mod calls;
pub mod event;
pub mod starts;
mod system_errors;
pub mod tape;
pub mod world;

pub use event::{Answer, Call};
pub use rc_model::{ChildNo, Ending, Fault, Handle, Kind, Mode, PLAIN_SLOTS, Slot, Slots};
pub use starts::{Launch, Program, Stop};
pub use system_errors::fault_of;
pub use tape::Tape;
pub use world::World;
