//! Worlds around a world: one that shows each call with its answer, one that refuses a call, and one that hands the
//! words of a trace to the shells that it starts.
#![tactic(auto)]

mod answered;
mod call_texts;
mod handing_world;
mod lines;
mod manner;
mod pieces;
mod quotes;
mod refusal;
mod refusal_world;
mod shown;
mod starts;
mod trace_world;
mod trail;

pub use call_texts::push_call;
pub use handing_world::HandingWorld;
pub use lines::Lines;
pub use manner::Manner;
pub use refusal::Refusal;
pub use refusal_world::RefusalWorld;
pub use shown::{ShownAnswer, ShownCall};
pub use trace_world::TraceWorld;
