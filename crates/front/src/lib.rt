//! Sessions of commands over a store, and replays of events over a world: lines in, lines of answers out.
#![tactic(auto)]

mod answer;
mod answers;
mod commands;
mod conversation;
mod event_answers;
mod event_request;
mod events;
mod line_buffer;
mod request;
mod retrying;
mod serve;
mod tokens;

pub use answer::Answer;
pub use events::replay;
pub use serve::session;
