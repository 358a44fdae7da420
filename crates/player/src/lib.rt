//! The playing of a board through power cycles: wake, boot, run under the write gate, serve, record, until the run ends or no
//! cycle is left.
#![tactic(auto)]

mod cycling;
mod laws;
mod playable;
mod playing;
mod recording;
mod turning;

pub use laws::{a_loaded_board_starts, a_playing_goes_on};
pub use playable::is_playable;
pub use playing::play;

#[cfg(test)]
mod tests;
