// The types of a VP9 header and of the reader's state, with their constructors and limits.
#![tactic(auto)]

mod header;
mod state;

pub use header::Header;
pub use state::ReaderState;

pub const MAX_FRAMES_IN_SUPERFRAME: usize = 8;
