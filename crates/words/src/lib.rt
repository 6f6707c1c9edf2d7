// Words, the least word, and the calls that run starts: each in its own module, above the engine that runs one.
#![tactic(auto)]

mod engine;
mod first_row;
mod found;
mod least_word;
mod map;
mod matching;
mod orbits;
mod own_signature;

pub use found::Signature;
pub use least_word::signature;
pub use matching::{Mismatch, match_maps};
pub use own_signature::own_word;
