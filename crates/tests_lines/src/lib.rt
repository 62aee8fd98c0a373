//! What the programs stand on that answer a call a line: the loop over the lines, the answer that a call puts together,
//! what words spell, and files whose writes are watched.
#![tactic(auto)]

mod answer;
mod calls;
mod spelling;
mod watched;

pub use answer::Answer;
pub use calls::{Calls, answer_lines};
pub use spelling::{
    bits, bytes, bytes_up_to, lines, listed, number, numbers, repeated, short, text,
};
pub use watched::{Forgetful, WatchedFiles, Writes};
