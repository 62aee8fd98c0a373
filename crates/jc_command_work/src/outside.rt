//! What a command works on, and what it works with.

use std::alloc::Global;

/// What stands outside of a command: the files, and the texts on `out` and `err`.
#[derive(Drop)]
pub struct Outside<'f, 'o, 'e, F, O, E> {
    /// The files.
    pub files: &'f mut F,
    /// The text that results are written on.
    pub out: &'o mut O,
    /// The text that messages are written on.
    pub err: &'e mut E,
}

/// What a command works with.
#[derive(Drop)]
pub struct Resources<'r, 'g, R, G> {
    /// What starts threads.
    pub rt: &'r R,
    /// What gives memory.
    pub alloc: Global,
    /// What is told when a case of a run plan begins, and may hold its worker.
    pub gate: &'g G,
}
