//! The path of a read that failed, which only contracts see.
ghost use Rattle.std.specs.Prelude.{◌≡◌, ℕ, List};
ghost use Rattle.std.specs.Borrow.{ftrue};

use std::marker::{Model, PhantomData};

/// A path that only contracts see. It takes no memory.
#[derive(Drop)]
pub struct FailedPath {
    of: PhantomData<u8>,
    pub ghost path: { List ℕ },
}

impl Model for FailedPath {
    ghost also_owns = { λ _. ftrue };
}

impl FailedPath {
    /// This path.
    pub fn of(path: &[u8]) -> FailedPath
        ensures { result.path ≡ path.now }
    {
        let _ = path;
        FailedPath { of: PhantomData }
    }
}
