//! Gates through which cases pass.

/// Is told when a case begins. It may hold the worker that calls it.
pub trait Gate {
    ghost use Rattle.std.specs.Prelude.{ℕ};

    /// The case with a number has passed. Code that knows only that it is a gate can say so of the cases for which it called
    /// `pass`, and of no others.
    ghost passed: { Self → ℕ → Type 0 };

    /// The case with this number begins. Cases are numbered from 1.
    fn pass(&self, case: u32)
        ensures { passed self.now case };
}

/// Lets each case pass at once.
#[derive(Clone, Copy, Debug)]
pub struct OpenGate;

impl Gate for OpenGate {
    ghost use Rattle.std.specs.Prelude.{⊤};

    ghost passed = { λ gate case. ⊤ };

    fn pass(&self, _case: u32) {}
}
