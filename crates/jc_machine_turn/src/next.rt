//! What an instruction comes to.
use jc_machine_memory::Value;
use jc_programs::{Entry, Thrown};

/// What an instruction comes to, beside what it leaves in its frame and of what all threads share.
#[derive(Clone, Copy, Debug)]
pub enum Next {
    /// The frame goes on.
    Goes,
    /// The frame goes on, and the probe of the class was hit.
    Hits { class: u32, id: u32 },
    /// A method is called. The frame is as it was.
    Calls { callee: Entry },
    /// The frame is left, with a value or without. It is as it was.
    Leaves(Option<Value>),
    /// A throwable of the class is to be made and thrown. Nothing has changed.
    Raises(Thrown),
    /// A throwable of the class, which is there, is thrown. Nothing has changed.
    Throws { thrown: Thrown, value: Value },
    /// The thread is stuck. Nothing has changed.
    Stuck,
}
