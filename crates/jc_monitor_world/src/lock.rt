//! A lock, and what it is to a thread (JVM Specification 2.11.10).
ghost use Rattle.std.specs.Prelude.{◌≡◌};
ghost use Rattle.jc_monitor_model.specs.Locks.{is_same_lock, is_of_lock};
ghost use Rattle.jc_monitor_world.specs.Seen.{lock_of, held_of};

/// A lock.
#[derive(Clone, Copy, Debug)]
pub enum Lock {
    /// That of an array or a throwable, by how many words of the heap those take that were made before it.
    Object(u32),
    /// That of a class, by its number.
    Class(u32),
}

/// A lock that is held.
#[derive(Clone, Copy, Debug)]
pub struct HeldLock {
    pub lock: Lock,
    /// The thread that holds it.
    pub thread: u32,
    /// How often the thread has taken it.
    pub count: u64,
}

/// What a lock is to a thread.
#[derive(Clone, Copy, Debug)]
pub enum Access {
    /// No thread holds it.
    Free,
    /// The thread has taken it so often.
    Own(u64),
    /// Another thread holds it.
    Others,
}

impl Lock {
    /// Whether it is the other lock.
    pub fn is_same(self, other: Lock) -> bool
        ensures { result ≡ is_same_lock (lock_of self) (lock_of other) }
    {
        match self {
            Lock::Object(number) => match other {
                Lock::Object(another) => number == another,
                Lock::Class(_) => false,
            },
            Lock::Class(class) => match other {
                Lock::Object(_) => false,
                Lock::Class(another) => class == another,
            },
        }
    }
}

impl HeldLock {
    /// Whether it is this lock that is held.
    pub fn is_of(&self, lock: Lock) -> bool
        ensures { result ≡ is_of_lock (lock_of lock) (held_of self.now) }
    {
        lock.is_same(self.lock)
    }
}
