//! The locks that are held, in memory that is taken once.
ghost use Rattle.std.specs.Prelude.{◌≡◌, ◌+◌, ◌-◌, ◌<◌, ◌≤◌, [], ◌++◌, length, take, drop, position, IfOk};
ghost use Rattle.jc_monitor_model.specs.Locks.{is_of_lock, access, is_full, taken_by, given_by};
ghost use Rattle.jc_monitor_model.specs.KeptLocks.{MayTake, MayGive};
ghost use Rattle.jc_monitor_world.specs.Seen.{lock_of, held_of, access_of};

use crate::lock::{Access, HeldLock, Lock};
use jc_bytes::Memory;
use std::alloc::Global;
use std::marker::Model;

/// How many locks are held at most.
const MOST_LOCKS: usize = 4096;

/// The locks that are held, in the order in which they were taken.
#[derive(Drop)]
pub struct Locks {
    // Those that are held, and behind them room for the others.
    slots: Vec<HeldLock>,
    count: usize,
}

impl Model for Locks {
    ghost use Rattle.jc_monitor_world.specs.Kept.{LocksSeen};

    ghost Value = { LocksSeen };

    ghost use Rattle.jc_monitor_world.specs.Kept.{locks_of, AreRoomyLocks};

    ghost view = { locks_of };

    ghost invariant = { AreRoomyLocks };
}

/// The place of a lock in the slots.
fn place_in(slots: &[HeldLock], lock: Lock) -> Option<usize>
    ensures { result ≡ position (λ held. is_of_lock (lock_of lock) (held_of held)) slots.now }
{
    slots.iter().position(|held| held.is_of(lock))
}

/// Takes one out of the first `count` slots: those behind it move down.
fn take_out(slots: &mut [HeldLock], place: usize, count: usize)
    requires place { place < count }
    requires count { count ≤ length slots.old }
    ensures { take (count - 1) slots.new ≡ take place (take count slots.old) ++ drop (place + 1) (take count slots.old) }
{
    slots.copy_within(place + 1..count, place);
}

impl Locks {
    /// No lock is held. No later call takes memory.
    ///
    /// # Errors
    ///
    /// `Memory` where memory was refused.
    pub fn new(alloc: Global) -> Result<Locks, Memory>
        ensures { IfOk result (λ locks. locks.held ≡ []) }
    {
        let unused = HeldLock {
            lock: Lock::Class(0),
            thread: 0,
            count: 0,
        };
        Ok(Locks {
            slots: vec![in alloc; unused; MOST_LOCKS]?,
            count: 0,
        })
    }

    /// Whether no lock more can be held.
    pub fn is_full(&self) -> bool
        ensures { result ≡ is_full self.now.held }
    {
        self.count >= MOST_LOCKS
    }

    // The place of a lock among those that are held.
    fn place(&self, lock: Lock) -> Option<usize>
        ensures { result ≡ position (is_of_lock (lock_of lock)) self.now.held }
    {
        place_in(&self.slots[..self.count], lock)
    }

    /// What a lock is to a thread.
    pub fn access(&self, thread: u32, lock: Lock) -> Access
        ensures { access_of result ≡ access thread (lock_of lock) self.now.held }
    {
        let Some(place) = self.place(lock) else {
            return Access::Free;
        };
        let held = self.slots[place];
        if held.thread == thread {
            Access::Own(held.count)
        } else {
            Access::Others
        }
    }

    /// A thread takes a lock once more.
    pub fn take(&mut self, thread: u32, lock: Lock)
        requires { MayTake (length self.old.held) (access thread (lock_of lock) self.old.held) }
        ensures held { self.new.held ≡ taken_by thread (lock_of lock) self.old.held }
        ensures memory { self.new.memory ≡ self.old.memory }
    {
        if let Some(place) = self.place(lock) {
            self.slots[place].count += 1;
            return;
        }
        self.slots[self.count] = HeldLock {
            lock,
            thread,
            count: 1,
        };
        self.count += 1;
    }

    /// A thread that holds a lock gives it back once.
    pub fn give(&mut self, thread: u32, lock: Lock)
        requires { MayGive (access thread (lock_of lock) self.old.held) }
        ensures held { self.new.held ≡ given_by thread (lock_of lock) self.old.held }
        ensures memory { self.new.memory ≡ self.old.memory }
    {
        let Some(place) = self.place(lock) else {
            return;
        };
        if self.slots[place].count > 1 {
            self.slots[place].count -= 1;
        } else {
            take_out(&mut self.slots, place, self.count);
            self.count -= 1;
        }
    }
}
