//! What the next turn of a thread is where threads take locks (JVM Specification 6.5, monitorenter, monitorexit, invokestatic).
ghost use Rattle.std.specs.Prelude.{◌≡◌};
ghost use Rattle.jc_machine_model.specs.Step.{located};
ghost use Rattle.jc_machine_model.specs.Locked.{monitor_named, monitor_in};
ghost use Rattle.jc_machine.specs.Standings.{top_seen, callee_seen};
ghost use Rattle.jc_monitor_model.specs.MonitorTurns.{turn_to_enter, turn_to_exit, turn_on_lock, turn_on_top, turn_on_call};
ghost use Rattle.jc_monitor_world.specs.Seen.{lock_of, access_of, insn_of, insn_seen, turn_seen, method_of};

use crate::lock::{Access, Lock};
use crate::locks::Locks;
use jc_machine::{Callee, Standing, Top};
use jc_methods::{Insn, opcode};
use jc_programs::Program;

/// A monitor instruction.
#[derive(Clone, Copy, Debug)]
pub enum MonitorInsn {
    Enters,
    Exits,
}

/// What a turn is.
#[derive(Clone, Copy, Debug)]
pub enum MonitorTurn {
    /// The thread waits for a lock that another one holds.
    Idle,
    /// The turn that the thread would take without locks.
    Plain,
    /// A NullPointerException is raised.
    RaisesNull,
    /// The lock is taken.
    Takes(Lock),
    /// The lock is given back.
    Gives(Lock),
    /// A synchronized method is called.
    CallsLocked(Callee),
}

/// The monitor instruction with an opcode, if it is one.
fn monitor_named(op: u8) -> Option<MonitorInsn>
    ensures { insn_seen result ≡ monitor_named op }
{
    if op == opcode::MONITORENTER {
        Some(MonitorInsn::Enters)
    } else if op == opcode::MONITOREXIT {
        Some(MonitorInsn::Exits)
    } else {
        None
    }
}

/// The monitor instruction at which a thread stands, if it stands at one.
pub fn monitor_at(program: &Program, standing: Standing) -> Option<MonitorInsn>
    ensures { insn_seen result ≡ monitor_in (located program.now (method_of standing) standing.at) }
{
    let class = program.classes.as_slice().get(standing.class as usize)?;
    let body = class.bodies.as_slice().get(standing.body as usize)?;
    match body.code.as_slice().get(standing.at as usize)? {
        Insn::Simple(op) => monitor_named(*op),
        _ => None,
    }
}

/// The turn of a thread at `monitorenter` of a lock.
fn turn_to_enter(locks: &Locks, lock: Lock, access: Access) -> MonitorTurn
    ensures { turn_seen result ≡ turn_to_enter (lock_of lock) locks.now.held (access_of access) }
{
    match access {
        Access::Free => {
            if locks.is_full() {
                MonitorTurn::Plain
            } else {
                MonitorTurn::Takes(lock)
            }
        }
        Access::Own(count) => {
            if count < u64::MAX {
                MonitorTurn::Takes(lock)
            } else {
                MonitorTurn::Plain
            }
        }
        Access::Others => MonitorTurn::Idle,
    }
}

/// The turn of a thread at `monitorexit` of a lock.
fn turn_to_exit(lock: Lock, access: Access) -> MonitorTurn
    ensures { turn_seen result ≡ turn_to_exit (lock_of lock) (access_of access) }
{
    match access {
        Access::Own(_) => MonitorTurn::Gives(lock),
        Access::Free | Access::Others => MonitorTurn::Plain,
    }
}

/// The turn of a thread at a monitor instruction of a lock.
fn turn_on_lock(locks: &Locks, thread: u32, insn: MonitorInsn, lock: Lock) -> MonitorTurn
    ensures { turn_seen result ≡ turn_on_lock thread (insn_of insn) (lock_of lock) locks.now.held }
{
    let access = locks.access(thread, lock);
    match insn {
        MonitorInsn::Enters => turn_to_enter(locks, lock, access),
        MonitorInsn::Exits => turn_to_exit(lock, access),
    }
}

/// The turn of a thread at a monitor instruction, by the operand on top.
pub fn turn_on_top(locks: &Locks, thread: u32, insn: MonitorInsn, top: Top) -> MonitorTurn
    ensures { turn_seen result ≡ turn_on_top thread (insn_of insn) (top_seen top) locks.now.held }
{
    match top {
        Top::Null => MonitorTurn::RaisesNull,
        Top::Object(number) => turn_on_lock(locks, thread, insn, Lock::Object(number)),
        Top::Empty | Top::Other => MonitorTurn::Plain,
    }
}

/// The turn of a thread at another instruction, by the synchronized method that it calls, if it calls one.
pub fn turn_on_call(locks: &Locks, thread: u32, callee: Option<Callee>) -> MonitorTurn
    ensures { turn_seen result ≡ turn_on_call thread (callee_seen callee) locks.now.held }
{
    let Some(callee) = callee else {
        return MonitorTurn::Plain;
    };
    match locks.access(thread, Lock::Class(callee.class)) {
        Access::Others => MonitorTurn::Idle,
        Access::Free | Access::Own(_) => MonitorTurn::CallsLocked(callee),
    }
}
