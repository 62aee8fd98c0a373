//! The method with which a thread begins.
ghost use Rattle.std.specs.Prelude.{◌≡◌, ◌<◌, ◌^◌, length, position, All};
ghost use Rattle.jc_programs.specs.Entries.{is_entry, entry_of};
ghost use Rattle.jc_programs.specs.Members.{class_named};

use crate::arguments::takes;
use crate::{Entry, Program, ThreadLine};
use jc_methods::{Body, INIT_NAME, is_static};

/// The number of the class with a name.
fn class_named(program: &Program, name: &[u8]) -> Option<usize>
    ensures { result ≡ class_named program.now name.now }
{
    program
        .classes
        .iter()
        .position(|class| class.name.as_slice() == name)
}

/// Whether a thread may begin with a method: a static one with the thread's name for it, other than
/// `$jacocoInit`, that takes the thread's arguments.
fn is_entry(thread: &ThreadLine, body: &Body) -> bool
    ensures { result ≡ is_entry thread.now body.now }
{
    is_static(body.flags)
        && (body.name.as_slice() == thread.method.as_slice()
            && (body.name.as_slice() != INIT_NAME
                && takes(body.desc.as_slice(), thread.args.as_slice())))
}

/// The number of the first method with which a thread may begin.
fn method_in(thread: &ThreadLine, bodies: &[Body]) -> Option<usize>
    ensures { result ≡ position (is_entry thread.now) bodies.now }
{
    bodies.iter().position(|body| is_entry(thread, body))
}

/// The method with which a thread begins: the first static method with code of the class and the name,
/// other than `$jacocoInit`, whose parameters are all of integral types, as many as the arguments, each
/// argument a value of its parameter's type.
///
/// No memory is taken.
pub fn entry(program: &Program, thread: &ThreadLine) -> Option<Entry>
    // A class's number and a method's number are numbers of four bytes.
    requires classes { length program.now.classes < 2 ^ 32 }
    requires methods { All (λ class. length class.bodies < 2 ^ 32) program.now.classes }
    ensures { result ≡ entry_of program.now thread.now }
{
    let class = class_named(program, thread.class.as_slice())?;
    let linked = &program.classes.as_slice()[class];
    let method = method_in(thread, linked.bodies.as_slice())?;
    Some(Entry {
        class: class as u32,
        method: method as u32,
    })
}
