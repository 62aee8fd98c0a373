//! Laws of programs that pass the reference check, which stand over the definitions alone.
ghost use Rattle.jc_refs_laws.specs.Laws.{RefsKept, RefsSound};

use jc_programs::{Case, Program};

/// Where a program passes the reference check, and each thread of the case has an entry, no world of any run of the case has a
/// thread that stands at an instruction with a reference of a class which the instruction doesn't take.
pub fn refs_sound(program: &Program, case: &Case)
    ensures { RefsSound program.now case.now }
{}

/// Where a program passes the reference check, its twin does too: references suit in each twin of a method, in each method that is as
/// it was, and in the method that is added. This holds whatever way each class gets its probe array.
pub fn refs_kept(before: &Program, after: &Program)
    ensures { RefsKept before.now after.now }
{}
