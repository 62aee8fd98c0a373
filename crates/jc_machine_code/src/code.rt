//! The instructions of a method.
ghost use Rattle.std.specs.Prelude.{◌≡◌, ◌<◌, ◌^◌, length, All, IfOk};
ghost use Rattle.jc_programs.specs.declared.program.Program.{Program};
ghost use Rattle.jc_machine_model.specs.Profile.{Location};
ghost use Rattle.jc_machine_code.specs.Prepared.{Correspond, TellsInsn};
ghost use Rattle.jc_machine_code.specs.Sites.{IsSite, UsesFit};

use crate::PreparedOperation;
use crate::site::Site;
use jc_bytes::{List, Memory};
use jc_methods::Insn;
use std::alloc::Global;

/// What each instruction of a method is.
pub fn operations(
    alloc: Global,
    site: &Site<'_, '_>,
    code: &[Insn],
) -> Result<List<PreparedOperation>, Memory>
    requires few { length code.now < 2 ^ 32 }
    requires fit { All (UsesFit site.now) code.now }
    ensures { (program : Program) (at : Location) → IsSite program at site.now
        → IfOk result (λ operations. Correspond (TellsInsn program at.class at.linked at.body) code.now operations) }
{
    let mut operations = List::new(alloc);
    'preparing: for insn in code {
        let place = operations.len() as u32;
        operations.push(site.prepared(place, insn))?;
    }
    Ok(operations)
}
