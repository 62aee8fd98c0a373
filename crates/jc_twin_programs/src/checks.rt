//! The twin of a program and the kind check.
ghost use Rattle.std.specs.Prelude.{Contains};
ghost use Rattle.jc_methods.specs.declared.body.Body.{Body};
ghost use Rattle.jc_kinds.specs.Checked.{Checked};
ghost use Rattle.jc_programs.specs.declared.program.Linked.{Linked};
ghost use Rattle.jc_programs.specs.declared.program.Program.{Program};
ghost use Rattle.jc_twin_programs.specs.TwinProgram.{TwinProgram};

/// Each body of the twin of a program passes the kind check.
pub fn each_twin_program_is_verified()
    ensures { (p p' : Program) → TwinProgram p p' → (c : Linked) → Contains p'.classes c → (b : Body) → Contains c.bodies b
        → Checked p'.names b }
{}
