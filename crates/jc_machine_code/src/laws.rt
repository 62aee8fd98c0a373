//! Laws of prepared programs.
ghost use Rattle.std.specs.Prelude.{◌≡◌, ℕ, List, map};
ghost use Rattle.jc_bytes.specs.Descriptor.{FieldType};
ghost use Rattle.jc_methods.specs.declared.insn.Insn.{Insn};
ghost use Rattle.jc_programs.specs.declared.program.Program.{Program};
ghost use Rattle.jc_programs.specs.declared.run_end.Entry.{Entry};
ghost use Rattle.jc_machine_model.specs.World.{Frame, Shared};
ghost use Rattle.jc_machine_model.specs.Operations.{invokes};
ghost use Rattle.jc_machine_model.specs.Profile.{Location, operation_of};
ghost use Rattle.jc_machine_model.specs.Begin.{first_statics};
ghost use Rattle.jc_machine_code.specs.declared.operation.Operation.{Operation as Shown};
ghost use Rattle.jc_machine_code.specs.declared.prepared.PreparedClass.{PreparedClass as Prepared};
ghost use Rattle.jc_machine_code.specs.declared.prepared.PreparedProgram.{PreparedProgram};
ghost use Rattle.jc_machine_code.specs.Shown.{Shows};
ghost use Rattle.jc_machine_code.specs.Prepared.{IsPrepared, value_of};
ghost use Rattle.jc_machine_code.specs.Invoked.{GoesByKey, Invoked, IsSwitch};

/// An instruction that calls a method calls one of the program that a thread may enter, with the method's own parameters and
/// local variables.
pub fn each_call_is_of_a_method_that_may_be_entered()
    ensures { (program : Program) (at : Location) (insn : Insn) (callee : Entry) (parameters : List FieldType) (max_locals : ℕ)
        → operation_of program at insn ≡ invokes callee parameters max_locals → Invoked program callee parameters max_locals }
{}

/// A turn at a switch goes on where the instruction leads with the key.
pub fn each_switch_goes_where_the_instruction_leads()
    ensures { (program : Program) (at : Location) (insn : Insn) (operation : Shown) → IsSwitch operation
        → Shows operation (operation_of program at insn) → (s : Shared) (f : Frame)
        → GoesByKey (operation_of program at insn) insn s f }
{}

/// The static fields begin with the values that are prepared.
pub fn static_fields_begin_with_what_is_prepared()
    ensures { (program : Program) (prepared : PreparedProgram) → IsPrepared program prepared
        → map (λ (c : Prepared). map value_of c.statics) prepared.classes ≡ first_statics program }
{}
