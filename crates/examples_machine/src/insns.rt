//! Single instructions: what each does to a frame, to what threads share, or why it makes the thread stuck (JVM
//! Specification 6.5).
ghost use Rattle.std.specs.Prelude.{◌≡◌, ◌++◌, pos, negsuc, true, false, [], ◌∷◌, Some, None, codes};
ghost use Rattle.jc_bytes.specs.Descriptor as types;
ghost use Rattle.jc_methods.specs.declared.insn.Insn.TheVariants as insns;
ghost use Rattle.jc_methods.specs.declared.body.What.TheVariants as whats;
ghost use Rattle.jc_methods.specs.Opcode as opcode;
ghost use Rattle.jc_programs.specs.declared.run_end.Thrown.TheVariants as thrown;
ghost use Rattle.jc_machine_model.specs.Values.{int, long, null, object, memory_error, print_stream, probes, text};
ghost use Rattle.jc_machine_model.specs.Heap.{array, throwable};
ghost use Rattle.jc_machine_model.specs.World.{stuck, threw, running};
ghost use Rattle.jc_machine_model.specs.Results.{goes, hits, calls, leaves, raises, throws, gets_stuck};
ghost use Rattle.examples_machine.specs.InsnExamples.{does, does_with, does_on, does_call, does_put, does_returning};
ghost use Rattle.examples_machine.specs.InsnExamples.{does_in_init, leaves_stack, leaves_locals, leaves_fields, leaves_heap};
ghost use Rattle.examples_machine.specs.InsnExamples.{leaves_output, jumps_with, field, called, println, system_out, get_probes};
ghost use Rattle.examples_machine.specs.InsnExamples.{of_f, changed_field, changed_thing, things};
ghost use Rattle.examples_machine.specs.InsnExamples.{frame_with, thrown_by, after_throw, caught_at};
ghost use Rattle.examples_machine.specs.ProgramExamples.{use_at, handler_row};

/// Ints.
pub fn worked_ints()
    ensures adds { does (insns.Simple opcode.iadd) (int (pos 1) ∷ int (pos 2147483647) ∷ [])
        ≡ leaves_stack (int (negsuc 2147483647) ∷ []) }
    ensures subtracts { does (insns.Simple opcode.isub) (int (pos 1) ∷ int (negsuc 2147483647) ∷ null ∷ [])
        ≡ leaves_stack (int (pos 2147483647) ∷ null ∷ []) }
    ensures multiplies { does (insns.Simple opcode.imul) (int (pos 65536) ∷ int (pos 65536) ∷ [])
        ≡ leaves_stack (int (pos 0) ∷ []) }
    ensures divides { does (insns.Simple opcode.idiv) (int (pos 2) ∷ int (negsuc 6) ∷ []) ≡ leaves_stack (int (negsuc 2) ∷ []) }
    ensures divides_least { does (insns.Simple opcode.idiv) (int (negsuc 0) ∷ int (negsuc 2147483647) ∷ [])
        ≡ leaves_stack (int (negsuc 2147483647) ∷ []) }
    ensures by_zero { does (insns.Simple opcode.idiv) (int (pos 0) ∷ int (pos 1) ∷ []) ≡ raises thrown.ArithmeticException }
    ensures rest { does (insns.Simple opcode.irem) (int (pos 2) ∷ int (negsuc 6) ∷ []) ≡ leaves_stack (int (negsuc 0) ∷ []) }
    ensures rest_least { does (insns.Simple opcode.irem) (int (negsuc 0) ∷ int (negsuc 2147483647) ∷ [])
        ≡ leaves_stack (int (pos 0) ∷ []) }
    ensures rest_by_zero { does (insns.Simple opcode.irem) (int (pos 0) ∷ int (pos 1) ∷ []) ≡ raises thrown.ArithmeticException }
    ensures negates { does (insns.Simple opcode.ineg) (int (negsuc 2147483647) ∷ [])
        ≡ leaves_stack (int (negsuc 2147483647) ∷ []) }
    ensures shifts { does (insns.Simple opcode.ishl) (int (pos 33) ∷ int (pos 3) ∷ []) ≡ leaves_stack (int (pos 6) ∷ []) }
    ensures shifts_back { does (insns.Simple opcode.ishr) (int (negsuc 0) ∷ int (negsuc 2147483647) ∷ [])
        ≡ leaves_stack (int (negsuc 0) ∷ []) }
    ensures shifts_unsigned { does (insns.Simple opcode.iushr) (int (pos 28) ∷ int (negsuc 0) ∷ [])
        ≡ leaves_stack (int (pos 15) ∷ []) }
    ensures unsigned_by_none { does (insns.Simple opcode.iushr) (int (pos 32) ∷ int (negsuc 0) ∷ [])
        ≡ leaves_stack (int (negsuc 0) ∷ []) }
    ensures ands { does (insns.Simple opcode.iand) (int (negsuc 0) ∷ int (negsuc 4) ∷ []) ≡ leaves_stack (int (negsuc 4) ∷ []) }
    ensures ors { does (insns.Simple opcode.ior) (int (pos 5) ∷ int (pos 3) ∷ []) ≡ leaves_stack (int (pos 7) ∷ []) }
    ensures xors { does (insns.Simple opcode.ixor) (int (negsuc 0) ∷ int (pos 3) ∷ []) ≡ leaves_stack (int (negsuc 3) ∷ []) }
    ensures widens { does (insns.Simple opcode.i2l) (int (negsuc 0) ∷ []) ≡ leaves_stack (long (negsuc 0) ∷ []) }
    ensures byte { does (insns.Simple opcode.i2b) (int (pos 200) ∷ []) ≡ leaves_stack (int (negsuc 55) ∷ []) }
    ensures char { does (insns.Simple opcode.i2c) (int (negsuc 0) ∷ []) ≡ leaves_stack (int (pos 65535) ∷ []) }
    ensures short { does (insns.Simple opcode.i2s) (int (pos 65535) ∷ []) ≡ leaves_stack (int (negsuc 0) ∷ []) }
    ensures pushes { does (insns.Push opcode.bipush (negsuc 127)) [] ≡ leaves_stack (int (negsuc 127) ∷ []) }
    ensures minus_one { does (insns.Simple opcode.iconst_m1) [] ≡ leaves_stack (int (negsuc 0) ∷ []) }
    ensures five { does (insns.Simple opcode.iconst_5) [] ≡ leaves_stack (int (pos 5) ∷ []) }
    ensures loads { does_on (whats.Int (pos 70000)) (insns.Constant 1) [] ≡ leaves_stack (int (pos 70000) ∷ []) }
    ensures nothing { does (insns.Simple opcode.nop) (int (pos 1) ∷ []) ≡ leaves_stack (int (pos 1) ∷ []) }
{}

/// Longs.
pub fn worked_longs()
    ensures adds { does (insns.Simple opcode.ladd) (long (pos 1) ∷ long (pos 9223372036854775807) ∷ [])
        ≡ leaves_stack (long (negsuc 9223372036854775807) ∷ []) }
    ensures divides_least { does (insns.Simple opcode.ldiv) (long (negsuc 0) ∷ long (negsuc 9223372036854775807) ∷ [])
        ≡ leaves_stack (long (negsuc 9223372036854775807) ∷ []) }
    ensures by_zero { does (insns.Simple opcode.lrem) (long (pos 0) ∷ long (pos 9) ∷ []) ≡ raises thrown.ArithmeticException }
    ensures shifts { does (insns.Simple opcode.lshl) (int (pos 65) ∷ long (pos 3) ∷ []) ≡ leaves_stack (long (pos 6) ∷ []) }
    ensures shifts_unsigned { does (insns.Simple opcode.lushr) (int (pos 60) ∷ long (negsuc 0) ∷ [])
        ≡ leaves_stack (long (pos 15) ∷ []) }
    ensures less { does (insns.Simple opcode.lcmp) (long (pos 2) ∷ long (pos 1) ∷ []) ≡ leaves_stack (int (negsuc 0) ∷ []) }
    ensures equal { does (insns.Simple opcode.lcmp) (long (pos 2) ∷ long (pos 2) ∷ []) ≡ leaves_stack (int (pos 0) ∷ []) }
    ensures greater { does (insns.Simple opcode.lcmp) (long (pos 1) ∷ long (pos 2) ∷ []) ≡ leaves_stack (int (pos 1) ∷ []) }
    ensures narrows { does (insns.Simple opcode.l2i) (long (pos 4294967295) ∷ []) ≡ leaves_stack (int (negsuc 0) ∷ []) }
    ensures negates { does (insns.Simple opcode.lneg) (long (pos 5) ∷ []) ≡ leaves_stack (long (negsuc 4) ∷ []) }
    ensures ands { does (insns.Simple opcode.land) (long (pos 6) ∷ long (pos 3) ∷ []) ≡ leaves_stack (long (pos 2) ∷ []) }
    ensures one { does (insns.Simple opcode.lconst_1) [] ≡ leaves_stack (long (pos 1) ∷ []) }
    ensures loads { does_on (whats.Long (negsuc 0)) (insns.Constant2 1) [] ≡ leaves_stack (long (negsuc 0) ∷ []) }
    ensures mixed { does (insns.Simple opcode.ladd) (int (pos 1) ∷ long (pos 1) ∷ []) ≡ gets_stuck }
{}

/// Values moved on the stack, the top one first.
pub fn worked_moves()
    ensures pop { does (insns.Simple opcode.pop) (int (pos 1) ∷ null ∷ []) ≡ leaves_stack (null ∷ []) }
    ensures pop_pair { does (insns.Simple opcode.pop) (long (pos 1) ∷ null ∷ []) ≡ gets_stuck }
    ensures pop2 { does (insns.Simple opcode.pop2) (int (pos 1) ∷ null ∷ []) ≡ leaves_stack [] }
    ensures pop2_pair { does (insns.Simple opcode.pop2) (long (pos 1) ∷ null ∷ []) ≡ leaves_stack (null ∷ []) }
    ensures dup { does (insns.Simple opcode.dup) (int (pos 1) ∷ []) ≡ leaves_stack (int (pos 1) ∷ int (pos 1) ∷ []) }
    ensures dup_x1 { does (insns.Simple opcode.dup_x1) (int (pos 1) ∷ int (pos 2) ∷ [])
        ≡ leaves_stack (int (pos 1) ∷ int (pos 2) ∷ int (pos 1) ∷ []) }
    ensures dup_x2 { does (insns.Simple opcode.dup_x2) (int (pos 1) ∷ int (pos 2) ∷ int (pos 3) ∷ [])
        ≡ leaves_stack (int (pos 1) ∷ int (pos 2) ∷ int (pos 3) ∷ int (pos 1) ∷ []) }
    ensures dup_x2_pair { does (insns.Simple opcode.dup_x2) (int (pos 1) ∷ long (pos 2) ∷ [])
        ≡ leaves_stack (int (pos 1) ∷ long (pos 2) ∷ int (pos 1) ∷ []) }
    ensures dup2 { does (insns.Simple opcode.dup2) (int (pos 1) ∷ int (pos 2) ∷ [])
        ≡ leaves_stack (int (pos 1) ∷ int (pos 2) ∷ int (pos 1) ∷ int (pos 2) ∷ []) }
    ensures dup2_pair { does (insns.Simple opcode.dup2) (long (pos 1) ∷ []) ≡ leaves_stack (long (pos 1) ∷ long (pos 1) ∷ []) }
    ensures dup2_x1 { does (insns.Simple opcode.dup2_x1) (int (pos 1) ∷ int (pos 2) ∷ int (pos 3) ∷ [])
        ≡ leaves_stack (int (pos 1) ∷ int (pos 2) ∷ int (pos 3) ∷ int (pos 1) ∷ int (pos 2) ∷ []) }
    ensures dup2_x1_pair { does (insns.Simple opcode.dup2_x1) (long (pos 1) ∷ int (pos 2) ∷ [])
        ≡ leaves_stack (long (pos 1) ∷ int (pos 2) ∷ long (pos 1) ∷ []) }
    ensures dup2_x2 { does (insns.Simple opcode.dup2_x2) (int (pos 1) ∷ int (pos 2) ∷ int (pos 3) ∷ int (pos 4) ∷ [])
        ≡ leaves_stack (int (pos 1) ∷ int (pos 2) ∷ int (pos 3) ∷ int (pos 4) ∷ int (pos 1) ∷ int (pos 2) ∷ []) }
    ensures dup2_x2_pair_over { does (insns.Simple opcode.dup2_x2) (long (pos 1) ∷ int (pos 2) ∷ int (pos 3) ∷ [])
        ≡ leaves_stack (long (pos 1) ∷ int (pos 2) ∷ int (pos 3) ∷ long (pos 1) ∷ []) }
    ensures dup2_x2_pair_under { does (insns.Simple opcode.dup2_x2) (int (pos 1) ∷ int (pos 2) ∷ long (pos 3) ∷ [])
        ≡ leaves_stack (int (pos 1) ∷ int (pos 2) ∷ long (pos 3) ∷ int (pos 1) ∷ int (pos 2) ∷ []) }
    ensures dup2_x2_pairs { does (insns.Simple opcode.dup2_x2) (long (pos 1) ∷ long (pos 2) ∷ [])
        ≡ leaves_stack (long (pos 1) ∷ long (pos 2) ∷ long (pos 1) ∷ []) }
    ensures swap { does (insns.Simple opcode.swap) (int (pos 1) ∷ null ∷ []) ≡ leaves_stack (null ∷ int (pos 1) ∷ []) }
    ensures missing { does (insns.Simple opcode.swap) (int (pos 1) ∷ []) ≡ gets_stuck }
{}

/// Local variables.
pub fn worked_locals()
    ensures load { does_with [] (insns.Local opcode.iload 1) (None ∷ Some (int (pos 7)) ∷ []) []
        ≡ leaves_locals (None ∷ Some (int (pos 7)) ∷ []) (int (pos 7) ∷ []) }
    ensures load_other { does_with [] (insns.Local opcode.lload 1) (None ∷ Some (int (pos 7)) ∷ []) [] ≡ gets_stuck }
    ensures load_none { does_with [] (insns.Local opcode.iload 0) (None ∷ []) [] ≡ gets_stuck }
    ensures load_float { does_with [] (insns.Local opcode.fload 0) (Some (int (pos 0)) ∷ []) [] ≡ gets_stuck }
    ensures load_object { does_with [] (insns.Local opcode.aload 0) (Some (object 6) ∷ []) []
        ≡ leaves_locals (Some (object 6) ∷ []) (object 6 ∷ []) }
    ensures store_long { does_with [] (insns.Local opcode.lstore 1) (Some null ∷ Some null ∷ Some null ∷ []) (long (pos 1) ∷ [])
        ≡ leaves_locals (Some null ∷ Some (long (pos 1)) ∷ None ∷ []) [] }
    ensures store_into_half { does_with [] (insns.Local opcode.istore 2) (None ∷ Some (long (pos 1)) ∷ None ∷ [])
        (int (pos 3) ∷ [])
        ≡ leaves_locals (None ∷ None ∷ Some (int (pos 3)) ∷ []) [] }
    ensures store_onto { does_with [] (insns.Local opcode.istore 1) (None ∷ Some (long (pos 1)) ∷ None ∷ []) (int (pos 3) ∷ [])
        ≡ leaves_locals (None ∷ Some (int (pos 3)) ∷ None ∷ []) [] }
    ensures store_other { does_with [] (insns.Local opcode.astore 0) (None ∷ []) (int (pos 3) ∷ []) ≡ gets_stuck }
    ensures count { does_with [] (insns.Inc 0 (negsuc 0)) (Some (int (negsuc 2147483647)) ∷ []) []
        ≡ leaves_locals (Some (int (pos 2147483647)) ∷ []) [] }
{}

/// Jumps and switches.
pub fn worked_jumps()
    ensures if_zero { does (insns.Jump opcode.ifeq 7) (int (pos 0) ∷ []) ≡ jumps_with 7 [] }
    ensures if_not_zero { does (insns.Jump opcode.ifne 7) (int (pos 0) ∷ []) ≡ jumps_with 1 [] }
    ensures if_negative { does (insns.Jump opcode.iflt 7) (int (negsuc 0) ∷ []) ≡ jumps_with 7 [] }
    ensures if_not_negative { does (insns.Jump opcode.ifge 7) (int (pos 0) ∷ []) ≡ jumps_with 7 [] }
    ensures if_positive { does (insns.Jump opcode.ifgt 7) (int (pos 0) ∷ []) ≡ jumps_with 1 [] }
    ensures if_not_positive { does (insns.Jump opcode.ifle 7) (int (pos 0) ∷ []) ≡ jumps_with 7 [] }
    ensures if_less { does (insns.Jump opcode.if_icmplt 7) (int (pos 2) ∷ int (pos 1) ∷ []) ≡ jumps_with 7 [] }
    ensures if_at_least { does (insns.Jump opcode.if_icmpge 7) (int (pos 2) ∷ int (pos 1) ∷ []) ≡ jumps_with 1 [] }
    ensures if_greater { does (insns.Jump opcode.if_icmpgt 7) (int (pos 2) ∷ int (pos 1) ∷ []) ≡ jumps_with 1 [] }
    ensures if_at_most { does (insns.Jump opcode.if_icmple 7) (int (pos 2) ∷ int (pos 1) ∷ []) ≡ jumps_with 7 [] }
    ensures if_same { does (insns.Jump opcode.if_acmpeq 7) (object 1 ∷ object 1 ∷ []) ≡ jumps_with 7 [] }
    ensures if_other { does (insns.Jump opcode.if_acmpne 7) (null ∷ object 1 ∷ []) ≡ jumps_with 7 [] }
    ensures if_null { does (insns.Jump opcode.ifnull 7) (null ∷ []) ≡ jumps_with 7 [] }
    ensures if_not_null { does (insns.Jump opcode.ifnonnull 7) (print_stream ∷ []) ≡ jumps_with 7 [] }
    ensures no_int { does (insns.Jump opcode.ifeq 7) (null ∷ []) ≡ gets_stuck }
    ensures always { does (insns.Jump opcode.goto 7) (int (pos 1) ∷ []) ≡ jumps_with 7 (int (pos 1) ∷ []) }
    ensures arm { does (insns.Table (negsuc 0) 9 (3 ∷ 4 ∷ [])) (int (pos 0) ∷ []) ≡ jumps_with 4 [] }
    ensures below { does (insns.Table (negsuc 0) 9 (3 ∷ 4 ∷ [])) (int (negsuc 1) ∷ []) ≡ jumps_with 9 [] }
    ensures above { does (insns.Table (negsuc 0) 9 (3 ∷ 4 ∷ [])) (int (pos 1) ∷ []) ≡ jumps_with 9 [] }
    ensures key { does (insns.Lookup 9 (record { key = negsuc 4; to = 3 } ∷ record { key = pos 7; to = 4 } ∷ []))
        (int (pos 7) ∷ [])
        ≡ jumps_with 4 [] }
    ensures no_key { does (insns.Lookup 9 (record { key = negsuc 4; to = 3 } ∷ [])) (int (pos 5) ∷ []) ≡ jumps_with 9 [] }
{}

/// Arrays: null comes first, then an array of other elements, then the index.
pub fn worked_elements()
    ensures read { does (insns.Simple opcode.iaload) (int (pos 1) ∷ object 0 ∷ []) ≡ leaves_stack (int (negsuc 0) ∷ []) }
    ensures read_long { does (insns.Simple opcode.laload) (int (pos 0) ∷ object 1 ∷ []) ≡ leaves_stack (long (pos 9) ∷ []) }
    ensures read_byte { does (insns.Simple opcode.baload) (int (pos 0) ∷ object 2 ∷ []) ≡ leaves_stack (int (pos 1) ∷ []) }
    ensures read_boolean { does (insns.Simple opcode.baload) (int (pos 0) ∷ object 3 ∷ []) ≡ leaves_stack (int (pos 1) ∷ []) }
    ensures read_short { does (insns.Simple opcode.saload) (int (pos 0) ∷ object 5 ∷ []) ≡ leaves_stack (int (negsuc 1) ∷ []) }
    ensures read_null { does (insns.Simple opcode.iaload) (int (negsuc 0) ∷ null ∷ []) ≡ raises thrown.NullPointerException }
    ensures read_other { does (insns.Simple opcode.iaload) (int (pos 5) ∷ object 1 ∷ []) ≡ gets_stuck }
    ensures read_throwable { does (insns.Simple opcode.iaload) (int (pos 0) ∷ object 6 ∷ []) ≡ gets_stuck }
    ensures read_probes { does (insns.Simple opcode.baload) (int (pos 0) ∷ probes 4 3 ∷ []) ≡ gets_stuck }
    ensures read_past { does (insns.Simple opcode.iaload) (int (pos 2) ∷ object 0 ∷ [])
        ≡ raises thrown.ArrayIndexOutOfBoundsException }
    ensures read_before { does (insns.Simple opcode.iaload) (int (negsuc 0) ∷ object 0 ∷ [])
        ≡ raises thrown.ArrayIndexOutOfBoundsException }
    ensures write_past { does (insns.Simple opcode.iastore) (int (pos 3) ∷ int (pos 2) ∷ object 0 ∷ [])
        ≡ raises thrown.ArrayIndexOutOfBoundsException }
    ensures write_null { does (insns.Simple opcode.bastore) (int (pos 3) ∷ int (pos 2) ∷ null ∷ [])
        ≡ raises thrown.NullPointerException }
    ensures write_boolean { does (insns.Simple opcode.bastore) (int (pos 2) ∷ int (pos 0) ∷ object 3 ∷ [])
        ≡ leaves_heap (changed_thing 3 (array types.Boolean (pos 0 ∷ []))) [] }
    ensures write_char { does (insns.Simple opcode.castore) (int (negsuc 0) ∷ int (pos 0) ∷ object 4 ∷ [])
        ≡ leaves_heap (changed_thing 4 (array types.Char (pos 65535 ∷ []))) [] }
    ensures make { does (insns.NewArray 9) (int (pos 2) ∷ [])
        ≡ leaves_heap (things ++ array types.Short (pos 0 ∷ pos 0 ∷ []) ∷ []) (object 7 ∷ []) }
    ensures make_floats { does (insns.NewArray 6) (int (pos 2) ∷ []) ≡ gets_stuck }
    ensures make_negative { does (insns.NewArray 9) (int (negsuc 0) ∷ []) ≡ raises thrown.NegativeArraySizeException }
    ensures make_too_long { does (insns.NewArray 9) (int (pos 1000000) ∷ []) ≡ raises thrown.OutOfMemoryError }
    ensures length { does (insns.Simple opcode.arraylength) (object 0 ∷ []) ≡ leaves_stack (int (pos 2) ∷ []) }
    ensures length_null { does (insns.Simple opcode.arraylength) (null ∷ []) ≡ raises thrown.NullPointerException }
    ensures length_probes { does (insns.Simple opcode.arraylength) (probes 4 3 ∷ []) ≡ gets_stuck }
{}

/// Stores into a probe array.
pub fn worked_probes()
    ensures hit { does (insns.Simple opcode.bastore) (int (pos 1) ∷ int (pos 2) ∷ probes 4 3 ∷ null ∷ [])
        ≡ hits 4 2 (frame_with 1 [] (null ∷ [])) }
    ensures odd { does (insns.Simple opcode.bastore) (int (negsuc 2) ∷ int (pos 2) ∷ probes 4 3 ∷ [])
        ≡ hits 4 2 (frame_with 1 [] []) }
    ensures even { does (insns.Simple opcode.bastore) (int (pos 2) ∷ int (pos 2) ∷ probes 4 3 ∷ []) ≡ gets_stuck }
    ensures past { does (insns.Simple opcode.bastore) (int (pos 1) ∷ int (pos 3) ∷ probes 4 3 ∷ [])
        ≡ raises thrown.ArrayIndexOutOfBoundsException }
    ensures even_past { does (insns.Simple opcode.bastore) (int (pos 0) ∷ int (negsuc 0) ∷ probes 4 3 ∷ [])
        ≡ raises thrown.ArrayIndexOutOfBoundsException }
    ensures ints { does (insns.Simple opcode.iastore) (int (pos 1) ∷ int (pos 2) ∷ probes 4 3 ∷ []) ≡ gets_stuck }
    ensures text { does_in_init whats.Text (insns.Constant 1) [] ≡ leaves_stack (text 0 ∷ []) }
    ensures text_elsewhere { does_on whats.Text (insns.Constant 1) [] ≡ gets_stuck }
    ensures asks { does_in_init get_probes (insns.Member opcode.invokestatic 1) (int (pos 3) ∷ text 0 ∷ long (pos 5) ∷ [])
        ≡ leaves_stack (probes 0 3 ∷ []) }
    ensures other_id { does_in_init get_probes (insns.Member opcode.invokestatic 1) (int (pos 3) ∷ text 0 ∷ long (pos 6) ∷ [])
        ≡ gets_stuck }
    ensures other_count { does_in_init get_probes (insns.Member opcode.invokestatic 1) (int (pos 2) ∷ text 0 ∷ long (pos 5) ∷ [])
        ≡ gets_stuck }
    ensures asks_elsewhere { does_on get_probes (insns.Member opcode.invokestatic 1) (int (pos 3) ∷ text 0 ∷ long (pos 5) ∷ [])
        ≡ gets_stuck }
    ensures other_call { does_in_init (called (codes "M") (codes "plain") (codes "(IJ)V")) (insns.Member opcode.invokestatic 1)
        (long (pos 3) ∷ int (pos 5) ∷ [])
        ≡ gets_stuck }
    ensures prints { does_in_init (println (codes "()V")) (insns.Member opcode.invokevirtual 1) (print_stream ∷ []) ≡ gets_stuck }
    ensures init_elsewhere { does_call (codes "P") (codes "$jacocoInit") (codes "()[Z") [] ≡ gets_stuck }
    ensures data_elsewhere { does_on (field (codes "P") (codes "$jacocoData") (codes "[Z")) (insns.Member opcode.getstatic 1) []
        ≡ gets_stuck }
    ensures own_data { does_on (of_f (codes "$jacocoData") (codes "[Z")) (insns.Member opcode.putstatic 1) (null ∷ [])
        ≡ gets_stuck }
{}

/// Static fields.
pub fn worked_static_fields()
    ensures get { does_on (of_f (codes "i") (codes "I")) (insns.Member opcode.getstatic 1) [] ≡ leaves_stack (int (pos 0) ∷ []) }
    ensures get_float { does_on (of_f (codes "f") (codes "F")) (insns.Member opcode.getstatic 1) [] ≡ gets_stuck }
    ensures other_type { does_on (of_f (codes "i") (codes "J")) (insns.Member opcode.getstatic 1) [] ≡ gets_stuck }
    ensures other_class { does_on (field (codes "G") (codes "i") (codes "I")) (insns.Member opcode.getstatic 1) [] ≡ gets_stuck }
    ensures out { does_on system_out (insns.Member opcode.getstatic 1) [] ≡ leaves_stack (print_stream ∷ []) }
    ensures put_out { does_on system_out (insns.Member opcode.putstatic 1) (print_stream ∷ []) ≡ gets_stuck }
    ensures put_boolean { does_put (codes "z") (codes "Z") (int (pos 3)) ≡ leaves_fields (changed_field 0 (int (pos 1))) [] }
    ensures put_byte { does_put (codes "b") (codes "B") (int (pos 255)) ≡ leaves_fields (changed_field 1 (int (negsuc 0))) [] }
    ensures put_char { does_put (codes "c") (codes "C") (int (negsuc 0)) ≡ leaves_fields (changed_field 2 (int (pos 65535))) [] }
    ensures put_short { does_put (codes "s") (codes "S") (int (pos 65536)) ≡ leaves_fields (changed_field 3 (int (pos 0))) [] }
    ensures put_object { does_put (codes "l") (codes "Ljava/lang/Object;") (object 0)
        ≡ leaves_fields (changed_field 6 (object 0)) [] }
    ensures put_other { does_put (codes "j") (codes "J") (int (pos 3)) ≡ gets_stuck }
    ensures get_field { does_on (of_f (codes "i") (codes "I")) (insns.Member opcode.getfield 1) (null ∷ []) ≡ gets_stuck }
{}

/// Calls.
pub fn worked_calls()
    ensures call { does_call (codes "M") (codes "plain") (codes "(IJ)V") (long (pos 3) ∷ int (pos 5) ∷ null ∷ [])
        ≡ calls (record { class = 2; method = 0 }) (Some (int (pos 5)) ∷ Some (long (pos 3)) ∷ None ∷ [])
        (frame_with 0 [] (null ∷ [])) }
    ensures other_arguments { does_call (codes "M") (codes "plain") (codes "(IJ)V") (int (pos 5) ∷ long (pos 3) ∷ [])
        ≡ gets_stuck }
    ensures wide { does_call (codes "M") (codes "wide") (codes "()V") [] ≡ gets_stuck }
    ensures wide_with_probes { does_call (codes "P") (codes "wide") (codes "()V") []
        ≡ calls (record { class = 4; method = 0 }) (None ∷ None ∷ None ∷ []) (frame_with 0 [] []) }
    ensures wider_with_probes { does_call (codes "P") (codes "wider") (codes "()V") [] ≡ gets_stuck }
    ensures synchronized { does_call (codes "M") (codes "synchronized") (codes "()V") [] ≡ gets_stuck }
    ensures instance { does_call (codes "M") (codes "instance") (codes "()V") [] ≡ gets_stuck }
    ensures starting { does_call (codes "I") (codes "f") (codes "()V") [] ≡ gets_stuck }
    ensures missing { does_call (codes "M") (codes "plain") (codes "()V") [] ≡ gets_stuck }
    ensures returns_boolean { does_returning (codes "()Z") (insns.Simple opcode.ireturn) (int (pos 2) ∷ [])
        ≡ leaves (Some (int (pos 0))) }
    ensures returns_byte { does_returning (codes "()B") (insns.Simple opcode.ireturn) (int (pos 128) ∷ [])
        ≡ leaves (Some (int (negsuc 127))) }
    ensures returns_int { does_returning (codes "()I") (insns.Simple opcode.ireturn) (int (pos 128) ∷ [])
        ≡ leaves (Some (int (pos 128))) }
    ensures returns_long { does_returning (codes "()J") (insns.Simple opcode.lreturn) (long (pos 128) ∷ [])
        ≡ leaves (Some (long (pos 128))) }
    ensures returns_null { does_returning (codes "()[I") (insns.Simple opcode.areturn) (null ∷ []) ≡ leaves (Some null) }
    ensures returns_nothing { does_returning (codes "()V") (insns.Simple opcode.return) (null ∷ []) ≡ leaves None }
    ensures returns_float { does_returning (codes "()F") (insns.Simple opcode.freturn) (int (pos 0) ∷ []) ≡ gets_stuck }
{}

/// Printing.
pub fn worked_prints()
    ensures number { does_on (println (codes "(I)V")) (insns.Member opcode.invokevirtual 1) (int (negsuc 6) ∷ print_stream ∷ [])
        ≡ leaves_output (codes "-7\n") [] }
    ensures long_number { does_on (println (codes "(J)V")) (insns.Member opcode.invokevirtual 1)
        (long (pos 9223372036854775807) ∷ print_stream ∷ [])
        ≡ leaves_output (codes "9223372036854775807\n") [] }
    ensures odd { does_on (println (codes "(Z)V")) (insns.Member opcode.invokevirtual 1) (int (pos 3) ∷ print_stream ∷ [])
        ≡ leaves_output (codes "true\n") [] }
    ensures even { does_on (println (codes "(Z)V")) (insns.Member opcode.invokevirtual 1) (int (pos 2) ∷ print_stream ∷ [])
        ≡ leaves_output (codes "false\n") [] }
    ensures nothing { does_on (println (codes "()V")) (insns.Member opcode.invokevirtual 1) (print_stream ∷ [])
        ≡ leaves_output (codes "\n") [] }
    ensures to_null { does_on (println (codes "(I)V")) (insns.Member opcode.invokevirtual 1) (int (pos 1) ∷ null ∷ [])
        ≡ raises thrown.NullPointerException }
    ensures to_other { does_on (println (codes "(I)V")) (insns.Member opcode.invokevirtual 1) (int (pos 1) ∷ object 6 ∷ [])
        ≡ gets_stuck }
    ensures char { does_on (println (codes "(C)V")) (insns.Member opcode.invokevirtual 1) (int (pos 65) ∷ print_stream ∷ [])
        ≡ gets_stuck }
{}

/// Throwables.
pub fn worked_throwables()
    ensures make { does_on (whats.Class (codes "java/lang/ArithmeticException")) (insns.OfClass opcode.new 1) []
        ≡ leaves_heap (things ++ throwable thrown.ArithmeticException ∷ []) (object 7 ∷ []) }
    ensures make_abstract { does_on (whats.Class (codes "java/lang/VirtualMachineError")) (insns.OfClass opcode.new 1) []
        ≡ gets_stuck }
    ensures make_other { does_on (whats.Class (codes "M")) (insns.OfClass opcode.new 1) [] ≡ gets_stuck }
    ensures cast { does_on (whats.Class (codes "java/lang/Error")) (insns.OfClass opcode.checkcast 1) (object 6 ∷ [])
        ≡ gets_stuck }
    ensures build { does_on (called (codes "java/lang/IllegalStateException") (codes "<init>")
        (codes "()V")) (insns.Member opcode.invokespecial 1) (object 6 ∷ null ∷ [])
        ≡ leaves_stack (null ∷ []) }
    ensures build_other { does_on (called (codes "java/lang/Error") (codes "<init>")
        (codes "()V")) (insns.Member opcode.invokespecial 1) (object 6 ∷ [])
        ≡ gets_stuck }
    ensures build_with { does_on (called (codes "java/lang/IllegalStateException") (codes "<init>")
        (codes "(I)V")) (insns.Member opcode.invokespecial 1) (int (pos 1) ∷ object 6 ∷ [])
        ≡ gets_stuck }
    ensures throw { does (insns.Simple opcode.athrow) (object 6 ∷ []) ≡ throws thrown.IllegalStateException (object 6) }
    ensures thworked_null { does (insns.Simple opcode.athrow) (null ∷ []) ≡ raises thrown.NullPointerException }
    ensures thworked_array { does (insns.Simple opcode.athrow) (object 0 ∷ []) ≡ gets_stuck }
    ensures thworked_error { does (insns.Simple opcode.athrow) (memory_error ∷ []) ≡ throws thrown.OutOfMemoryError memory_error }
{}

/// Handlers: the first row that holds the instruction and names the class or a superclass.
pub fn worked_handlers()
    ensures superclass { thrown_by (handler_row 0 1 2 1 ∷ []) (object 6) [] ≡ caught_at 2 (object 6) }
    ensures all { thrown_by (handler_row 0 1 3 0 ∷ []) (object 6) [] ≡ caught_at 3 (object 6) }
    ensures in_order { thrown_by (handler_row 0 1 4 2 ∷ handler_row 0 1 1 4 ∷ handler_row 0 1 3 3 ∷ handler_row 0 1 2 1 ∷ [])
        (object 6) []
        ≡ caught_at 3 (object 6) }
    ensures error { thrown_by (handler_row 0 1 2 1 ∷ handler_row 0 1 3 4 ∷ []) memory_error [] ≡ caught_at 3 memory_error }
    ensures behind { thrown_by (handler_row 1 5 2 0 ∷ []) (object 6) []
        ≡ after_throw (threw thrown.IllegalStateException) things }
    ensures waiting { thrown_by (handler_row 1 2 3 1 ∷ []) (object 6)
        (frame_with 4 [] [] ∷ frame_with 1 [] (null ∷ []) ∷ frame_with 2 [] [] ∷ [])
        ≡ after_throw (running (frame_with 3 [] (object 6 ∷ [])) (frame_with 2 [] [] ∷ [])) things }
    ensures of_null { thrown_by [] null []
        ≡ after_throw (threw thrown.NullPointerException) (things ++ throwable thrown.NullPointerException ∷ []) }
{}

/// Instructions outside of the profile.
pub fn worked_outside()
    ensures float { does (insns.Simple opcode.fconst_0) [] ≡ gets_stuck }
    ensures add_floats { does (insns.Simple opcode.fadd) (int (pos 1) ∷ int (pos 1) ∷ []) ≡ gets_stuck }
    ensures to_float { does (insns.Simple opcode.i2f) (int (pos 1) ∷ []) ≡ gets_stuck }
    ensures element { does (insns.Simple opcode.aaload) (int (pos 0) ∷ null ∷ []) ≡ gets_stuck }
    ensures put_element { does (insns.Simple opcode.aastore) (null ∷ int (pos 0) ∷ null ∷ []) ≡ gets_stuck }
    ensures monitor { does (insns.Simple opcode.monitorenter) (null ∷ []) ≡ gets_stuck }
    ensures dynamic { does_on (whats.Call (codes "f") (codes "()V")) (insns.Dynamic 1) [] ≡ gets_stuck }
    ensures interface { does_on (called (codes "M") (codes "plain") (codes "()V")) (insns.Interface 1 1) (null ∷ [])
        ≡ gets_stuck }
    ensures multi { does_on (whats.Class (codes "[[I")) (insns.Multi 1 2) (int (pos 1) ∷ int (pos 1) ∷ []) ≡ gets_stuck }
    ensures float_constant { does_on whats.Float (insns.Constant 1) [] ≡ gets_stuck }
    ensures compare_floats { does (insns.Simple opcode.fcmpl) (int (pos 1) ∷ int (pos 1) ∷ []) ≡ gets_stuck }
{}
