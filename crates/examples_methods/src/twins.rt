//! Twins that were worked by hand from the JVM Specification and JaCoCo's documentation on control flow. Each holds by
//! computation.
#![tactic(auto, unfolding(jc_emit::specs::Emission::emission, jc_emit::specs::Items::twin_items, jc_methods::specs::Widened::widened, jc_methods::specs::Flow::inverse_of))]

ghost use Rattle.std.specs.Prelude.{◌≡◌, ◌+◌, negsuc, map};
ghost use Rattle.jc_methods.specs.Widened.{all_wide, widened};
ghost use Rattle.jc_methods.specs.declared.insn.Insn.TheVariants as insns;
ghost use Rattle.jc_kinds_after.specs.Shift.{with_slot};
ghost use Rattle.jc_methods.specs.declared.probe_members.Fetch.TheVariants.{Member};
ghost use Rattle.jc_emit.specs.Sizes.{narrow};
ghost use Rattle.jc_emit.specs.Emission.{emission, form_by};
ghost use Rattle.jc_emit.specs.Items.{at_of, own_of, twin_items};
ghost use Rattle.jc_emit.specs.Shift.{shifted_state};
ghost use Rattle.examples_methods.specs.TwinExamples.{by_member, by_constant, widest, code_in_form};
ghost use Rattle.examples_methods.specs.TwinExamples.{abs, abs_states, abs_new_code, abs_at, abs_own, abs_extra, abs_new_frames, abs_wide_frames};
ghost use Rattle.examples_methods.specs.TwinExamples.{abs_by_constant_code, abs_by_constant_at, abs_by_constant_own};
ghost use Rattle.examples_methods.specs.TwinExamples.{abs_by_constant_extra, abs_by_constant_frames, abs_by_constant_wide_frames};
ghost use Rattle.examples_methods.specs.TwinExamples.{by_integers, abs_late_code};
ghost use Rattle.examples_methods.specs.TwinExamples.{jumps_twice, second_wide, second_wide_code};
ghost use Rattle.examples_methods.specs.TwinExamples.{counts_down, counts_down_states, counts_down_new_code, counts_down_at};
ghost use Rattle.examples_methods.specs.TwinExamples.{counts_down_own, counts_down_extra, counts_down_new_frames};
ghost use Rattle.examples_methods.specs.TwinExamples.{counts_down_wide_frames};
ghost use Rattle.examples_methods.specs.TwinExamples.{jumps_to_next, jumps_to_next_states, jumps_to_next_new_code, jumps_to_next_at};
ghost use Rattle.examples_methods.specs.TwinExamples.{jumps_to_next_own, jumps_to_next_extra, jumps_to_next_new_frames};
ghost use Rattle.examples_methods.specs.TwinExamples.{jumps_to_next_wide_frames, wide_code, wide_at, wide_own};
ghost use Rattle.examples_methods.specs.TwinExamples.{switches, switches_states, switches_new_code, switches_at, switches_own};
ghost use Rattle.examples_methods.specs.TwinExamples.{switches_extra, switches_new_frames, switches_wide_frames};
ghost use Rattle.examples_methods.specs.TwinExamples.{catches, catches_states, catches_new_code, catches_at, catches_own, catches_extra};
ghost use Rattle.examples_methods.specs.TwinExamples.{catches_new_rows, catches_new_frames, catches_wide_frames};
ghost use Rattle.examples_methods.specs.TwinExamples.{lined, lined_lines, lined_vars, lined_kind_vars, before_shift, after_shift};

/// The absolute value of an int, with a probe on each return.
pub fn worked_abs()
    ensures code { (emission abs 0 abs_states (by_member 0)).code ≡ abs_new_code }
    ensures at { (emission abs 0 abs_states (by_member 0)).at ≡ abs_at }
    ensures own { (emission abs 0 abs_states (by_member 0)).own ≡ abs_own }
    ensures extra { (emission abs 0 abs_states (by_member 0)).extra ≡ abs_extra }
    ensures frames { (emission abs 0 abs_states (by_member 0)).frames ≡ abs_new_frames }
    ensures wide_frames { (emission abs 0 abs_states (by_member 0)).wide_frames ≡ abs_wide_frames }
    ensures wide { code_in_form abs widest ≡ widened all_wide (code_in_form abs (narrow Member)) }
{}

/// The same method, which gets its array by a constant: one instruction more stands in front.
pub fn worked_abs_by_constant()
    ensures code { (emission abs 0 abs_states (by_constant 0)).code ≡ abs_by_constant_code }
    ensures at { (emission abs 0 abs_states (by_constant 0)).at ≡ abs_by_constant_at }
    ensures own { (emission abs 0 abs_states (by_constant 0)).own ≡ abs_by_constant_own }
    ensures extra { (emission abs 0 abs_states (by_constant 0)).extra ≡ abs_by_constant_extra }
    ensures frames { (emission abs 0 abs_states (by_constant 0)).frames ≡ abs_by_constant_frames }
    ensures wide_frames { (emission abs 0 abs_states (by_constant 0)).wide_frames ≡ abs_by_constant_wide_frames }
{}

/// The last id that `sipush` pushes, and the first one that it doesn't.
pub fn worked_ids()
    ensures code { (emission abs 32767 abs_states by_integers).code ≡ abs_late_code }
{}

/// A loop: a probe on the goto, and one on the return.
pub fn worked_counts_down()
    ensures code { (emission counts_down 0 counts_down_states (by_member 0)).code ≡ counts_down_new_code }
    ensures at { (emission counts_down 0 counts_down_states (by_member 0)).at ≡ counts_down_at }
    ensures own { (emission counts_down 0 counts_down_states (by_member 0)).own ≡ counts_down_own }
    ensures extra { (emission counts_down 0 counts_down_states (by_member 0)).extra ≡ counts_down_extra }
    ensures frames { (emission counts_down 0 counts_down_states (by_member 0)).frames ≡ counts_down_new_frames }
    ensures wide_frames { (emission counts_down 0 counts_down_states (by_member 0)).wide_frames ≡ counts_down_wide_frames }
    ensures wide { code_in_form counts_down widest ≡ widened all_wide (code_in_form counts_down (narrow Member)) }
{}

/// A jump to the next instruction: a probe on each edge.
pub fn worked_jumps_to_next()
    ensures code { (emission jumps_to_next 0 jumps_to_next_states (by_member 0)).code ≡ jumps_to_next_new_code }
    ensures at { (emission jumps_to_next 0 jumps_to_next_states (by_member 0)).at ≡ jumps_to_next_at }
    ensures own { (emission jumps_to_next 0 jumps_to_next_states (by_member 0)).own ≡ jumps_to_next_own }
    ensures extra { (emission jumps_to_next 0 jumps_to_next_states (by_member 0)).extra ≡ jumps_to_next_extra }
    ensures frames { (emission jumps_to_next 0 jumps_to_next_states (by_member 0)).frames ≡ jumps_to_next_new_frames }
    ensures wide_frames { (emission jumps_to_next 0 jumps_to_next_states (by_member 0)).wide_frames ≡ jumps_to_next_wide_frames }
    ensures wide { code_in_form jumps_to_next widest ≡ widened all_wide (code_in_form jumps_to_next (narrow Member)) }
{}

/// A jump over a switch of two targets.
pub fn worked_switches()
    ensures code { (emission switches 0 switches_states (by_member 0)).code ≡ switches_new_code }
    ensures at { (emission switches 0 switches_states (by_member 0)).at ≡ switches_at }
    ensures own { (emission switches 0 switches_states (by_member 0)).own ≡ switches_own }
    ensures extra { (emission switches 0 switches_states (by_member 0)).extra ≡ switches_extra }
    ensures frames { (emission switches 0 switches_states (by_member 0)).frames ≡ switches_new_frames }
    ensures wide_frames { (emission switches 0 switches_states (by_member 0)).wide_frames ≡ switches_wide_frames }
    ensures wide { code_in_form switches widest ≡ widened all_wide (code_in_form switches (narrow Member)) }
{}

/// Two exception rows with one handler.
pub fn worked_catches()
    ensures code { (emission catches 0 catches_states (by_member 1)).code ≡ catches_new_code }
    ensures at { (emission catches 0 catches_states (by_member 1)).at ≡ catches_at }
    ensures own { (emission catches 0 catches_states (by_member 1)).own ≡ catches_own }
    ensures extra { (emission catches 0 catches_states (by_member 1)).extra ≡ catches_extra }
    ensures handlers { (emission catches 0 catches_states (by_member 1)).handlers ≡ catches_new_rows }
    ensures frames { (emission catches 0 catches_states (by_member 1)).frames ≡ catches_new_frames }
    ensures wide_frames { (emission catches 0 catches_states (by_member 1)).wide_frames ≡ catches_wide_frames }
    ensures wide { code_in_form catches widest ≡ widened all_wide (code_in_form catches (narrow Member)) }
{}

/// In the wide layout a conditional jump is its inverse over a goto, which is no image.
pub fn worked_wide()
    ensures code { code_in_form jumps_to_next widest ≡ wide_code }
    ensures at { map at_of (twin_items jumps_to_next 0 widest) ≡ wide_at }
    ensures own { map own_of (twin_items jumps_to_next 0 widest) ≡ wide_own }
{}

/// One of two conditional jumps is wide.
pub fn worked_second_wide()
    ensures code { code_in_form jumps_twice (form_by jumps_twice 0 Member second_wide) ≡ second_wide_code }
    ensures wide { widened second_wide (code_in_form jumps_twice (narrow Member)) ≡ second_wide_code }
{}

/// Lines and variables begin where jumps land, and end there or at the new end; one local variable and three slots of the
/// stack are more.
pub fn worked_tables()
    ensures lines { (emission lined 0 counts_down_states (by_member 0)).lines ≡ lined_lines }
    ensures vars { (emission lined 0 counts_down_states (by_member 0)).vars ≡ lined_vars }
    ensures kind_vars { (emission lined 0 counts_down_states (by_member 0)).kind_vars ≡ lined_kind_vars }
    ensures max_stack { (emission lined 0 counts_down_states (by_member 0)).max_stack ≡ 5 }
    ensures max_locals { (emission lined 0 counts_down_states (by_member 0)).max_locals ≡ 2 }
{}

/// With one argument, a local variable behind it is one further, also that of `iinc`, and the argument stays.
pub fn worked_shift()
    ensures load { with_slot 1 (insns.Local 21 3) ≡ insns.Local 21 4 }
    ensures argument { with_slot 1 (insns.Local 21 0) ≡ insns.Local 21 0 }
    ensures increment { with_slot 1 (insns.Inc 1 (negsuc 0)) ≡ insns.Inc 2 (negsuc 0) }
    ensures state { shifted_state 1 3 (λ i. i + 2) before_shift ≡ after_shift }
{}
