//! How many bytes an instruction takes.
ghost use Rattle.std.specs.Prelude.{◌≡◌, ◌≤◌, true, nat_lt, if◌then◌else◌};
ghost use Rattle.jc_bytes.specs.Reader.{most_read};
ghost use Rattle.jc_methods.specs.Insn.{arm_count};
ghost use Rattle.jc_insn.specs.Items.{padding};
ghost use Rattle.jc_insn.specs.Sizes.{push_size, local_size, is_narrow_inc, jump_size, size_of, IsJump, IsShortest};

use jc_methods::{Form, Insn, form_of, opcode};

/// How many bytes stand between the opcode of a switch at this offset and its operands.
pub fn padding(at: u32) -> u32
    ensures { result ≡ padding at }
{
    3 - at % 4
}

/// The length of `bipush` or `sipush`.
fn push_size(form: Form) -> u32
    ensures { result ≡ push_size form }
{
    match form {
        Form::PushByte => 2,
        _ => 3,
    }
}

/// The length of a load or a store.
fn local_size(slot: u16) -> u32
    ensures { result ≡ local_size slot }
{
    if slot < 4 {
        1
    } else if slot < 256 {
        2
    } else {
        4
    }
}

/// Whether `iinc` has room for its operands without `wide`.
pub fn is_narrow_inc(slot: u16, by: i16) -> bool
    ensures { result ≡ is_narrow_inc slot by }
{
    slot < 256 && (-128 <= by && by <= 127)
}

/// The length of `iinc`.
fn inc_size(slot: u16, by: i16) -> u32
    ensures { result ≡ (if is_narrow_inc slot by then 3 else 6) }
{
    if is_narrow_inc(slot, by) { 3 } else { 6 }
}

/// The length of `ldc` or `ldc_w`.
fn constant_size(place: u16) -> u32
    ensures { result ≡ (if nat_lt place 256 then 2 else 3) }
{
    if place < 256 { 2 } else { 3 }
}

/// The length of a jump.
fn jump_size(wide: bool, op: u8) -> u32
    ensures { result ≡ jump_size wide op }
{
    if !wide {
        3
    } else if op == opcode::GOTO {
        5
    } else {
        8
    }
}

/// The length of an instruction by its form.
fn by_form(insn: &Insn, at: u32, wide: bool) -> u32
    requires { arm_count insn.now ≤ most_read }
    ensures { result ≡ size_of at wide insn.now }
{
    match insn {
        Insn::Simple(_) => 1,
        Insn::Push { op, .. } => push_size(form_of(*op)),
        Insn::Local { slot, .. } => local_size(*slot),
        Insn::Inc { slot, by } => inc_size(*slot, *by),
        Insn::Constant { place } => constant_size(*place),
        Insn::Jump { op, .. } => jump_size(wide, *op),
        Insn::NewArray { .. } => 2,
        Insn::Constant2 { .. } | Insn::Member { .. } | Insn::OfClass { .. } => 3,
        Insn::Multi { .. } => 4,
        Insn::Interface { .. } | Insn::Dynamic { .. } => 5,
        Insn::Table { arms, .. } => 13 + padding(at) + 4 * arms.len() as u32,
        Insn::Lookup { arms, .. } => 9 + padding(at) + 8 * arms.len() as u32,
    }
}

/// The length of the shortest spelling of an instruction at the offset `at` of the code
/// (JVM Specification 6.5), which for a switch depends on `at`.
///
/// A jump takes three bytes. Where `wide` is true, a `goto` takes the five of `goto_w`, and a
/// conditional jump the eight of its inverse over a `goto_w`.
pub fn size_of(insn: &Insn, at: u32, wide: bool) -> u32
    requires { arm_count insn.now ≤ most_read }
    ensures size { result ≡ size_of at wide insn.now }
    // No spelling is shorter, but for wide jumps.
    ensures shortest { (wide ≡ true → IsJump insn.now → ⊥) → IsShortest at insn.now result }
{
    by_form(insn, at, wide)
}
