//! What stands at the places in the pool that a body uses (JVM Specification 4.4, 4.9.1).
ghost use Rattle.std.specs.Prelude.{◌≡◌, ◌↔◌, IfOk, IfSome, IsTrue, Some, option_map};
ghost use Rattle.jc_bytes.specs.Descriptor.{IsFieldDescriptor, IsMethodDescriptor};
ghost use Rattle.jc_bytes.specs.Texts.{IsShortText};
ghost use Rattle.jc_methods.specs.WellMade.{HasShortTexts};
ghost use Rattle.jc_methods.specs.InsnUse.{IsOfTwoSlots, IsOneSlotConstant, IsTwoSlotConstant, IsMemberFor};
ghost use Rattle.jc_pool.specs.Lookup.{member, computed_of};
ghost use Rattle.jc_body.specs.Standing.{of_computed, of_member, found_at, what_of_member, what_of_constant, what_of};
ghost use Rattle.jc_body.specs.Standing.{what_at, StandsAt, SuitsInterface, Meets, FoundSuits, HasRightEntry};
ghost use Rattle.jc_body.specs.FoundView.{computed, found};
ghost use Rattle.jc_body.specs.Sizes.{IsOfShortTexts};
ghost use Rattle.jc_pool.specs.Lookup as MemberTexts;

use jc_bytes::{Bytes, Memory};
use jc_methods::{Insn, What, opcode};
use jc_pool::{ConstText, MemberText, Pool};
use std::alloc::Global;

/// A constant that is computed when it is first used, by a bootstrap method of the class.
#[derive(Clone, Copy, Debug, PartialEq, Eq)]
pub struct ComputedText<'a> {
    /// Its name.
    pub name: &'a [u8],
    /// Its descriptor.
    pub desc: &'a [u8],
    /// The number of the bootstrap method.
    pub bootstrap: u16,
}

/// What stands at a place.
#[derive(Clone, Copy, Debug, PartialEq, Eq)]
pub enum Standing<'a> {
    /// A constant that is computed when it is first used.
    Computed(ComputedText<'a>),
    /// A field, a method, or a call that is linked at run time.
    Member(MemberText<'a>),
    /// A class, by its name.
    Class(&'a [u8]),
    /// Another constant.
    Constant(ConstText),
}

/// The computed constant at a place, if its name and its descriptor stand there too. No entry but that of a computed
/// constant or of a call has a bootstrap method, so other members aren't looked at.
#[tactic(auto, using(crate::proofs::ComputedLaws::none_computed, crate::proofs::ComputedLaws::not_computed, crate::proofs::ComputedLaws::not_bootstrapped, crate::proofs::ComputedLaws::computed_is))]
fn computed_at(pool: &Pool, place: u16) -> Option<ComputedText<'_>>
    ensures stands { option_map computed result ≡ computed_of pool.now place }
    ensures short { IfSome result (λ c. IsShortText c.name.now × IsShortText c.desc.now) }
{
    let Ok(bootstrap) = pool.bootstrap_at(place) else {
        return None;
    };
    match pool.member_at(place) {
        Ok(m) if m.tag == 17 => Some(ComputedText {
            name: m.name,
            desc: m.desc,
            bootstrap,
        }),
        _ => None,
    }
}

/// What stands at a place, if all that its entry names stands there too.
#[tactic(auto, unfolding(crate::specs::Standing::found_at))]
fn standing_at(pool: &Pool, place: u16) -> Option<Standing<'_>>
    ensures stands { option_map found result ≡ found_at pool.now place }
    ensures short { IfSome result (λ standing. IsOfShortTexts (found standing)) }
{
    if let Some(constant) = computed_at(pool, place) {
        return Some(Standing::Computed(constant));
    }
    if let Ok(member) = pool.member_at(place) {
        return Some(Standing::Member(member));
    }
    if let Ok(name) = pool.class_at(place) {
        return Some(Standing::Class(name));
    }
    match pool.const_at(place) {
        Ok(constant) => Some(Standing::Constant(constant)),
        Err(_) => None,
    }
}

/// What a member is to a body.
fn what_of_member(alloc: Global, m: &MemberText<'_>) -> Result<What, Memory>
    requires { MemberTexts.HasShortTexts (member m.now) }
    ensures what { IfOk result (λ what. what ≡ what_of_member (member m.now)) }
    ensures short { IfOk result HasShortTexts }
{
    let class = Bytes::copy_of(alloc, m.class)?;
    let name = Bytes::copy_of(alloc, m.name)?;
    let desc = Bytes::copy_of(alloc, m.desc)?;
    Ok(match m.tag {
        9 => What::Field { class, name, desc },
        18 => What::Call { name, desc },
        _ => What::Method { class, name, desc },
    })
}

/// What a constant is to a body. Classes and computed constants are told by more than this.
fn what_of_constant(constant: ConstText) -> Option<What>
    ensures what { result ≡ what_of_constant constant }
    ensures short { IfSome result HasShortTexts }
{
    match constant {
        ConstText::Int(value) => Some(What::Int(value)),
        ConstText::Long(value) => Some(What::Long(value)),
        ConstText::Float => Some(What::Float),
        ConstText::Double => Some(What::Double),
        ConstText::Text => Some(What::Text),
        ConstText::Handle => Some(What::Handle),
        ConstText::MethodKind => Some(What::MethodKind),
        ConstText::Class | ConstText::Computed => None,
    }
}

/// What a body uses at a place.
///
/// # Errors
///
/// `Memory` where memory was refused.
pub fn what_at(alloc: Global, pool: &Pool, place: u16) -> Result<Option<What>, Memory>
    ensures what { IfOk result (λ what. what ≡ what_at pool.now place) }
    ensures short { IfOk result (λ what. IfSome what HasShortTexts) }
{
    match standing_at(pool, place) {
        None => Ok(None),
        Some(Standing::Computed(constant)) => Ok(Some(What::Computed {
            name: Bytes::copy_of(alloc, constant.name)?,
            desc: Bytes::copy_of(alloc, constant.desc)?,
            bootstrap: constant.bootstrap,
        })),
        Some(Standing::Member(member)) => Ok(Some(what_of_member(alloc, &member)?)),
        Some(Standing::Class(name)) => Ok(Some(What::Class(Bytes::copy_of(alloc, name)?))),
        Some(Standing::Constant(constant)) => Ok(what_of_constant(constant)),
    }
}

/// Whether values of the type take two slots (JVM Specification 2.6.1).
fn is_of_two_slots(desc: &[u8]) -> bool
    ensures { IsTrue result ↔ IsOfTwoSlots desc.now }
{
    matches!(desc, [b'J' | b'D'])
}

/// Whether the computed constant that stands at the place has the descriptor of a field.
fn has_value_descriptor(pool: &Pool, place: u16, c: &ComputedText<'_>) -> bool
    requires { StandsAt pool.now place (of_computed (computed c.now)) }
    ensures { IsTrue result ↔ IsFieldDescriptor c.now.desc.now }
{
    pool.has_field_descriptor(place)
}

/// Whether the member that stands at the place has the descriptor of a field.
fn has_field_descriptor(pool: &Pool, place: u16, m: &MemberText<'_>) -> bool
    requires { StandsAt pool.now place (of_member (member m.now)) }
    ensures { IsTrue result ↔ IsFieldDescriptor m.now.desc.now }
{
    pool.has_field_descriptor(place)
}

/// Whether the member that stands at the place has the descriptor of a method.
fn has_method_descriptor(pool: &Pool, place: u16, m: &MemberText<'_>) -> bool
    requires { StandsAt pool.now place (of_member (member m.now)) }
    ensures { IsTrue result ↔ IsMethodDescriptor m.now.desc.now }
{
    pool.has_method_descriptor(place)
}

/// Whether what stands at the place is a constant that `ldc` loads.
fn is_one_slot_constant(pool: &Pool, place: u16, standing: &Standing<'_>) -> bool
    requires { StandsAt pool.now place (found standing.now) }
    ensures { IsTrue result ↔ Meets IsOneSlotConstant (what_of (found standing.now)) }
{
    match standing {
        Standing::Computed(c) => !is_of_two_slots(c.desc) && has_value_descriptor(pool, place, c),
        Standing::Member(_) => false,
        Standing::Class(_) => true,
        Standing::Constant(constant) => matches!(
            constant,
            ConstText::Int(_)
                | ConstText::Float
                | ConstText::Text
                | ConstText::Handle
                | ConstText::MethodKind
        ),
    }
}

/// Whether what stands there is a constant that `ldc2_w` loads.
fn is_two_slot_constant(standing: &Standing<'_>) -> bool
    ensures { IsTrue result ↔ Meets IsTwoSlotConstant (what_of (found standing.now)) }
{
    match standing {
        Standing::Computed(c) => is_of_two_slots(c.desc),
        Standing::Member(_) | Standing::Class(_) => false,
        Standing::Constant(constant) => matches!(constant, ConstText::Long(_) | ConstText::Double),
    }
}

/// Whether the member that stands at the place is what an instruction of this opcode, from
/// `getstatic` to `invokestatic`, needs.
fn is_member_for(major: u16, op: u8, pool: &Pool, place: u16, m: &MemberText<'_>) -> bool
    requires { StandsAt pool.now place (of_member (member m.now)) }
    ensures { IsTrue result ↔ (IsMemberFor op (what_of_member (member m.now)) × SuitsInterface major op (member m.now)) }
{
    match m.tag {
        9 => op <= opcode::PUTFIELD && has_field_descriptor(pool, place, m),
        11 => op >= opcode::INVOKESPECIAL && (major >= 52 && has_method_descriptor(pool, place, m)),
        18 => false,
        _ => op > opcode::PUTFIELD && has_method_descriptor(pool, place, m),
    }
}

/// Whether what stands at the place is of the kind that the instruction needs (JVM Specification
/// 4.9.1).
fn suits(major: u16, insn: &Insn, pool: &Pool, place: u16, standing: &Standing<'_>) -> bool
    requires { StandsAt pool.now place (found standing.now) }
    ensures { IsTrue result ↔ FoundSuits major insn.now (found standing.now) }
{
    match insn {
        Insn::Constant { .. } => is_one_slot_constant(pool, place, standing),
        Insn::Constant2 { .. } => is_two_slot_constant(standing),
        Insn::Member { op, .. } => match standing {
            Standing::Member(m) => is_member_for(major, *op, pool, place, m),
            _ => false,
        },
        Insn::Interface { .. } => match standing {
            Standing::Member(m) => m.tag == 11 && has_method_descriptor(pool, place, m),
            _ => false,
        },
        Insn::Dynamic { .. } => match standing {
            Standing::Member(m) => m.tag == 18 && has_method_descriptor(pool, place, m),
            _ => false,
        },
        Insn::OfClass { .. } | Insn::Multi { .. } => matches!(standing, Standing::Class(_)),
        _ => false,
    }
}

/// Whether the instruction names no place in the pool, or one with an entry of the kind that it needs.
pub fn has_right_entry(major: u16, pool: &Pool, insn: &Insn) -> bool
    ensures { IsTrue result ↔ HasRightEntry major pool.now insn.now }
{
    match insn.pool_place() {
        None => true,
        Some(place) => match standing_at(pool, place) {
            None => false,
            Some(standing) => suits(major, insn, pool, place, &standing),
        },
    }
}
