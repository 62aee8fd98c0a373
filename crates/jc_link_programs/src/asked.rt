//! What code names where the method that instrumentation adds names it.
ghost use Rattle.std.specs.Prelude.{◌≡◌, ◌≤◌, IfOk};
ghost use Rattle.jc_methods.specs.ProbeMembers.{most_short};
ghost use Rattle.jc_emit.specs.Added.{bootstrap_code, init_code, push_count};
ghost use Rattle.jc_emit.specs.Marks.{push};
ghost use Rattle.jc_link_programs.specs.ProbeInits.{added_code, asked_in, asked_in_bootstrap, asked_in_init, given_by, loaded_place, places_of};

use jc_bytes::{List, Memory};
use jc_methods::{Fetch, Insn, MOST_SHORT, opcode};
use std::alloc::Global;

/// Where code has the number of probes.
#[derive(Clone, Copy, Debug, PartialEq, Eq)]
pub enum Counted {
    /// An instruction pushes it.
    Pushed(u32),
    /// It is loaded from this place of the constant pool.
    Loaded(u16),
}

/// What code names in the constant pool where the added method names it, and what gives the number of probes there.
#[derive(Clone, Copy, Debug, PartialEq, Eq)]
pub struct Asked {
    /// The field that keeps the array, and 0 where none does.
    pub field: u16,
    /// The id of the class.
    pub id: u16,
    /// The name of the class.
    pub name: u16,
    /// What gives the number of probes.
    pub count: Counted,
    /// The method that makes the array.
    pub fetch: u16,
}

/// The number that an instruction pushes, as `iconst`, `bipush` or `sipush`, or the place of the constant that it loads (JVM
/// Specification 6.5).
fn given_by(insn: &Insn) -> Option<Counted>
    ensures { result ≡ given_by insn.now }
{
    match insn {
        Insn::Simple(op) => {
            if *op >= opcode::ICONST_0 && *op <= opcode::ICONST_5 {
                Some(Counted::Pushed(u32::from(*op - opcode::ICONST_0)))
            } else {
                None
            }
        }
        Insn::Push { value, .. } => {
            if *value >= 0 {
                Some(Counted::Pushed(*value as u32))
            } else {
                None
            }
        }
        Insn::Constant { place } => Some(Counted::Loaded(*place)),
        _ => None,
    }
}

/// What code names where the method that keeps the array in a field does.
fn asked_in_init(code: &[Insn]) -> Option<Asked>
    ensures { result ≡ asked_in_init code.now }
{
    match code {
        [field, _, _, _, id, name, count, fetch, ..] => Some(Asked {
            field: field.pool_place()?,
            id: id.pool_place()?,
            name: name.pool_place()?,
            count: given_by(count)?,
            fetch: fetch.pool_place()?,
        }),
        _ => None,
    }
}

/// What code names where the bootstrap method does.
fn asked_in_bootstrap(code: &[Insn]) -> Option<Asked>
    ensures { result ≡ asked_in_bootstrap code.now }
{
    match code {
        [id, name, count, fetch, ..] => Some(Asked {
            field: 0,
            id: id.pool_place()?,
            name: name.pool_place()?,
            count: given_by(count)?,
            fetch: fetch.pool_place()?,
        }),
        _ => None,
    }
}

/// What code names where the method does that instrumentation adds.
pub fn asked_in(fetch: Fetch, code: &[Insn]) -> Option<Asked>
    ensures { result ≡ asked_in fetch code.now }
{
    match fetch {
        Fetch::Member => asked_in_init(code),
        Fetch::Constant => asked_in_bootstrap(code),
    }
}

/// The shortest instruction that pushes a number.
fn push(number: u32) -> Insn
    requires { number ≤ most_short }
    ensures { result ≡ push number }
{
    if number <= 5 {
        Insn::Simple(opcode::ICONST_0 + number as u8)
    } else if number <= 127 {
        Insn::Push {
            op: opcode::BIPUSH,
            value: number as i16,
        }
    } else {
        Insn::Push {
            op: opcode::SIPUSH,
            value: number as i16,
        }
    }
}

/// The place from which the number is loaded, and 0 where it is pushed.
fn loaded_place(count: Counted) -> u16
    ensures { result ≡ loaded_place count }
{
    match count {
        Counted::Pushed(_) => 0,
        Counted::Loaded(place) => place,
    }
}

/// The instruction that pushes the number of probes.
fn push_count(asked: &Asked, count: u32) -> Insn
    ensures { result ≡ push_count (places_of asked.now) count }
{
    if count <= MOST_SHORT {
        push(count)
    } else {
        Insn::Constant {
            place: loaded_place(asked.count),
        }
    }
}

/// The instruction that uses a member at a place.
fn member(op: u8, place: u16) -> Insn
    ensures { result ≡ Insn.Member op place }
{
    Insn::Member { op, place }
}

/// The code of the method that keeps the array in a field.
fn init_code(alloc: Global, asked: &Asked, count: u32) -> Result<List<Insn>, Memory>
    ensures { IfOk result (λ code. code ≡ init_code (places_of asked.now) count) }
{
    Ok(List::from_vec(vec![in alloc;
        member(opcode::GETSTATIC, asked.field),
        Insn::Simple(opcode::DUP),
        Insn::Jump {
            op: opcode::IFNONNULL,
            to: 10
        },
        Insn::Simple(opcode::POP),
        Insn::Constant2 { place: asked.id },
        Insn::Constant { place: asked.name },
        push_count(asked, count),
        member(opcode::INVOKESTATIC, asked.fetch),
        Insn::Simple(opcode::DUP),
        member(opcode::PUTSTATIC, asked.field),
        Insn::Simple(opcode::ARETURN),
    ]?))
}

/// The code of the bootstrap method.
fn bootstrap_code(alloc: Global, asked: &Asked, count: u32) -> Result<List<Insn>, Memory>
    ensures { IfOk result (λ code. code ≡ bootstrap_code (places_of asked.now) count) }
{
    Ok(List::from_vec(vec![in alloc;
        Insn::Constant2 { place: asked.id },
        Insn::Constant { place: asked.name },
        push_count(asked, count),
        member(opcode::INVOKESTATIC, asked.fetch),
        Insn::Simple(opcode::ARETURN),
    ]?))
}

/// The code of the method that instrumentation adds.
pub fn added_code(
    alloc: Global,
    fetch: Fetch,
    asked: &Asked,
    count: u32,
) -> Result<List<Insn>, Memory>
    ensures { IfOk result (λ code. code ≡ added_code fetch (places_of asked.now) count) }
{
    match fetch {
        Fetch::Member => init_code(alloc, asked, count),
        Fetch::Constant => bootstrap_code(alloc, asked, count),
    }
}
