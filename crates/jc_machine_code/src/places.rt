//! Where classes, methods and static fields stand, by their names.
ghost use Rattle.std.specs.Prelude.{◌≡◌, ◌<◌, ◌^◌, length, IfOk};
ghost use Rattle.std.specs.Option.{option_map};
ghost use Rattle.jc_machine_code.specs.Places.{same_member, same_name, class_has, is_method, is_static_field, ArePlaces, AreWhats, what_in};

use indexmap::IndexMap;
use jc_bytes::Memory;
use jc_methods::{Body, Use, What};
use jc_programs::{Linked, StaticField};
use std::alloc::Global;

/// The name and the descriptor of a method or of a field.
#[derive(Clone, Copy, Debug, PartialEq, Eq, Hash)]
pub struct Member<'a> {
    pub name: &'a [u8],
    pub desc: &'a [u8],
}

/// The numbers of classes by their names.
pub type Classes<'a> = IndexMap<&'a [u8], u32>;

/// The numbers of methods or of fields.
pub type Members<'a> = IndexMap<Member<'a>, u32>;

/// What stands at places in the constant pool.
pub type Whats<'a> = IndexMap<u16, &'a What>;

/// The number of the first class with each name.
pub fn class_places(alloc: Global, classes: &[Linked]) -> Result<Classes<'_>, Memory>
    requires { length classes.now < 2 ^ 32 }
    ensures { IfOk result (λ places. ArePlaces same_name class_has classes.now places.entries) }
{
    let mut places = IndexMap::new(alloc);
    let mut number = classes.len();
    'noting: while number > 0 {
        number -= 1;
        places.insert(classes[number].name.as_slice(), number as u32)?;
    }
    Ok(places)
}

/// The number of the first method with each name and descriptor.
pub fn method_places(alloc: Global, bodies: &[Body]) -> Result<Members<'_>, Memory>
    requires { length bodies.now < 2 ^ 32 }
    ensures { IfOk result (λ places. ArePlaces same_member is_method bodies.now places.entries) }
{
    let mut places = IndexMap::new(alloc);
    let mut number = bodies.len();
    'noting: while number > 0 {
        number -= 1;
        let body = &bodies[number];
        let method = Member {
            name: body.name.as_slice(),
            desc: body.desc.as_slice(),
        };
        places.insert(method, number as u32)?;
    }
    Ok(places)
}

/// The number of the first static field with each name and descriptor.
pub fn static_places(alloc: Global, statics: &[StaticField]) -> Result<Members<'_>, Memory>
    requires { length statics.now < 2 ^ 32 }
    ensures { IfOk result (λ places. ArePlaces same_member is_static_field statics.now places.entries) }
{
    let mut places = IndexMap::new(alloc);
    let mut number = statics.len();
    'noting: while number > 0 {
        number -= 1;
        let field = &statics[number];
        let member = Member {
            name: field.name.as_slice(),
            desc: field.desc.as_slice(),
        };
        places.insert(member, number as u32)?;
    }
    Ok(places)
}

/// What a body uses at each place in the constant pool.
pub fn whats(alloc: Global, uses: &[Use]) -> Result<Whats<'_>, Memory>
    ensures { IfOk result (λ whats. AreWhats uses.now whats.entries) }
{
    let mut whats = IndexMap::new(alloc);
    let mut number = uses.len();
    'noting: while number > 0 {
        number -= 1;
        let used = &uses[number];
        whats.insert(used.place, &used.what)?;
    }
    Ok(whats)
}

/// What stands at a place in the constant pool.
pub fn what_at<'a>(whats: &Whats<'a>, place: u16) -> Option<&'a What>
    ensures { option_map (λ w. w.now) result ≡ what_in whats.now.entries place }
{
    whats.get(&place).copied()
}
