//! Elements of arrays of references.
ghost use Rattle.std.specs.Prelude.{◌≡◌, ◌<◌, ◌++◌, true, false, length, IfOk, MatchOption, option_map};
ghost use Rattle.jc_methods.specs.VerificationTypes.{Names, verification_type, object, type_state, Grows, IsNumbered, IsNumberedState};
ghost use Rattle.jc_methods.specs.declared.kind.Kind.TheVariants as kinds;
ghost use Rattle.jc_kinds_after.specs.Step.{is_array_name, element_name as name_of_elements, picked};
ghost use Rattle.jc_kinds_after.specs.Elements.{AreElements, IsElementOf};

use crate::Want;
use crate::arrays::object_of;
use crate::form::Give;
use crate::moves::move_state;
use jc_bytes::{Memory, Names};
use jc_methods::{Kind, State};
use std::alloc::Global;
use std::collections::HashMap;

/// The class of the elements of an array of references, by the name of the array's class.
fn element_name(name: &[u8]) -> Option<&[u8]>
    ensures { MatchOption result (is_array_name name.now ≡ false) (λ element.
        (is_array_name name.now ≡ true) × (element.now ≡ name_of_elements name.now)) }
{
    match name {
        [b'[', b'[', ..] => Some(&name[1..]),
        [b'[', b'L', rest @ ..] => Some(&rest[..rest.len().saturating_sub(1)]),
        _ => None,
    }
}

/// The elements of arrays of references, with the name of each array's class read once.
#[derive(Debug, Drop)]
pub struct Elements {
    /// By the numbers of the arrays' classes.
    known: HashMap<u32, Kind>,
}

impl Elements {
    /// Those of no array yet.
    pub fn new(alloc: Global) -> Elements
        ensures { (names : Names) → AreElements names result }
    {
        Elements {
            known: HashMap::new(alloc),
        }
    }

    /// An element of an array of the class with this number, where it is one of references.
    fn of_class(
        &mut self,
        alloc: Global,
        number: u32,
        names: &mut Names,
    ) -> Result<Option<Kind>, Memory>
        requires number { number < length names.old }
        requires known { AreElements names.old self.old }
        ensures element { IfOk result (IsElementOf names.old names.new (kinds.Object number)) }
        ensures names { Grows names.old names.new }
        ensures known { AreElements names.new self.new }
    {
        if let Some(element) = self.known.get(&number).copied() {
            return Ok(Some(element));
        }
        let Some(name) = element_name(names.text(number)) else {
            return Ok(None);
        };
        let name = Vec::from_slice(alloc, name)?;
        let element = object_of(alloc, name.as_slice(), names)?;
        self.known.insert(number, element)?;
        Ok(Some(element))
    }

    /// An element of an array of references, where it is one.
    fn of(&mut self, alloc: Global, array: Kind, names: &mut Names) -> Result<Option<Kind>, Memory>
        requires array { IsNumbered (length names.old) array }
        requires known { AreElements names.old self.old }
        ensures element { IfOk result (IsElementOf names.old names.new array) }
        ensures names { Grows names.old names.new }
        ensures known { AreElements names.new self.new }
    {
        match array {
            Kind::Null => Ok(Some(Kind::Null)),
            Kind::Object(number) => self.of_class(alloc, number, names),
            _ => Ok(None),
        }
    }
}

/// The state after `aaload`.
pub fn pick(
    alloc: Global,
    state: State,
    most: u16,
    elements: &mut Elements,
    names: &mut Names,
) -> Result<Option<State>, Memory>
    requires state { IsNumberedState (length names.old) state }
    requires elements { AreElements names.old elements.old }
    ensures after { IfOk result (λ o. (more : Names) → option_map (type_state (names.new ++ more)) o ≡ picked most (type_state names.old state)) }
    ensures names { Grows names.old names.new }
    ensures elements { AreElements names.new elements.new }
{
    let stack = state.stack.as_slice();
    if stack.len() < 2 {
        return Ok(None);
    }
    let array = stack[stack.len() - 2];
    match elements.of(alloc, array, names)? {
        Some(element) => Ok(move_state(
            alloc,
            state,
            &[Want::Reference, Want::Int],
            &[Give::Kind(element)],
            most,
        )?),
        None => Ok(None),
    }
}
