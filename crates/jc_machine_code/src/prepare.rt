//! Programs are prepared.
ghost use Rattle.std.specs.Prelude.{◌≡◌, ℕ, ◌<◌, ◌^◌, length, All, IfOk};
ghost use Rattle.jc_methods.specs.WellMade.{IsWellMade};
ghost use Rattle.jc_programs.specs.declared.program.Program.{Program};
ghost use Rattle.jc_programs.specs.declared.program.Linked.{Linked};
ghost use Rattle.jc_machine_model.specs.Profile.{Location, init_of};
ghost use Rattle.jc_machine_model.specs.Programs.{IsProgram};
ghost use Rattle.jc_machine_code.specs.Prepared.{Correspond, IsPreparedMethod, IsPrepared};
ghost use Rattle.jc_machine_code.specs.Sites.{IsClassIndex, IsIndex, IsMade, IsPreparedFrom};

use crate::code::operations;
use crate::given::{begins_with_array, has_constant};
use crate::index::{ClassIndex, ProgramIndex};
use crate::methods::{is_enterable, is_init_name};
use crate::places::whats;
use crate::rows::prepared_rows;
use crate::site::Site;
use crate::types::{first_values, parameter_types, return_narrowing};
use crate::{PreparedClass, PreparedMethod, PreparedProgram};
use jc_bytes::{List, Memory};
use jc_methods::{Body, INIT_TYPE, method_types};
use jc_programs::{Linked, ProbeInit, Program};
use std::alloc::Global;

/// What a method of a class gives when it asks for a probe array.
fn init_of(linked: &Linked, body: &Body) -> Option<ProbeInit>
    ensures { (at : Location) → at.linked ≡ linked.now → at.body ≡ body.now → result ≡ init_of at }
{
    if is_init_name(body.name.as_slice()) && body.desc.as_slice() == INIT_TYPE {
        linked.probes
    } else {
        None
    }
}

/// A method of the class with a number.
fn prepared_method<'a>(
    alloc: Global,
    index: &ProgramIndex<'a>,
    class: u32,
    members: &ClassIndex<'a>,
    body: &'a Body,
) -> Result<PreparedMethod, Memory>
    requires { IsWellMade body.now }
    ensures { (program : Program) (linked : Linked) (i : ℕ) → IsIndex program index.now → IsClassIndex class linked members.now
        → IfOk result (λ method. IsPreparedMethod program class linked i body.now method) }
{
    let types = method_types(alloc, body.desc.as_slice())?;
    let whats = whats(alloc, body.uses.as_slice())?;
    let site = Site {
        index,
        class,
        is_init: is_init_name(body.name.as_slice()),
        init: init_of(members.linked, body),
        has_constant: has_constant(members.linked),
        given: members.given,
        begins_with_array: begins_with_array(members.given, &whats, body.code.as_slice()),
        narrowing: return_narrowing(types.returns),
        whats,
    };
    let operations = operations(alloc, &site, body.code.as_slice())?;
    let parameters = parameter_types(alloc, types.parameters.as_slice())?;
    let rows = prepared_rows(alloc, &site.whats, body.handlers.as_slice())?;
    Ok(PreparedMethod {
        operations,
        parameters,
        max_locals: body.max_locals,
        is_init: site.is_init,
        is_enterable: is_enterable(members.linked, body, members.most),
        rows,
    })
}

/// The methods of the class with a number.
fn prepared_methods<'a>(
    alloc: Global,
    index: &ProgramIndex<'a>,
    class: u32,
    members: &ClassIndex<'a>,
) -> Result<List<PreparedMethod>, Memory>
    requires { All IsWellMade members.now.linked.now.bodies }
    ensures { (program : Program) (linked : Linked) → IsIndex program index.now → IsClassIndex class linked members.now
        → IfOk result (λ methods. Correspond (IsPreparedMethod program class linked) linked.bodies methods) }
{
    let bodies = members.linked.bodies.as_slice();
    let mut methods = List::new(alloc);
    'preparing: for body in bodies {
        methods.push(prepared_method(alloc, index, class, members, body)?)?;
    }
    Ok(methods)
}

/// The class with a number.
fn prepared_class<'a>(
    alloc: Global,
    index: &ProgramIndex<'a>,
    class: u32,
    members: &ClassIndex<'a>,
) -> Result<PreparedClass, Memory>
    requires { IsMade members.now }
    ensures { (program : Program) → IsIndex program index.now → IfOk result (λ prepared. IsPreparedFrom program class members.now prepared) }
{
    let methods = prepared_methods(alloc, index, class, members)?;
    let statics = first_values(alloc, members.linked.statics.as_slice())?;
    Ok(PreparedClass {
        methods,
        statics,
        probes: members.linked.probes,
    })
}

/// The classes of a program.
fn prepared_classes(alloc: Global, index: &ProgramIndex<'_>) -> Result<List<PreparedClass>, Memory>
    requires few { length index.now.classes < 2 ^ 32 }
    requires made { All IsMade index.now.classes }
    ensures { (program : Program) → IsIndex program index.now
        → IfOk result (λ classes. Correspond (IsPreparedFrom program) index.now.classes classes) }
{
    let all = index.classes.as_slice();
    let mut classes = List::new(alloc);
    'preparing: for members in all {
        let class = classes.len() as u32;
        classes.push(prepared_class(alloc, index, class, members)?)?;
    }
    Ok(classes)
}

impl PreparedProgram {
    /// What each instruction of a program is, so that no turn of a thread looks anything up by name.
    ///
    /// # Errors
    ///
    /// `Memory` where memory was refused.
    pub fn of(alloc: Global, program: &Program) -> Result<PreparedProgram, Memory>
        requires { IsProgram program.now }
        ensures { IfOk result (λ prepared. IsPrepared program.now prepared) }
    {
        let index = ProgramIndex::of(alloc, program)?;
        let classes = prepared_classes(alloc, &index)?;
        Ok(PreparedProgram { classes })
    }
}
