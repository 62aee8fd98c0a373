//! The types of the members of a program's classes, with classes by their numbers.
ghost use Rattle.std.specs.Prelude.{◌≡◌, length, map, option_map, All, IfOk, MatchOption, None, false};
ghost use Rattle.std.specs.List.{AllByRecursion};
ghost use Rattle.jc_methods.specs.ValueTypes.{held_by};
ghost use Rattle.jc_methods.specs.VerificationTypes.{Names as NameList, Grows, IsNumbered, verification_type};
ghost use Rattle.jc_methods.specs.WellMade.{IsWellMade};
ghost use Rattle.jc_programs.specs.declared.program.Program.{Program as ProgramOf};
ghost use Rattle.jc_programs.specs.declared.program.Linked.{Linked as LinkedOf};
ghost use Rattle.jc_programs.specs.Members.{body_of};
ghost use Rattle.jc_refs_check.specs.HeldTypes.{IsNumberedResult, IsSignatureOf, IsTypeOf, EachSays, AreTypesOf, AreTypes, SaysMethod, SaysField, has_field};

use jc_bytes::{List, Memory, Names, is_field_descriptor};
use jc_methods::{Body, Kind, ValueType, field_type, method_types};
use jc_programs::{Entry, Linked, Program, StaticField};
use std::alloc::Global;

/// The types that a method takes and gives.
#[derive(Debug, Drop)]
pub struct Signature {
    pub parameters: List<Kind>,
    pub returns: Option<Kind>,
}

/// The types of the members of a class.
#[derive(Debug, Drop)]
pub struct MemberTypes {
    pub methods: List<Signature>,
    pub statics: List<Kind>,
}

/// The types of the members of each class of a program.
#[derive(Debug, Drop)]
pub struct ProgramTypes {
    pub classes: List<MemberTypes>,
}

/// The types of values.
fn kinds_of(
    alloc: Global,
    values: &[ValueType<'_>],
    names: &mut Names,
) -> Result<List<Kind>, Memory>
    ensures says { IfOk result (λ kinds. map (verification_type names.new) kinds ≡ map held_by values.now) }
    ensures numbered { IfOk result (λ kinds. AllByRecursion (IsNumbered (length names.new)) kinds) }
    ensures names { Grows names.old names.new }
{
    let mut kinds = List::new(alloc);
    'numbering: for value in values {
        let kind = value.kind(alloc, names)?;
        kinds.push(kind)?;
    }
    Ok(kinds)
}

/// The type of a result.
fn kind_of_result(
    alloc: Global,
    returns: Option<ValueType<'_>>,
    names: &mut Names,
) -> Result<Option<Kind>, Memory>
    ensures says { IfOk result (λ kind. option_map (verification_type names.new) kind ≡ option_map held_by returns.entry) }
    ensures numbered { IfOk result (λ kind. IsNumberedResult (length names.new) kind) }
    ensures names { Grows names.old names.new }
{
    match returns {
        Some(value) => Ok(Some(value.kind(alloc, names)?)),
        None => Ok(None),
    }
}

/// The types that a method takes and gives.
fn signature_of(alloc: Global, body: &Body, names: &mut Names) -> Result<Signature, Memory>
    requires { IsWellMade body.now }
    ensures signature { IfOk result (λ signature. IsSignatureOf names.new body.now signature) }
    ensures names { Grows names.old names.new }
{
    let types = method_types(alloc, &body.desc)?;
    let parameters = kinds_of(alloc, &types.parameters, names)?;
    let returns = kind_of_result(alloc, types.returns, names)?;
    Ok(Signature {
        parameters,
        returns,
    })
}

/// The type of a static field. Nothing is expected where its descriptor is of no type.
fn kind_of_field(alloc: Global, field: &StaticField, names: &mut Names) -> Result<Kind, Memory>
    ensures type_of { IfOk result (λ kind. IsTypeOf names.new field.now kind) }
    ensures names { Grows names.old names.new }
{
    if !is_field_descriptor(&field.desc) {
        return Ok(Kind::Top);
    }
    let kind = field_type(&field.desc).kind(alloc, names)?;
    Ok(kind)
}

/// The types that methods take and give.
fn signatures(alloc: Global, bodies: &[Body], names: &mut Names) -> Result<List<Signature>, Memory>
    requires { All IsWellMade bodies.now }
    ensures signatures { IfOk result (λ methods. EachSays (IsSignatureOf names.new) bodies.now methods) }
    ensures names { Grows names.old names.new }
{
    let mut methods = List::new(alloc);
    'numbering: for body in bodies {
        let signature = signature_of(alloc, body, names)?;
        methods.push(signature)?;
    }
    Ok(methods)
}

/// The types of static fields.
fn kinds_of_fields(
    alloc: Global,
    fields: &[StaticField],
    names: &mut Names,
) -> Result<List<Kind>, Memory>
    ensures types { IfOk result (λ kinds. EachSays (IsTypeOf names.new) fields.now kinds) }
    ensures names { Grows names.old names.new }
{
    let mut kinds = List::new(alloc);
    'numbering: for field in fields {
        let kind = kind_of_field(alloc, field, names)?;
        kinds.push(kind)?;
    }
    Ok(kinds)
}

/// The types of the members of a class.
fn types_of_class(alloc: Global, class: &Linked, names: &mut Names) -> Result<MemberTypes, Memory>
    requires { All IsWellMade class.now.bodies }
    ensures types { IfOk result (λ types. AreTypesOf names.new class.now types) }
    ensures names { Grows names.old names.new }
{
    let methods = signatures(alloc, &class.bodies, names)?;
    let statics = kinds_of_fields(alloc, &class.statics, names)?;
    Ok(MemberTypes { methods, statics })
}

impl ProgramTypes {
    /// The types of the members of a program's classes.
    ///
    /// # Errors
    ///
    /// `Memory` where memory was refused, or where a class is new and the list has 4,294,967,295 names.
    pub fn of(alloc: Global, program: &Program, names: &mut Names) -> Result<ProgramTypes, Memory>
        requires { All (λ (c : LinkedOf). All IsWellMade c.bodies) program.now.classes }
        ensures types { IfOk result (λ types. AreTypes names.new program.now types) }
        ensures names { Grows names.old names.new }
    {
        let mut classes = List::new(alloc);
        'numbering: for class in program.classes.as_slice() {
            let types = types_of_class(alloc, class, names)?;
            classes.push(types)?;
        }
        Ok(ProgramTypes { classes })
    }

    /// The types that a method takes and gives.
    pub fn method(&self, method: Entry) -> Option<&Signature>
        ensures { (names : NameList) (program : ProgramOf) → AreTypes names program self.now
            → MatchOption result (body_of program method ≡ None) (λ signature. SaysMethod names program method signature.now) }
    {
        let class = self.classes.as_slice().get(method.class as usize)?;
        class.methods.as_slice().get(method.method as usize)
    }

    /// The type of the static field with this number of the class with this number.
    pub fn field(&self, class: u32, field: u32) -> Option<Kind>
        ensures { (names : NameList) (program : ProgramOf) → AreTypes names program self.now
            → MatchOption result (has_field program class field ≡ false) (λ kind. SaysField names program class field kind) }
    {
        let types = self.classes.as_slice().get(class as usize)?;
        types.statics.as_slice().get(field as usize).copied()
    }
}
