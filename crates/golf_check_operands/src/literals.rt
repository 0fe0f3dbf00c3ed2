//! Names and literals, `make` and `new`.
//!
//! Each value of a struct literal is judged by the field for it, if the field is known. Then the fields themselves are
//! judged. A field or name that is not known has no type, and a value without a type breaks no rule.

ghost use Rattle.std.specs.Prelude.{◌≡◌, ◌≤◌, ◌++◌, [], pos, map, flat_map, SomeIff, IfOk, is_some, slice_get};
ghost use Rattle.std.specs.Prelude.{option_and_then};
ghost use Rattle.std.specs.List.{list_any};
ghost use Rattle.std.specs.Str.{bytes_eq};
ghost use Rattle.golf_check_types.specs.Faults.{AnswersOrFault, broken as broken_of};
ghost use Rattle.golf_check_types.specs.Types.{given as given_of, has_base as has_base_of, has_layer, is_any};
ghost use Rattle.golf_check_types.specs.Types.{is_channel, assignable as assignable_of};
ghost use Rattle.golf_check_types.specs.Expressions.{named as named_of, known_name, found_name};
ghost use Rattle.golf_check_types.specs.Expressions.{reads_global as reads_global_of, is_above as is_above_of};
ghost use Rattle.golf_check_types.specs.Expressions.{value_from, fits_int as fits_int_of, struct_of as struct_of_of};
ghost use Rattle.golf_check_types.specs.Expressions.{field_place as field_place_of, made_struct as made_struct_of};
ghost use Rattle.golf_check_types.specs.Expressions.{field_type as field_type_of};
ghost use Rattle.golf_check_types.specs.Expressions.{field_of_member as field_of_member_of, put_faults, all_put_faults};
ghost use Rattle.golf_check_types.specs.Expressions.{fields_differ as fields_differ_of};
ghost use Rattle.golf_check_types.specs.Judgments.{AnswersJudged};
ghost use Rattle.golf_check_types.specs.Scopes.{meaning as meaning_of, type_at as type_at_of};
ghost use Rattle.golf_check_types.specs.Written.{pointer_to as pointer_to_of};

use crate::values::{assignable, has_any, has_base, has_channel};
use crate::written_types::{plain_type, pointer_to};
use golf_base::Memory;
use golf_check_types::rules::{
    NOT_ASSIGNABLE, NOT_STEADY, TOO_LARGE, UNKNOWN_NAME, UNKNOWN_TYPE, WRONG_CALL, WRONG_OPERAND,
};
use golf_check_types::{
    Base, FileScope, Given, GoType, Member, Operand, Scope, TypeFault, Where, copy_optional,
    given_type, is_blank, meaning_at, member_at, require, type_at,
};
use golf_syntax_trees::Element;
use std::alloc::Global;

/// The largest `int`.
const MAX_INT: u64 = 9223372036854775807;

// Returns the number of the global that an operand reads, or `None` if it reads none.
fn reads_global(operand: &Operand) -> Option<u32>
    ensures { result ≡ reads_global_of operand.now }
{
    match operand {
        Operand::Variable(place, _) => match place {
            Where::Global(number) => Some(*number),
            Where::Slot(_) => None,
        },
        _ => None,
    }
}

// Returns whether a global may be read while another is initialised.
fn is_above(initialises: Option<u32>, read: Option<u32>) -> bool
    ensures { result ≡ is_above_of initialises read }
{
    match initialises {
        None => true,
        Some(number) => match read {
            None => true,
            Some(read) => read < number,
        },
    }
}

// Returns the operand of a name, unless it reads a global that is not above the one that is initialised.
fn found(line: u32, initialises: Option<u32>, operand: Operand) -> Result<Operand, TypeFault>
    ensures { AnswersJudged result (found_name line initialises operand) }
{
    require(
        line,
        NOT_STEADY,
        is_above(initialises, reads_global(&operand)),
    )?;
    Ok(operand)
}

// Returns the operand of a name, if the name is known.
fn known(
    line: u32,
    initialises: Option<u32>,
    meaning: Option<Operand>,
) -> Result<Operand, TypeFault>
    ensures { AnswersJudged result (known_name line initialises meaning) }
{
    match meaning {
        None => Err(TypeFault::At {
            line,
            rule: UNKNOWN_NAME,
        }),
        Some(operand) => found(line, initialises, operand),
    }
}

/// Returns what a name is. It checks `UNKNOWN_NAME` and `NOT_STEADY`.
pub fn named(alloc: Global, line: u32, scope: &Scope, name: &[u8]) -> Result<Operand, TypeFault>
    ensures { AnswersJudged result (named_of line scope.now name.now) }
{
    if is_blank(name) {
        return Ok(Operand::Blank);
    }
    let meaning = meaning_at(alloc, scope, name)?;
    known(line, scope.initialises, meaning)
}

// Returns the number for which the digits stand, or `None` if an `int` cannot hold it.
fn small_value(digits: &[u8]) -> Option<u64>
    ensures { SomeIff result (value_from 0 digits.now ≤ MAX_INT) (value_from 0 digits.now) }
{
    let mut value = 0u64;
    for d in digits {
        let digit = u64::from(d.saturating_sub(b'0'));
        if value > (MAX_INT - digit) / 10 {
            return None;
        }
        value = 10 * value + digit;
    }
    Some(value)
}

/// Returns the number for which the digits stand. It checks `TOO_LARGE`.
#[tactic(auto, unfolding(golf_check_types::specs::Expressions::fits_int))]
pub fn int_value(line: u32, digits: &[u8]) -> Result<i64, TypeFault>
    ensures { AnswersOrFault result (broken_of line TOO_LARGE (fits_int_of digits.now)) (λ n. n ≡ pos (value_from 0 digits.now)) }
{
    match small_value(digits) {
        None => Err(TypeFault::At {
            line,
            rule: TOO_LARGE,
        }),
        Some(value) => Ok(value as i64),
    }
}

/// Returns what `new(T)` gives. It checks `UNKNOWN_TYPE`.
pub fn made_struct(
    alloc: Global,
    line: u32,
    scope: &Scope,
    name: &[u8],
) -> Result<Operand, TypeFault>
    ensures { AnswersJudged result (made_struct_of line (pointer_to_of (meaning_of scope.now name.now))) }
{
    let meaning = meaning_at(alloc, scope, name)?;
    let base = pointer_to(meaning);
    require(line, UNKNOWN_TYPE, base.is_some())?;
    Ok(Operand::Value(plain_type(alloc, base)))
}

// Returns the type of a field, if this member is a field.
fn field_of_member(
    alloc: Global,
    file: &FileScope,
    number: u32,
    member: Option<Member>,
) -> Result<Option<Option<GoType>>, Memory>
    ensures { IfOk result (λ t. t ≡ field_of_member_of file.now number member) }
{
    match member {
        None => Ok(None),
        Some(member) => match member {
            Member::Field(place) => Ok(Some(type_of_field(alloc, file, number, place)?)),
            Member::Method(_) => Ok(None),
        },
    }
}

/// Returns the type of a field, by its place in the struct of this number, or `None` if it is not known.
pub fn type_of_field(
    alloc: Global,
    file: &FileScope,
    number: u32,
    place: u32,
) -> Result<Option<GoType>, Memory>
    ensures { IfOk result (λ t. t ≡ option_and_then (λ ts. type_at_of ts place) (slice_get file.now.fields number)) }
{
    match file.fields.as_slice().get(number as usize) {
        None => Ok(None),
        Some(types) => type_at(alloc, types.as_slice(), place),
    }
}

// Returns the type of the field of this name in the struct to which a pointer refers, if there is such a field.
#[tactic(auto, unfolding(golf_check_types::specs::Expressions::field_type))]
fn field_type(
    alloc: Global,
    file: &FileScope,
    base: Option<Base>,
    name: &[u8],
) -> Result<Option<Option<GoType>>, Memory>
    ensures { IfOk result (λ t. t ≡ field_type_of file.now base name.now) }
{
    match base {
        None => Ok(None),
        Some(base) => match base {
            Base::Pointer(number) => {
                field_of_member(alloc, file, number, member_at(file, number, name))
            }
            _ => Ok(None),
        },
    }
}

/// Returns the number of the struct to which a pointer refers, or 0 if it is no such pointer.
pub fn struct_of(base: Option<Base>) -> u32
    ensures { result ≡ struct_of_of base }
{
    match base {
        None => 0,
        Some(base) => match base {
            Base::Pointer(number) => number,
            _ => 0,
        },
    }
}

/// Returns the place of a field of the struct to which a pointer refers, or 0 if there is no such field.
pub fn field_place(file: &FileScope, base: Option<Base>, name: &[u8]) -> u32
    ensures { result ≡ field_place_of file.now base name.now }
{
    match member_at(file, struct_of(base), name) {
        None => 0,
        Some(member) => match member {
            Member::Field(place) => place,
            Member::Method(_) => 0,
        },
    }
}

// Checks that a value fits the field for it, if the field is known.
fn put_fits(line: u32, field: &Option<Option<GoType>>, given: &Given) -> Result<(), TypeFault>
    ensures { AnswersOrFault result (put_faults line field.now given.now) (λ _. Unit {0}) }
{
    match field {
        None => Ok(()),
        Some(t) => require(line, NOT_ASSIGNABLE, assignable(given, t)),
    }
}

// Checks the same for an element of a struct literal.
fn element_fits(
    alloc: Global,
    line: u32,
    file: &FileScope,
    base: Option<Base>,
    element: &Element,
    given: &Given,
) -> Result<(), TypeFault>
    ensures { AnswersOrFault result (put_faults line (field_type_of file.now base element.now.field) given.now) (λ _. Unit {0}) }
{
    let field = field_type(alloc, file, base, element.field.as_slice())?;
    put_fits(line, &field, given)
}

/// Checks that each value fits the field for it, if the field is known: `NOT_ASSIGNABLE`.
pub fn all_fit(
    alloc: Global,
    line: u32,
    file: &FileScope,
    base: Option<Base>,
    elements: &[Element],
    values: &[Given],
) -> Result<(), TypeFault>
    ensures { AnswersOrFault result (all_put_faults line file.now base (map (λ e. e.field) elements.now) values.now) (λ _. Unit {0}) }
{
    let mut rest = values;
    for e in elements {
        match rest {
            [] => return Ok(()),
            [v, vs @ ..] => {
                element_fits(alloc, line, file, base, e, v)?;
                rest = vs;
            }
        }
    }
    Ok(())
}

// Returns whether one of the elements is for the field of this name.
fn is_among(elements: &[Element], name: &[u8]) -> bool
    ensures { result ≡ list_any (bytes_eq name.now) (map (λ e. e.field) elements.now) }
{
    for e in elements {
        if name == e.field.as_slice() {
            return true;
        }
    }
    false
}

/// Returns whether each element is for a field, and no two are for the same field.
pub fn fields_differ(
    alloc: Global,
    file: &FileScope,
    base: Option<Base>,
    elements: &[Element],
) -> Result<bool, Memory>
    ensures { IfOk result (λ b. b ≡ fields_differ_of file.now base [] (map (λ e. e.field) elements.now)) }
{
    for (i, e) in elements.iter().enumerate() {
        let name = e.field.as_slice();
        let field = field_type(alloc, file, base, name)?;
        if field.is_none() || is_among(&elements[..i], name) {
            return Ok(false);
        }
    }
    Ok(true)
}

/// Checks that each value fits the elements of a slice: `NOT_ASSIGNABLE`.
pub fn elements_fit(line: u32, values: &[Given], t: &Option<GoType>) -> Result<(), TypeFault>
    ensures { AnswersOrFault result (flat_map (λ v. broken_of line NOT_ASSIGNABLE (assignable_of v t.now)) values.now) (λ _. Unit {0}) }
{
    for v in values {
        require(line, NOT_ASSIGNABLE, assignable(v, t))?;
    }
    Ok(())
}

/// Returns what `make(T)` gives, after its type. It checks `WRONG_CALL`.
pub fn made(alloc: Global, line: u32, t: Option<GoType>) -> Result<Operand, TypeFault>
    ensures { AnswersOrFault result (broken_of line WRONG_CALL (has_layer is_channel (given_of (Operand.Value t)))) (λ m. m ≡ Operand.Value t) }
{
    let own = copy_optional(alloc, &t)?;
    require(line, WRONG_CALL, has_channel(&given_type(t)))?;
    Ok(Operand::Value(own))
}

/// Returns what `make(T, e)` gives, after its type and its size. It checks `WRONG_OPERAND` and `WRONG_CALL`.
pub fn made_sized(
    alloc: Global,
    line: u32,
    t: Option<GoType>,
    size: &Given,
) -> Result<Operand, TypeFault>
    ensures { AnswersOrFault result (broken_of line WRONG_OPERAND (has_base_of Base.Int size.now) ++ broken_of line WRONG_CALL (has_layer is_any (given_of (Operand.Value t)))) (λ m. m ≡ Operand.Value t) }
{
    let own = copy_optional(alloc, &t)?;
    require(line, WRONG_OPERAND, has_base(Base::Int, size))?;
    require(line, WRONG_CALL, has_any(&given_type(t)))?;
    Ok(Operand::Value(own))
}
