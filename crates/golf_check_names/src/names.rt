//! The names of a file.
//!
//! Constants, globals, structs and functions are numbered in source order, each kind separately.
//! The first declaration of a name counts. `names_are_good` judges whether there is a second one.

ghost use Rattle.std.specs.Prelude.{◌≡◌, ◌∷◌, ◌++◌, ◌+◌, [], fold, flat_map, length, IfOk, OnOk};
ghost use Rattle.golf_check_types.specs.Files.{const_base as const_base_of, field_names, with_field as with_field_of};
ghost use Rattle.golf_check_types.specs.Files.{members_of as members_of_of, name_added, function_added, decl_added};
ghost use Rattle.golf_check_types.specs.Files.{naming_of as naming_of_of};

use golf_base::{List, Memory};
use golf_check_types::{Base, Entity, Member, Members, Naming, Table, copy_name};
use golf_syntax_trees::{Const, Decl, Field, Name, Receiver};
use std::alloc::Global;

/// Returns the base of the type of a constant.
fn const_base(value: &Const) -> Base
    ensures { result ≡ const_base_of value.now }
{
    match value {
        Const::Integer(_) => Base::Int,
        Const::Negative(_) => Base::Int,
        Const::Text(_) => Base::Text,
        Const::True => Base::Bool,
        Const::False => Base::Bool,
    }
}

// Returns the number of the next entry, which is the count so far.
fn number(count: usize) -> Result<u32, Memory>
    ensures { IfOk result (λ n. n ≡ count) }
{
    match u32::try_from(count) {
        Ok(n) => Ok(n),
        Err(_) => Err(Memory),
    }
}

// Adds a field after the present members.
fn add_field(alloc: Global, members: &mut Members, name: &[u8]) -> Result<(), Memory>
    ensures { OnOk result (members.new ≡ with_field_of members.old name.now) }
{
    let place = members.kinds.len();
    let field = Member::Field(number(place)?);
    members.names.add(alloc, name, place)?;
    members.kinds.push(field)?;
    Ok(())
}

// Adds the names of one declaration of fields.
fn add_names(alloc: Global, names: &mut List<Name>, field: &Field) -> Result<(), Memory>
    ensures { OnOk result (names.new ≡ names.old ++ field_names field.now) }
{
    names.push(copy_name(alloc, field.first.as_slice())?)?;
    for name in field.more.as_slice() {
        names.push(copy_name(alloc, name.as_slice())?)?;
    }
    Ok(())
}

/// Returns the names of fields or parameters.
pub(crate) fn names_of(alloc: Global, fields: &[Field]) -> Result<List<Name>, Memory>
    ensures { IfOk result (λ ns. ns ≡ flat_map field_names fields.now) }
{
    let mut names = List::new(alloc);
    for field in fields {
        add_names(alloc, &mut names, field)?;
    }
    Ok(names)
}

// Adds the fields of these names.
fn add_all_fields(alloc: Global, members: &mut Members, names: &[Name]) -> Result<(), Memory>
    ensures { OnOk result (members.new ≡ fold with_field_of members.old names.now) }
{
    for name in names {
        add_field(alloc, members, name.as_slice())?;
    }
    Ok(())
}

// Returns the fields of a struct, numbered from 0.
fn members_of(alloc: Global, fields: &[Field]) -> Result<Members, Memory>
    ensures { IfOk result (λ m. m ≡ members_of_of fields.now) }
{
    let mut members = Members {
        names: Table::new(alloc),
        kinds: List::new(alloc),
    };
    let names = names_of(alloc, fields)?;
    add_all_fields(alloc, &mut members, names.as_slice())?;
    Ok(members)
}

// Adds a name of the file with this meaning, unless a declaration above has the name.
fn add_name(alloc: Global, naming: &mut Naming, name: &[u8], meaning: Entity) -> Result<(), Memory>
    ensures { OnOk result (naming.new ≡ name_added naming.old name.now meaning) }
{
    let place = naming.entities.len();
    naming.names.add(alloc, name, place)?;
    naming.entities.push(meaning)?;
    Ok(())
}

// Adds a constant.
fn add_constant(alloc: Global, naming: &mut Naming, name: &[u8], base: Base) -> Result<(), Memory>
    ensures { OnOk result (naming.new ≡ record (name_added naming.old name.now (Entity.Constant naming.old.constants base)) { constants = naming.old.constants + 1 }) }
{
    let meaning = Entity::Constant(naming.constants, base);
    add_name(alloc, naming, name, meaning)?;
    naming.constants = naming.constants.checked_add(1).ok_or(Memory)?;
    Ok(())
}

// Adds a global.
fn add_global(alloc: Global, naming: &mut Naming, name: &[u8]) -> Result<(), Memory>
    ensures { OnOk result (naming.new ≡ record (name_added naming.old name.now (Entity.Global naming.old.globals)) { globals = naming.old.globals + 1 }) }
{
    let meaning = Entity::Global(naming.globals);
    add_name(alloc, naming, name, meaning)?;
    naming.globals = naming.globals.checked_add(1).ok_or(Memory)?;
    Ok(())
}

// Adds a struct with its fields.
fn add_struct(
    alloc: Global,
    naming: &mut Naming,
    name: &[u8],
    fields: &[Field],
) -> Result<(), Memory>
    ensures { OnOk result (naming.new ≡ record (name_added naming.old name.now (Entity.Struct (length naming.old.structs))) { structs = naming.old.structs ++ members_of_of fields.now ∷ [] }) }
{
    let meaning = Entity::Struct(number(naming.structs.len())?);
    add_name(alloc, naming, name, meaning)?;
    naming.structs.push(members_of(alloc, fields)?)?;
    Ok(())
}

// Adds a function. A method only takes a number, and adds no name of the file.
fn add_function(
    alloc: Global,
    naming: &mut Naming,
    receiver: &Option<Receiver>,
    name: &[u8],
) -> Result<(), Memory>
    ensures { OnOk result (naming.new ≡ function_added naming.old receiver.now name.now) }
{
    let next = naming.functions.checked_add(1).ok_or(Memory)?;
    match receiver {
        Some(_) => {}
        None => {
            let meaning = Entity::Function(naming.functions);
            add_name(alloc, naming, name, meaning)?;
        }
    }
    naming.functions = next;
    Ok(())
}

// Adds the names that a declaration declares.
fn add_decl(alloc: Global, naming: &mut Naming, decl: &Decl) -> Result<(), Memory>
    ensures { OnOk result (naming.new ≡ decl_added naming.old decl.now) }
{
    match decl {
        Decl::Const(_, name, value) => {
            add_constant(alloc, naming, name.as_slice(), const_base(value))
        }
        Decl::Var(var) => add_global(alloc, naming, var.get().name.as_slice()),
        Decl::Struct(_, name, fields) => {
            add_struct(alloc, naming, name.as_slice(), fields.as_slice())
        }
        Decl::Func(func) => add_function(alloc, naming, &func.receiver, func.name.as_slice()),
    }
}

/// Returns the names of a list of declarations. Of two declarations of one name the first one counts.
pub fn naming_of(alloc: Global, decls: &[Decl]) -> Result<Naming, Memory>
    ensures { IfOk result (λ n. n ≡ naming_of_of decls.now) }
{
    let mut naming = Naming {
        constants: 0,
        globals: 0,
        functions: 0,
        names: Table::new(alloc),
        entities: List::new(alloc),
        structs: List::new(alloc),
    };
    for decl in decls {
        add_decl(alloc, &mut naming, decl)?;
    }
    Ok(naming)
}
