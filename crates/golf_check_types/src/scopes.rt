//! The meaning of names.
//!
//! A name is a local, else a name of the file, else predeclared or a package. A `Scope` has all three, and what the
//! function around a place allows there. `begin` and `end` open and close a block. After `end` the names are those that
//! were known before `begin`.

ghost use Rattle.std.specs.Prelude.{◌≡◌, ◌∷◌, [], IfOk, OnOk, length};
ghost use Rattle.golf_check_types.specs.Names.{is_blank as is_blank_of};
ghost use Rattle.golf_check_types.specs.Scopes.{or_else, type_name as type_name_of, value_name as value_name_of};
ghost use Rattle.golf_check_types.specs.Scopes.{call_name as call_name_of, package_name as package_name_of};
ghost use Rattle.golf_check_types.specs.Scopes.{predeclared as predeclared_of, is_reserved as is_reserved_of};
ghost use Rattle.golf_check_types.specs.Scopes.{type_at as type_at_of, entry_operand as entry_operand_of};
ghost use Rattle.golf_check_types.specs.Scopes.{file_operand as file_operand_of, local_operand as local_operand_of};
ghost use Rattle.golf_check_types.specs.Scopes.{meaning as meaning_of, is_here as is_here_of};
ghost use Rattle.golf_check_types.specs.Scopes.{may_be_declared as may_be_declared_of, declared, begun, closed_to};
ghost use Rattle.golf_check_types.specs.Scopes.{variable, member as member_of, kind_in};

use crate::locals::{Local, Locals};
use crate::operands::{BuiltIn, Operand, Package, Signature, Where};
use crate::table::Table;
use crate::types::{Base, GoType, copy_optional};
use golf_base::{List, Memory};
use golf_syntax_trees::Name;
use std::alloc::Global;

/// Which packages a file imports.
#[derive(Clone, Copy, Debug, PartialEq, Eq)]
pub struct Imports {
    pub fmt: bool,
    pub runtime: bool,
    pub sync: bool,
}

/// The meaning of a name of a file. Constants, globals, structs, and functions with methods are numbered from 0 in
/// source order, each kind separately.
#[derive(Clone, Copy, Debug, PartialEq, Eq)]
pub enum Entity {
    Constant(u32, Base),
    Global(u32),
    Struct(u32),
    Function(u32),
}

/// The meaning of a name that is selected through a pointer to a struct.
#[derive(Clone, Copy, Debug, PartialEq, Eq)]
pub enum Member {
    /// A field, by its place in the struct.
    Field(u32),
    /// A method, by its number among functions and methods.
    Method(u32),
}

/// The fields and methods of a struct. The kind of each name is at the name's number.
pub struct Members {
    pub names: Table,
    pub kinds: List<Member>,
}

// The drops of the parts of scopes are written out once here, so that no other crate has to prove the drop of each
// field.
impl Drop for Members {
    fn drop(self) {
        let Members { names: _, kinds: _ } = self;
    }
}

/// The meanings of the names of a file. The entity of each name is at the name's number.
pub struct FileScope {
    pub imports: Imports,
    pub names: Table,
    pub entities: List<Entity>,
    /// The members of each struct.
    pub structs: List<Members>,
    /// The types of the fields of each struct.
    pub fields: List<List<Option<GoType>>>,
    /// The types of globals; `None` if a type is not known.
    pub globals: List<Option<GoType>>,
    /// The types of functions and methods.
    pub functions: List<Signature>,
}

impl Drop for FileScope {
    fn drop(self) {
        let FileScope {
            imports: _,
            names: _,
            entities: _,
            structs: _,
            fields: _,
            globals: _,
            functions: _,
        } = self;
    }
}

/// The names of the first declarations of a file, and how many there are of each kind.
pub struct Naming {
    pub constants: u32,
    pub globals: u32,
    pub functions: u32,
    pub names: Table,
    pub entities: List<Entity>,
    pub structs: List<Members>,
}

impl Drop for Naming {
    fn drop(self) {
        let Naming {
            constants: _,
            globals: _,
            functions: _,
            names: _,
            entities: _,
            structs: _,
        } = self;
    }
}

impl Naming {
    /// Returns the scope of a file with these names and imports, without types.
    pub fn into_file_scope(self, alloc: Global, imports: Imports) -> FileScope
        ensures { result ≡ record { imports = imports; names = self.names; entities = self.entities; structs = self.structs; fields = []; globals = []; functions = [] } }
    {
        let Naming {
            constants: _,
            globals: _,
            functions: _,
            names,
            entities,
            structs,
        } = self;
        FileScope {
            imports,
            names,
            entities,
            structs,
            fields: List::new(alloc),
            globals: List::new(alloc),
            functions: List::new(alloc),
        }
    }
}

/// The names that are known at a place, and what the function around it allows.
pub struct Scope {
    pub file: FileScope,
    pub locals: Locals,
    /// How many blocks are open.
    pub depth: u32,
    /// The type that the function returns; `None` if it returns nothing.
    pub result: Option<GoType>,
    /// Whether there is a statement that a `break` can leave.
    pub breaks: bool,
    /// Whether there is a loop around the place.
    pub loops: bool,
    /// How many slots were handed out.
    pub next: u32,
    /// The global that is initialised here, if any.
    pub initialises: Option<u32>,
}

impl Drop for Scope {
    fn drop(self) {
        let Scope {
            file: _,
            locals: _,
            depth: _,
            result: _,
            breaks: _,
            loops: _,
            next: _,
            initialises: _,
        } = self;
    }
}

// Returns the meaning of the name of a predeclared type, or `None`.
#[tactic(auto, unfolding(crate::specs::Scopes::type_name))]
fn type_name(name: &[u8]) -> Option<Operand>
    ensures { result ≡ type_name_of name.now }
{
    if name == b"int".as_slice() {
        return Some(Operand::TypeName);
    }
    if name == b"bool".as_slice() {
        return Some(Operand::TypeName);
    }
    if name == b"string".as_slice() {
        return Some(Operand::TypeName);
    }
    None
}

// Returns the meaning of the name of a predeclared value, or `None`.
#[tactic(auto, unfolding(crate::specs::Scopes::value_name))]
fn value_name(name: &[u8]) -> Option<Operand>
    ensures { result ≡ value_name_of name.now }
{
    if name == b"true".as_slice() {
        return Some(Operand::Truth(true));
    }
    if name == b"false".as_slice() {
        return Some(Operand::Truth(false));
    }
    if name == b"nil".as_slice() {
        return Some(Operand::Nil);
    }
    None
}

// Returns the meaning of the name of a predeclared function, or `None`. Calls of `make` and `new` are expressions of
// their own.
#[tactic(auto, unfolding(crate::specs::Scopes::call_name))]
fn call_name(name: &[u8]) -> Option<Operand>
    ensures { result ≡ call_name_of name.now }
{
    if name == b"len".as_slice() {
        return Some(Operand::BuiltIn(BuiltIn::Length));
    }
    if name == b"close".as_slice() {
        return Some(Operand::BuiltIn(BuiltIn::Close));
    }
    if name == b"panic".as_slice() {
        return Some(Operand::BuiltIn(BuiltIn::Panic));
    }
    if name == b"make".as_slice() {
        return Some(Operand::TypeName);
    }
    if name == b"new".as_slice() {
        return Some(Operand::TypeName);
    }
    None
}

// Returns the meaning of the name of an imported package, or `None`.
#[tactic(auto, unfolding(crate::specs::Scopes::package_name))]
fn package_name(imports: Imports, name: &[u8]) -> Option<Operand>
    ensures { result ≡ package_name_of imports name.now }
{
    if imports.fmt && name == b"fmt".as_slice() {
        return Some(Operand::Package(Package::Fmt));
    }
    if imports.runtime && name == b"runtime".as_slice() {
        return Some(Operand::Package(Package::Runtime));
    }
    if imports.sync && name == b"sync".as_slice() {
        return Some(Operand::Package(Package::Sync));
    }
    None
}

/// Returns the meaning of a predeclared name or of the name of an imported package, or `None`.
fn predeclared(imports: Imports, name: &[u8]) -> Option<Operand>
    ensures { result ≡ predeclared_of imports name.now }
{
    match type_name(name) {
        Some(operand) => Some(operand),
        None => match value_name(name) {
            Some(operand) => Some(operand),
            None => match call_name(name) {
                Some(operand) => Some(operand),
                None => package_name(imports, name),
            },
        },
    }
}

/// Returns whether a name is predeclared or the name of a package. No declaration may use such a name.
#[tactic(auto, unfolding(crate::specs::Scopes::is_reserved))]
pub fn is_reserved(name: &[u8]) -> bool
    ensures { result ≡ is_reserved_of name.now }
{
    let all = Imports {
        fmt: true,
        runtime: true,
        sync: true,
    };
    predeclared(all, name).is_some()
}

/// Returns whether a name is `_`.
pub fn is_blank(name: &[u8]) -> bool
    ensures { result ≡ is_blank_of name.now }
{
    name == b"_".as_slice()
}

/// Returns the type at a number, or `None` if it is not known.
pub fn type_at(
    alloc: Global,
    types: &[Option<GoType>],
    number: u32,
) -> Result<Option<GoType>, Memory>
    ensures { IfOk result (λ t. t ≡ type_at_of types.now number) }
{
    match types.get(number as usize) {
        None => Ok(None),
        Some(t) => Ok(copy_optional(alloc, t)?),
    }
}

// Returns the operand of an entity of the file.
fn entry_operand(alloc: Global, file: &FileScope, meaning: Entity) -> Result<Operand, Memory>
    ensures { IfOk result (λ m. m ≡ entry_operand_of file.now meaning) }
{
    match meaning {
        Entity::Constant(number, base) => Ok(Operand::Constant(number, base)),
        Entity::Global(number) => Ok(Operand::Variable(
            Where::Global(number),
            type_at(alloc, file.globals.as_slice(), number)?,
        )),
        Entity::Struct(number) => Ok(Operand::Struct(number)),
        Entity::Function(number) => Ok(Operand::Function(number)),
    }
}

// Returns the meaning of a name of the file, or `None`.
fn file_operand(alloc: Global, file: &FileScope, name: &[u8]) -> Result<Option<Operand>, Memory>
    ensures { IfOk result (λ m. m ≡ file_operand_of file.now name.now) }
{
    match file.names.number_of(name) {
        None => Ok(None),
        Some(number) => match file.entities.as_slice().get(number) {
            None => Ok(None),
            Some(meaning) => Ok(Some(entry_operand(alloc, file, *meaning)?)),
        },
    }
}

// Returns the operand of a variable of a function.
fn local_operand(alloc: Global, local: &Local) -> Result<Operand, Memory>
    ensures { IfOk result (λ m. m ≡ local_operand_of local.now) }
{
    Ok(Operand::Variable(
        Where::Slot(local.slot),
        copy_optional(alloc, &local.of_type)?,
    ))
}

// Returns the meaning of a name that is no local, or `None`.
fn outer_meaning(alloc: Global, file: &FileScope, name: &[u8]) -> Result<Option<Operand>, Memory>
    ensures { IfOk result (λ m. m ≡ or_else (file_operand_of file.now name.now) (predeclared_of file.now.imports name.now)) }
{
    match file_operand(alloc, file, name)? {
        Some(operand) => Ok(Some(operand)),
        None => Ok(predeclared(file.imports, name)),
    }
}

/// Returns the meaning of a name: a local, else a name of the file, else predeclared or a package, else `None`.
#[tactic(auto, unfolding(crate::specs::Scopes::meaning))]
pub fn meaning_at(alloc: Global, scope: &Scope, name: &[u8]) -> Result<Option<Operand>, Memory>
    ensures { IfOk result (λ m. m ≡ meaning_of scope.now name.now) }
{
    match scope.locals.look(name) {
        Some(local) => Ok(Some(local_operand(alloc, local)?)),
        None => outer_meaning(alloc, &scope.file, name),
    }
}

/// Returns whether the innermost block has declared the name.
#[tactic(auto, unfolding(crate::specs::Scopes::is_here))]
pub fn is_here(scope: &Scope, name: &[u8]) -> bool
    ensures { result ≡ is_here_of scope.now name.now }
{
    match scope.locals.look(name) {
        None => false,
        Some(local) => local.depth == scope.depth,
    }
}

/// Returns whether a name may be declared here.
#[tactic(auto, unfolding(crate::specs::Scopes::may_be_declared))]
pub fn may_be_declared(scope: &Scope, name: &[u8]) -> bool
    ensures { result ≡ may_be_declared_of scope.now name.now }
{
    !is_blank(name) && !is_reserved(name) && !is_here(scope, name)
}

/// Returns a copy of the name.
pub fn copy_name(alloc: Global, name: &[u8]) -> Result<Name, Memory>
    ensures { IfOk result (λ n. n ≡ name.now) }
{
    let mut copy = List::new(alloc);
    copy.extend_from_slice(name)?;
    Ok(copy)
}

/// Declares a variable in the next slot. On `Err` nothing is said of the scope.
pub fn declare(
    alloc: Global,
    scope: &mut Scope,
    name: &[u8],
    of_type: Option<GoType>,
) -> Result<(), Memory>
    ensures { OnOk result (scope.new ≡ declared scope.old (variable scope.old name.now of_type ∷ []) 1) }
{
    let slot = scope.next;
    let next = slot.checked_add(1).ok_or(Memory)?;
    let local = Local {
        name: copy_name(alloc, name)?,
        depth: scope.depth,
        slot,
        of_type,
    };
    scope.locals.add(alloc, local)?;
    scope.next = next;
    Ok(())
}

/// Hands out slots without names. On `Err` nothing is said of the scope.
pub fn hide(scope: &mut Scope, count: u32) -> Result<(), Memory>
    ensures { OnOk result (scope.new ≡ declared scope.old [] count) }
{
    scope.next = scope.next.checked_add(count).ok_or(Memory)?;
    Ok(())
}

/// Begins a block and returns the mark with which `end` ends it. On `Err` nothing is said of the scope.
pub fn begin(scope: &mut Scope) -> Result<usize, Memory>
    ensures scope { OnOk result (scope.new ≡ begun scope.old) }
    ensures mark { IfOk result (λ mark. mark ≡ length scope.old.locals) }
{
    scope.depth = scope.depth.checked_add(1).ok_or(Memory)?;
    Ok(scope.locals.len())
}

/// Ends the block that began at this mark. On `Err` nothing is said of the scope.
pub fn end(alloc: Global, scope: &mut Scope, mark: usize) -> Result<(), Memory>
    ensures { OnOk result (scope.new ≡ closed_to mark scope.old) }
{
    scope.locals.truncate(alloc, mark)?;
    scope.depth = scope.depth.saturating_sub(1);
    Ok(())
}

/// Returns the meaning of a name that is selected through a pointer to the struct of this number, or `None`.
#[tactic(auto, unfolding(crate::specs::Scopes::member))]
pub fn member_at(file: &FileScope, number: u32, name: &[u8]) -> Option<Member>
    ensures { result ≡ member_of file.now number name.now }
{
    match file.structs.as_slice().get(number as usize) {
        None => None,
        Some(members) => kind_at(members, name),
    }
}

/// Returns the meaning of a name among the members of a struct, or `None`.
pub fn kind_at(members: &Members, name: &[u8]) -> Option<Member>
    ensures { result ≡ kind_in members.now name.now }
{
    match members.names.number_of(name) {
        None => None,
        Some(number) => members.kinds.as_slice().get(number).copied(),
    }
}
