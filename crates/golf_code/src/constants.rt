//! The values of constants. The value of an integer constant is in its fact.

ghost use Rattle.std.specs.Prelude.{◌≡◌, IfOk, OnOk};
ghost use Rattle.golf_code_facts.specs.Files.{past_const, past_content, const_by, constants_by, tables_by};
ghost use Rattle.golf_code.specs.Steps.{SkipsOver};

use golf_base::{List, Memory};
use golf_code_expressions::Facts;
use golf_code_of::{Tables, TextTable};
use golf_code_texts::texts_of_decls;
use golf_data::Value;
use golf_syntax_trees::{Const, Decl, VarContent};
use std::alloc::Global;

fn const_value(texts: &TextTable, constant: &Const, facts: &Facts) -> Result<Value, Memory>
    ensures { IfOk result (λ v. v ≡ const_by texts.now constant.now facts.now) }
{
    match constant {
        Const::Integer(_) => Ok(Value::Int(facts.number())),
        Const::Negative(_) => Ok(Value::Int(facts.number())),
        Const::Text(bytes) => Ok(Value::Text(texts.number_of(bytes.as_slice())?)),
        Const::True => Ok(Value::Bool(true)),
        Const::False => Ok(Value::Bool(false)),
    }
}

/// Skips the fact of a constant, if it has one.
pub fn skip_const(facts: &mut Facts, constant: &Const)
    ensures { facts.new ≡ past_const constant.now facts.old }
{
    match constant {
        Const::Integer(_) => facts.skip_one(),
        Const::Negative(_) => facts.skip_one(),
        Const::Text(_) => {}
        Const::True => {}
        Const::False => {}
    }
}

fn skip_content(facts: &mut Facts, content: &VarContent)
    ensures { facts.new ≡ past_content content.now facts.old }
{
    match content {
        VarContent::Zero(_) => {}
        VarContent::Typed(_, _) => facts.skip(),
        VarContent::Untyped(_) => facts.skip(),
    }
}

// Skips a declaration. Adds its value, if it is a constant.
fn add_constant(
    texts: &TextTable,
    decl: &Decl,
    facts: &mut Facts,
    constants: &mut List<Value>,
) -> Result<(), Memory>
    ensures { OnOk result (SkipsOver texts.now decl.now facts.old constants.old facts.new constants.new) }
{
    match decl {
        Decl::Const(_, _, constant) => {
            constants.push(const_value(texts, constant, facts)?)?;
            skip_const(facts, constant);
        }
        Decl::Var(var) => skip_content(facts, var.get().content.get()),
        Decl::Struct(_, _, _) => {}
        Decl::Func(_) => facts.skip(),
    }
    Ok(())
}

fn constants_of(
    alloc: Global,
    texts: &TextTable,
    decls: &[Decl],
    facts: Facts,
) -> Result<List<Value>, Memory>
    ensures { IfOk result (λ vs. vs ≡ constants_by texts.now decls.now facts.entry) }
{
    let mut left = facts;
    let mut constants = List::new(alloc);
    for decl in decls {
        add_constant(texts, decl, &mut left, &mut constants)?;
    }
    Ok(constants)
}

/// Returns the tables of a file: its texts and the values of its constants.
pub fn tables(alloc: Global, decls: &[Decl], facts: Facts) -> Result<Tables, Memory>
    ensures { IfOk result (λ t. t ≡ tables_by decls.now facts.entry) }
{
    let texts = texts_of_decls(alloc, decls)?;
    let constants = constants_of(alloc, &texts, decls, facts)?;
    Ok(Tables { texts, constants })
}
