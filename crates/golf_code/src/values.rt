//! The zero values of globals and fields.

ghost use Rattle.std.specs.Prelude.{◌≡◌, map, IfOk};
ghost use Rattle.golf_code_of.specs.Values.{zero_value as zero_value_of};

use golf_base::{List, Memory};
use golf_check_types::GoType;
use golf_code_expressions::zero_value;
use golf_data::Value;
use std::alloc::Global;

/// Returns the zero values of types.
pub fn zero_values(alloc: Global, types: &[Option<GoType>]) -> Result<List<Value>, Memory>
    ensures { IfOk result (λ vs. vs ≡ map zero_value_of types.now) }
{
    let mut values = List::new(alloc);
    for t in types {
        values.push(zero_value(t))?;
    }
    Ok(values)
}

/// Returns the zero values of the fields of each struct.
pub fn struct_zeros(
    alloc: Global,
    structs: &[List<Option<GoType>>],
) -> Result<List<List<Value>>, Memory>
    ensures { IfOk result (λ vs. vs ≡ map (map zero_value_of) structs.now) }
{
    let mut values = List::new(alloc);
    for fields in structs {
        values.push(zero_values(alloc, fields.as_slice())?)?;
    }
    Ok(values)
}
