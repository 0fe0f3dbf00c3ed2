//! The context of an expression: in a header, or elsewhere.

ghost use Rattle.std.specs.Prelude.{◌≡◌};
ghost use Rattle.golf_syntax_expressions.specs.Places as places_spec;

/// The context of an expression or a simple statement.
#[derive(Clone, Copy)]
pub enum Context {
    /// In the header of an `if` or a `for`. No operand outside brackets begins with `&`, since a brace in a header
    /// opens the body (Go specification, "Composite literals"; here this holds for each struct literal).
    Header,
    Elsewhere,
}

/// Returns whether the context is a header.
pub(crate) fn in_header(place: Context) -> bool
    ensures { result ≡ places_spec.in_header place }
{
    match place {
        Context::Header => true,
        Context::Elsewhere => false,
    }
}
