//! Types (Go specification, "Types", cut down to those of the accepted language).
//!
//! A type is a list of layers, `[]` and `chan` from the outermost on, and a base in which they end.
//! Two types are identical exactly when layers and bases are the same. A type that is not known is `None`.

ghost use Rattle.std.specs.Prelude.{◌≡◌, IfOk};
ghost use Rattle.golf_check_types.specs.Types.{same_layer as same_layer_of, same_layers as same_layers_of};
ghost use Rattle.golf_check_types.specs.Types.{same_base as same_base_of, same_type as same_type_of, plain as plain_of};
ghost use Rattle.golf_check_types.specs.Types.{with_layer as with_layer_of, inside};

use golf_base::{List, Memory};
use std::alloc::Global;

/// A layer before a type.
#[derive(Clone, Copy, Debug, PartialEq, Eq)]
pub enum Layer {
    /// `[]`
    Slice,
    /// `chan`
    Chan,
    /// `chan<-`
    SendChan,
    /// `<-chan`
    ReceiveChan,
}

/// A type that is no slice and no channel.
#[derive(Clone, Copy, Debug, PartialEq, Eq)]
pub enum Base {
    Int,
    Bool,
    Text,
    /// `struct{}`
    Unit,
    /// A pointer to the struct of this number: the structs of a file are numbered from 0 in source
    /// order.
    Pointer(u32),
    /// `*sync.Mutex`
    Mutex,
    /// `*sync.WaitGroup`
    Group,
    /// `*sync.RWMutex`
    ReadWriteMutex,
    /// `*sync.Cond`
    Condition,
}

/// A type: the layers from the outermost on, and the base in which they end.
#[derive(Debug)]
pub struct GoType {
    pub layers: List<Layer>,
    pub base: Base,
}

// Written out once here, so that no other crate has to prove the drop of each field.
impl Drop for GoType {
    fn drop(self) {
        let GoType { layers: _, base: _ } = self;
    }
}

impl GoType {
    /// Returns the element type of a slice or a channel type, or `None` for any other type.
    pub fn into_element(self) -> Option<GoType>
        ensures { result ≡ inside self.layers self.base }
    {
        let GoType { layers, base } = self;
        if layers.is_empty() {
            return None;
        }
        let mut layers = layers;
        layers.remove(0);
        Some(GoType { layers, base })
    }
}

fn same_layer(a: Layer, b: Layer) -> bool
    ensures { result ≡ same_layer_of a b }
{
    match a {
        Layer::Slice => matches!(b, Layer::Slice),
        Layer::Chan => matches!(b, Layer::Chan),
        Layer::SendChan => matches!(b, Layer::SendChan),
        Layer::ReceiveChan => matches!(b, Layer::ReceiveChan),
    }
}

/// Returns whether two types have the same layers.
pub fn same_layers(a: &[Layer], b: &[Layer]) -> bool
    ensures { result ≡ same_layers_of a.now b.now }
{
    match a {
        [] => b.is_empty(),
        [x, xs @ ..] => match b {
            [] => false,
            [y, ys @ ..] => same_layer(*x, *y) && same_layers(xs, ys),
        },
    }
}

/// Returns whether two types have the same base.
pub fn same_base(a: Base, b: Base) -> bool
    ensures { result ≡ same_base_of a b }
{
    match a {
        Base::Int => matches!(b, Base::Int),
        Base::Bool => matches!(b, Base::Bool),
        Base::Text => matches!(b, Base::Text),
        Base::Unit => matches!(b, Base::Unit),
        Base::Pointer(i) => match b {
            Base::Pointer(j) => i == j,
            _ => false,
        },
        Base::Mutex => matches!(b, Base::Mutex),
        Base::Group => matches!(b, Base::Group),
        Base::ReadWriteMutex => matches!(b, Base::ReadWriteMutex),
        Base::Condition => matches!(b, Base::Condition),
    }
}

/// Returns whether two types are identical.
pub fn same_type(a: &GoType, b: &GoType) -> bool
    ensures { result ≡ same_type_of a.now b.now }
{
    same_layers(a.layers.as_slice(), b.layers.as_slice()) && same_base(a.base, b.base)
}

/// Returns a type without layers. It takes no memory.
pub fn plain(alloc: Global, base: Base) -> GoType
    ensures { result ≡ plain_of base }
{
    GoType {
        layers: List::new(alloc),
        base,
    }
}

/// Returns a type with one more layer before it, or `None` if the inner type is not known.
pub fn with_layer(
    alloc: Global,
    layer: Layer,
    inner: Option<GoType>,
) -> Result<Option<GoType>, Memory>
    ensures { IfOk result (λ t. t ≡ with_layer_of layer inner) }
{
    let Some(inner) = inner else {
        return Ok(None);
    };
    let mut layers = List::new(alloc);
    layers.push(layer)?;
    layers.extend_from_slice(inner.layers.as_slice())?;
    Ok(Some(GoType {
        layers,
        base: inner.base,
    }))
}

/// Returns a copy of the type.
fn copy_type(alloc: Global, t: &GoType) -> Result<GoType, Memory>
    ensures { IfOk result (λ r. r ≡ t.now) }
{
    let mut layers = List::new(alloc);
    layers.extend_from_slice(t.layers.as_slice())?;
    Ok(GoType {
        layers,
        base: t.base,
    })
}

/// Returns a copy of the type, if there is one.
pub fn copy_optional(alloc: Global, t: &Option<GoType>) -> Result<Option<GoType>, Memory>
    ensures { IfOk result (λ r. r ≡ t.now) }
{
    match t {
        None => Ok(None),
        Some(t) => Ok(Some(copy_type(alloc, t)?)),
    }
}
