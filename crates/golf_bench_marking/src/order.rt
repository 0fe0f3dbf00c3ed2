//! The measurement that the words ask for.

ghost use Rattle.std.specs.Prelude.{◌≤◌, IfSome};

use crate::graphs::Places;
use golf_tests_support::Shape;

/// A measurement.
#[derive(Clone, Copy, Debug, PartialEq, Eq)]
pub(crate) struct Order {
    pub(crate) shape: Shape,
    pub(crate) nodes: u32,
    /// How many markers, or 0 for the marking in one thread.
    pub(crate) markers: u32,
}

/// A measurement of certificates.
#[derive(Clone, Copy, Debug, PartialEq, Eq)]
pub(crate) struct CertificateOrder {
    pub(crate) places: Places,
    pub(crate) count: u32,
}

fn shape_of(word: &str) -> Option<Shape> {
    match word {
        "list" => Some(Shape::List),
        "shuffled" => Some(Shape::Shuffled),
        "tree" => Some(Shape::Tree),
        "quad" => Some(Shape::Quad),
        "random" => Some(Shape::Random),
        "dense" => Some(Shape::Dense),
        _ => None,
    }
}

/// Returns the measurement that the words ask for, or `None`.
pub(crate) fn read_order(words: &[String]) -> Option<Order>
    ensures { IfSome result (λ order. order.markers ≤ 16) }
{
    if words.len() != 3 {
        return None;
    }
    let shape = shape_of(words[0].as_str())?;
    let nodes = words[1].parse::<u32>().ok()?;
    let markers = words[2].parse::<u32>().ok()?;
    if markers > 16 {
        return None;
    }
    Some(Order {
        shape,
        nodes,
        markers,
    })
}

fn places_of(word: &str) -> Option<Places> {
    match word {
        "star" => Some(Places::Star),
        "relay" => Some(Places::Relay),
        _ => Some(Places::Nodes(shape_of(word)?)),
    }
}

/// Returns the measurement of certificates that the words ask for, or `None`.
pub(crate) fn read_certificate_order(words: &[String]) -> Option<CertificateOrder> {
    if words.len() != 3 || words[0].as_str() != "certificate" {
        return None;
    }
    let places = places_of(words[1].as_str())?;
    let count = words[2].parse::<u32>().ok()?;
    Some(CertificateOrder { places, count })
}
