//! When two heaps are the same.
//!
//! The objects are compared in rising order of number. Their places in memory are not compared.

ghost use Rattle.std.specs.Prelude.{◌≡◌, ◌↔◌, ◌<◌, length, slice_get, option_map, IsTrue};

use crate::objects::is_same_object;
use golf_data::Object;
use golf_heap::Heap;

// Whether both are there and are the same, or neither is there.
fn is_same_found(object: Option<&Object>, other: Option<&Object>) -> bool
    ensures { IsTrue result ↔ (option_map (λ x. x.now) object.entry ≡ option_map (λ x. x.now) other.entry) }
{
    match (object, other) {
        (Some(one), Some(twin)) => is_same_object(one, twin),
        (None, None) => true,
        (Some(_), None) => false,
        (None, Some(_)) => false,
    }
}

// Whether both have the same object under the same number at this rank.
fn is_same_entry(heap: &Heap, other: &Heap, rank: u32) -> bool
    requires within { rank < length heap.now.objects }
    requires other_within { rank < length other.now.objects }
    ensures { IsTrue result ↔ (slice_get heap.now.objects rank ≡ slice_get other.now.objects rank) }
{
    // Each call gives the clause that the numbers rise and that none is above the last one.
    heap.count();
    other.count();
    let id = heap.at(rank);
    let twin = other.at(rank);
    id == twin && is_same_found(heap.get(id), other.get(twin))
}

/// Returns whether both have the same objects under the same numbers, and the same last number.
pub fn is_same_heap(heap: &Heap, other: &Heap) -> bool
    ensures { IsTrue result ↔ (heap.now ≡ other.now) }
{
    if heap.last() != other.last() || heap.count() != other.count() {
        return false;
    }
    for rank in 0..heap.count() {
        if !is_same_entry(heap, other, rank) {
            return false;
        }
    }
    true
}
