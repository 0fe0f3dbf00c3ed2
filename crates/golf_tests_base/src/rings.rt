//! Tests of rings.

use crate::wanted::{holds, is};
use golf_base::List;
use golf_ring::Ring;
use std::test::Fail;

#[test]
fn a_ring_gives_the_oldest_item_first(rt: HostRuntime) -> Result<(), Fail> {
    let mut ring = Ring::new(rt.alloc());
    holds(&rt, "a new ring is empty", ring.is_empty());
    is(&rt, "the first item of none", &ring.first(), &None);
    ring.push(3u32)?;
    ring.push(5)?;
    ring.push(8)?;
    is(&rt, "the first item", &ring.first(), &Some(3));
    ring.drop_first();
    is(&rt, "the first item of those left", &ring.first(), &Some(5));
    is(&rt, "the length", &ring.len(), &2);
    Ok(())
}

#[test]
fn a_ring_that_goes_round_keeps_its_order(rt: HostRuntime) -> Result<(), Fail> {
    let mut ring = Ring::new(rt.alloc());
    ring.push(0u32)?;
    ring.push(1)?;
    ring.push(2)?;
    ring.shift(3);
    ring.shift(4);
    ring.shift(5);
    is(&rt, "the first item", &ring.first(), &Some(3));
    let (older, newer) = ring.as_slices();
    let mut items = List::new(rt.alloc());
    items.extend_from_slice(older)?;
    items.extend_from_slice(newer)?;
    is(&rt, "all items", &items.as_slice(), &[3, 4, 5].as_slice());
    Ok(())
}
