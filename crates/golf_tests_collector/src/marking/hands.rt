//! Tests of the hands of a pool: they push, take and steal.

ghost use Rattle.std.specs.Prelude.{◌≡◌, ◌≢◌, ◌<◌, ◌∷◌, [], length, IfOk};
ghost use Rattle.golf_grey.specs.Hands.{IsHandOf, capacity_of, hand_count, places_of, pushed};

use golf_base::{List, Memory};
use golf_grey::{GreyHand, GreyPool, Left};
use std::alloc::Global;
use std::process::Abort;
use std::test::Fail;

// A pool of two hands that may each push 8 times, with places below 8. Then hand 1, and hand 0.
fn two_hands(alloc: Global) -> Result<(GreyPool, GreyHand, GreyHand), Memory>
    ensures count { IfOk result (λ r. hand_count r.0 ≡ 2) }
    ensures capacity { IfOk result (λ r. capacity_of r.0 ≡ 8) }
    ensures places { IfOk result (λ r. places_of r.0 ≡ 8) }
    ensures second { IfOk result (λ r. IsHandOf r.0 r.1) }
    ensures first { IfOk result (λ r. IsHandOf r.0 r.2) }
    ensures one { IfOk result (λ r. r.1.number ≡ 1) }
    ensures zero { IfOk result (λ r. r.2.number ≡ 0) }
    ensures none { IfOk result (λ r. pushed r.2 ≡ []) }
    ensures idle { IfOk result (λ r. pushed r.1 ≡ []) }
{
    let (pool, mut hands) = GreyPool::new(alloc, 2, 8, 8)?;
    let first = hands.remove(1);
    let second = hands.remove(0);
    Ok((pool, second, first))
}

fn push_three(pool: &GreyPool, hand: &mut GreyHand)
    requires hand { IsHandOf pool.now hand.old }
    requires capacity { capacity_of pool.now ≡ 8 }
    requires places { places_of pool.now ≡ 8 }
    requires none { pushed hand.old ≡ [] }
    ensures hand { IsHandOf pool.now hand.new }
    ensures number { hand.new.number ≡ hand.old.number }
    ensures pushed { length (pushed hand.new) ≡ 3 }
{
    pool.push(hand, 4);
    pool.push(hand, 5);
    pool.push(hand, 6);
}

fn push_four(pool: &GreyPool, hand: &mut GreyHand)
    requires hand { IsHandOf pool.now hand.old }
    requires capacity { capacity_of pool.now ≡ 8 }
    requires places { places_of pool.now ≡ 8 }
    requires none { pushed hand.old ≡ [] }
    ensures hand { IsHandOf pool.now hand.new }
    ensures number { hand.new.number ≡ hand.old.number }
{
    push_three(pool, hand);
    pool.push(hand, 7);
}

fn take_three(pool: &GreyPool, hand: &mut GreyHand) -> [Option<u32>; 3]
    requires { IsHandOf pool.now hand.old }
    ensures hand { IsHandOf pool.now hand.new }
    ensures number { hand.new.number ≡ hand.old.number }
{
    let first = pool.take(hand);
    let second = pool.take(hand);
    let third = pool.take(hand);
    [first, second, third]
}

fn both(alloc: Global, one: GreyHand, other: GreyHand) -> Result<List<GreyHand>, Memory>
    ensures { IfOk result (λ hands. hands ≡ one ∷ other ∷ []) }
{
    let mut hands = List::new(alloc);
    hands.push(one)?;
    hands.push(other)?;
    Ok(hands)
}

// The places that are left at the end of a pool whose hands come in this order.
fn end(alloc: Global, pool: GreyPool, one: GreyHand, other: GreyHand) -> Result<Left, Memory>
    requires count { hand_count pool ≡ 2 }
    requires one { IsHandOf pool one }
    requires other { IsHandOf pool other }
    requires differ { one.number ≢ other.number }
{
    let hands = both(alloc, one, other)?;
    Ok(pool.close(hands))
}

// Fails the test unless these places were taken.
fn are(rt: &impl Abort, taken: [Option<u32>; 3], wanted: [Option<u32>; 3]) {
    assert_eq!(rt; taken, wanted);
}

#[test]
fn a_hand_steals_all_that_another_one_pushed_and_then_nothing(rt: HostRuntime) -> Result<(), Fail> {
    let alloc = rt.alloc();
    let (pool, mut second, mut first) = two_hands(alloc)?;
    push_three(&pool, &mut first);
    let stolen = take_three(&pool, &mut second);
    let none = pool.take(&mut second);
    are(&rt, stolen, [Some(4), Some(5), Some(6)]);
    assert!(rt; none.is_none());
    Ok(())
}

#[test]
fn a_hand_takes_its_own_place_before_it_steals(rt: HostRuntime) -> Result<(), Fail> {
    let alloc = rt.alloc();
    let (pool, mut second, mut first) = two_hands(alloc)?;
    push_three(&pool, &mut second);
    pool.push(&mut first, 7);
    let taken = take_three(&pool, &mut first);
    are(&rt, taken, [Some(7), Some(4), Some(5)]);
    Ok(())
}

#[test]
fn a_hand_steals_in_order_and_what_is_left_comes_at_the_end(rt: HostRuntime) -> Result<(), Fail> {
    let alloc = rt.alloc();
    let (pool, mut second, mut first) = two_hands(alloc)?;
    push_four(&pool, &mut first);
    let stolen = take_three(&pool, &mut second);
    let left = end(alloc, pool, second, first)?;
    are(&rt, stolen, [Some(4), Some(5), Some(6)]);
    assert!(rt; left.places.as_slice() == [7].as_slice());
    Ok(())
}

#[test]
fn hands_come_to_the_end_in_any_order(rt: HostRuntime) -> Result<(), Fail> {
    let alloc = rt.alloc();
    let (pool, mut second, mut first) = two_hands(alloc)?;
    push_four(&pool, &mut first);
    let stolen = take_three(&pool, &mut second);
    let left = end(alloc, pool, first, second)?;
    are(&rt, stolen, [Some(4), Some(5), Some(6)]);
    assert!(rt; left.places.as_slice() == [7].as_slice());
    Ok(())
}

#[test]
fn what_is_pushed_is_taken_once(rt: HostRuntime) -> Result<(), Fail> {
    let alloc = rt.alloc();
    let (pool, mut second, mut first) = two_hands(alloc)?;
    push_four(&pool, &mut first);
    let stolen = take_three(&pool, &mut second);
    let own = take_three(&pool, &mut first);
    let none = take_three(&pool, &mut second);
    are(&rt, stolen, [Some(4), Some(5), Some(6)]);
    are(&rt, own, [Some(7), None, None]);
    are(&rt, none, [None, None, None]);
    Ok(())
}
