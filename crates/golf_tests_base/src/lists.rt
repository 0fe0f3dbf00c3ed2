//! Tests of lists, rooms and boxes.

use crate::wanted::{holds, is};
use golf_base::{Boxed, List, Room};
use std::test::Fail;

#[test]
fn a_list_is_filled_and_changed(rt: HostRuntime) -> Result<(), Fail> {
    let mut list = List::new(rt.alloc());
    holds(&rt, "a new list is empty", list.is_empty());
    list.push(3u32)?;
    list.push(5)?;
    list.extend_from_slice(&[8, 13])?;
    list.set(0, 2);
    list.as_mut_slice()[1] = 5;
    *list.item_mut(1) = 4;
    is(&rt, "the list", &list.as_slice(), &[2, 4, 8, 13].as_slice());
    Ok(())
}

#[test]
fn a_list_is_emptied_and_filled_again(rt: HostRuntime) -> Result<(), Fail> {
    let mut list = List::new(rt.alloc());
    list.extend_from_slice(&[2u32, 4, 8, 13])?;
    is(&rt, "an item that is removed", &list.remove(1), &4);
    is(&rt, "the last item", &list.pop(), &Some(13));
    list.truncate(1);
    is(&rt, "the length of a list that is cut", &list.len(), &1);
    list.clear();
    is(
        &rt,
        "the last item of a list that is cleared",
        &list.pop(),
        &None,
    );
    list.extend_with(2, 21)?;
    is(&rt, "an item twice", &list.as_slice(), &[21, 21].as_slice());
    Ok(())
}

#[test]
fn a_room_is_filled_without_memory_and_given_away(rt: HostRuntime) -> Result<(), Fail> {
    let mut room = Room::new(rt.alloc());
    holds(&rt, "a new room is empty", room.is_empty());
    room.reserve(2)?;
    holds(&rt, "what is reserved is there", room.spare() >= 2);
    room.push_ready(3u32);
    room.push_ready(5);
    room.push(8)?;
    room.as_mut_slice()[0] = 2;
    is(
        &rt,
        "a room that is changed",
        &room.as_slice(),
        &[2, 5, 8].as_slice(),
    );
    is(&rt, "the length", &room.len(), &3);
    is(&rt, "an item that is removed", &room.remove(0), &2);
    is(&rt, "the last item", &room.pop(), &Some(8));
    is(
        &rt,
        "the list that is left",
        &room.into_list().as_slice(),
        &[5].as_slice(),
    );
    Ok(())
}

#[test]
fn a_cleared_room_keeps_its_room(rt: HostRuntime) -> Result<(), Fail> {
    let mut room = Room::new(rt.alloc());
    room.push(3u32)?;
    let before = room.spare();
    room.clear();
    is(
        &rt,
        "the last item of a room that is cleared",
        &room.pop(),
        &None,
    );
    holds(
        &rt,
        "the room of the item is there",
        room.spare() == before + 1,
    );
    Ok(())
}

#[test]
fn a_box_gives_its_value_back(rt: HostRuntime) -> Result<(), Fail> {
    let mut boxed = Boxed::new(rt.alloc(), 7u32)?;
    is(&rt, "the value", boxed.get(), &7);
    *boxed.get_mut() = 8;
    is(&rt, "the value that is changed", &boxed.into_inner(), &8);
    Ok(())
}
