//! Lists of goroutine numbers in rising order. Nothing here takes memory.
//!
//! Such a list has the running goroutines of a block. It has room for all of them beforehand.

ghost use Rattle.std.specs.Prelude.{◌≡◌, ◌<◌, ◌≤◌, ◌+◌, ◌∷◌, ◌++◌, [], map, vec_len, vec_capacity, length, insert};
ghost use Rattle.std.specs.Prelude.{remove};
ghost use Rattle.golf_theory.specs.Stored.{placed, without};
ghost use Rattle.golf_state_goroutines.specs.RisingLists.{RisesFrom, leading};

use golf_base::GoroutineId;

// How many numbers come before the first one that is not below the bound. It looks at the last two numbers
// first, so a list of one or two needs no search.
#[inline(always)]
fn leading(goroutines: &[GoroutineId], bound: u64) -> usize
    requires { RisesFrom 0 (map (λ h. h.0) goroutines.now) }
    ensures place { result ≡ leading bound (map (λ h. h.0) goroutines.now) }
    ensures within { result ≤ length goroutines.now }
{
    let count = goroutines.len();
    if count == 0 || u64::from(goroutines[count - 1].0) < bound {
        return count;
    }
    if count == 1 || u64::from(goroutines[count - 2].0) < bound {
        return count - 1;
    }
    goroutines.partition_point(|other| u64::from(other.0) < bound)
}

// Removes the number at a place. If it is the last, nothing is moved.
#[inline(always)]
fn take_out(goroutines: &mut Vec<GoroutineId>, at: usize)
    requires { at < length goroutines.old.items }
    ensures items { goroutines.new.items ≡ remove goroutines.old.items at }
    ensures room { vec_capacity goroutines.new ≡ vec_capacity goroutines.old }
{
    if at + 1 == goroutines.len() {
        goroutines.truncate(at);
    } else {
        goroutines.remove(at);
    }
}

/// Removes this number, if it is in the list.
#[inline(always)]
pub fn leave_out(goroutines: &mut Vec<GoroutineId>, g: GoroutineId)
    requires { RisesFrom 0 (map (λ h. h.0) goroutines.old.items) }
    ensures others { map (λ h. h.0) goroutines.new.items ≡ without g.0 (map (λ h. h.0) goroutines.old.items) }
    ensures room { vec_capacity goroutines.new ≡ vec_capacity goroutines.old }
{
    let at = leading(goroutines.as_slice(), u64::from(g.0));
    if at < goroutines.len() && goroutines[at].0 == g.0 {
        take_out(goroutines, at);
    }
}

// Puts a number at a place. The list has room for it. If the place is the end, nothing is moved.
#[inline(always)]
fn put_at(goroutines: &mut Vec<GoroutineId>, at: usize, g: GoroutineId)
    requires room { vec_len goroutines.old < vec_capacity goroutines.old }
    requires within { at ≤ length goroutines.old.items }
    ensures items { goroutines.new.items ≡ insert goroutines.old.items at g }
    ensures room { vec_capacity goroutines.old ≤ vec_capacity goroutines.new }
{
    if at == goroutines.len() {
        goroutines.push_reserved(g);
    } else {
        let _ = goroutines.insert(at, g);
    }
}

/// Puts a number at its place in the order. The list has room for it.
#[inline(always)]
pub fn put_in(goroutines: &mut Vec<GoroutineId>, g: GoroutineId)
    requires room { vec_len goroutines.old < vec_capacity goroutines.old }
    requires rises { RisesFrom 0 (map (λ h. h.0) goroutines.old.items) }
    ensures all { map (λ h. h.0) goroutines.new.items ≡ placed g.0 (map (λ h. h.0) goroutines.old.items) }
    ensures room { vec_capacity goroutines.old ≤ vec_capacity goroutines.new }
{
    let at = leading(goroutines.as_slice(), u64::from(g.0) + 1);
    put_at(goroutines, at, g);
}

/// Adds a number at the end. The list has room for it.
pub fn add_last(goroutines: &mut Vec<GoroutineId>, g: GoroutineId)
    requires { vec_len goroutines.old < vec_capacity goroutines.old }
    ensures all { map (λ h. h.0) goroutines.new.items ≡ map (λ h. h.0) goroutines.old.items ++ g.0 ∷ [] }
    ensures room { vec_capacity goroutines.old ≤ vec_capacity goroutines.new }
    ensures len { vec_len goroutines.new ≡ vec_len goroutines.old + 1 }
{
    goroutines.push_reserved(g);
}
