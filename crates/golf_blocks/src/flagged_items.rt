//! Vectors of which the flagged items are kept.
//!
//! The flags are a list of their own, in the order of the items.

ghost use Rattle.std.specs.Prelude.{◌≡◌, length};
ghost use Rattle.golf_theory.specs.Flags.{kept};

/// Keeps the items whose flag is true. It takes no memory.
pub fn close_up<T: Drop>(items: &mut Vec<T>, keep: &[bool])
    requires { length keep.now ≡ length items.old.items }
    ensures { items.new.items ≡ kept keep.now items.old.items }
{
    let mut count = 0;
    for at in 0..keep.len() {
        if keep[at] {
            items.swap(count, at);
            count += 1;
        }
    }
    items.truncate(count);
}
