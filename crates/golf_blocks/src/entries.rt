//! The entries of one block: keys and values, in rising order of key.
//!
//! A key has at most one entry. A binary search finds it.

ghost use Rattle.std.specs.Prelude.{◌≡◌, ◌==◌, None, not, OnOk, OnErr};
ghost use Rattle.golf_theory.specs.Maps.{find, insert, only, Rises, rank};

use golf_base::Memory;

/// Returns how many entries have a smaller key.
pub fn rank_of<V: Drop>(entries: &[(u32, V)], key: u32) -> usize
    requires { Rises 0 entries.now }
    ensures { result ≡ rank key entries.now }
{
    entries.partition_point(|entry| entry.0 < key)
}

/// Puts the value of a key that has none at its place.
pub fn put_entry<V: Drop>(entries: &mut Vec<(u32, V)>, key: u32, value: V) -> Result<(), Memory>
    requires rises { Rises 0 entries.old.items }
    requires absent { find key entries.old.items ≡ None }
    ensures ok { OnOk result (entries.new.items ≡ insert key value entries.old.items) }
    ensures err { OnErr result (entries.new.items ≡ entries.old.items) }
{
    let at = rank_of(entries.as_slice(), key);
    entries.insert(at, (key, value))?;
    Ok(())
}

/// Removes the entry of the key, if it is there. It takes no memory.
pub fn take_entry<V: Drop>(entries: &mut Vec<(u32, V)>, key: u32)
    requires { Rises 0 entries.old.items }
    ensures { entries.new.items ≡ only (λ p. not (p == key)) entries.old.items }
{
    let at = rank_of(entries.as_slice(), key);
    if at < entries.len() && entries[at].0 == key {
        entries.remove(at);
    }
}
