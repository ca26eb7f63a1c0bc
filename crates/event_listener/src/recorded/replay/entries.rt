//! Lists of keys with what belongs to each.
ghost use Rattle.std.specs.Prelude.{◌≡◌, ◌≤◌, length};
ghost use Rattle.std.specs.List.{position};
ghost use Rattle.std.specs.Map.{lookup, remove_entry, set_value};
ghost use Rattle.event_queue.specs.Key.{is_key};

use event_queue::Key;

// Returns the index of that key, if the key is among the entries.
fn find<X>(entries: &[(Key, X)], key: Key) -> Option<usize>
    ensures { result ≡ position (λ entry. is_key key entry.0) entries.now }
{
    entries.iter().position(|entry| key == entry.0)
}

/// Removes the entry of the key, and returns its value, if the key is among the entries.
pub(super) fn take_entry<X>(entries: &mut Vec<(Key, X)>, key: Key) -> Option<X>
    ensures value { result ≡ lookup (is_key key) entries.old.items }
    ensures taken { entries.new.items ≡ remove_entry (is_key key) entries.old.items }
    ensures no_longer { length entries.new.items ≤ length entries.old.items }
{
    let at = find(entries.as_slice(), key)?;
    let (_, value) = entries.remove(at);
    Some(value)
}

/// Gives the key another value, and returns the value that it had, if the key is among the entries.
pub(super) fn set_entry<X: Copy>(entries: &mut Vec<(Key, X)>, key: Key, value: X) -> Option<X>
    ensures value { result ≡ lookup (is_key key) entries.old.items }
    ensures set { entries.new.items ≡ set_value (is_key key) entries.old.items value }
    ensures as_long { length entries.new.items ≡ length entries.old.items }
{
    let at = find(entries.as_slice(), key)?;
    let had = entries[at].1;
    entries[at].1 = value;
    Some(had)
}
