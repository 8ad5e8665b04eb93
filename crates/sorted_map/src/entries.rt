//! Entries of a map in the nodes of a tree.

ghost use Rattle.std.specs.Prelude.{◌≡◌};
ghost use Rattle.std.specs.FinMap.{find};
ghost use Rattle.sorted_map.specs.Entries.{changed};
ghost use Rattle.sorted_map.specs.Mapped.{AllPresent, AreEntries, by_key, present, value_of};
ghost use Rattle.sorted_map.specs.Sides.{items_of};

use crate::nodes::{Blank, Node, Side};
use std::cmp::Ordering;
use std::mem;

/// A key with its value. A spare node has none.
pub(crate) type Entry<K, V> = Option<(K, V)>;

impl<E: Drop> Blank for Option<E> {
    fn blank() -> Option<E> {
        None
    }
}

/// Returns how an entry stands to a key.
pub(crate) fn standing<K: Ord, V>(entry: &Entry<K, V>, key: &K) -> Ordering
    ensures { result ≡ by_key (λ held. K.cmp held key.now) entry.now }
{
    match entry {
        Some((held, _)) => held.cmp(key),
        None => Ordering::Less,
    }
}

/// Changes the value of a key that is there, and returns the one before. Where the key isn't there,
/// the value is dropped.
pub(crate) fn exchanged<K: Ord, V: Drop>(
    side: &mut Side<Entry<K, V>>,
    key: &K,
    value: V,
) -> Option<V>
    requires { AreEntries K.cmp (items_of side.old) }
    ensures all { AllPresent (items_of side.new) }
    ensures entries { present (items_of side.new) ≡ changed K.cmp key.now value (present (items_of side.old)) }
    ensures before { result ≡ find K.cmp key.now (present (items_of side.old)) }
{
    let Some(node) = side else {
        return None;
    };
    let Node {
        item,
        left,
        right,
        ..
    } = &mut **node;
    let Some((held, was)) = item else {
        return None;
    };
    match (*held).cmp(key) {
        Ordering::Less => exchanged(right, key, value),
        Ordering::Equal => Some(mem::replace(was, value)),
        Ordering::Greater => exchanged(left, key, value),
    }
}

/// Returns the value of an entry that was taken out.
pub(crate) fn value_in<K: Drop, V>(found: Option<Entry<K, V>>) -> Option<V>
    ensures { result ≡ value_of found }
{
    match found {
        Some(Some((_, value))) => Some(value),
        Some(None) | None => None,
    }
}
