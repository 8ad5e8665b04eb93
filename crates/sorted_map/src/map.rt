//! Entries in the order of their keys.

ghost use Rattle.std.specs.Prelude.{◌≡◌, ◌≤◌, ◌+◌, ◌++◌, ◌∷◌, [], T, IsOk, IsSome, IfOk, IfErr, OnOk, OnErr};
ghost use Rattle.std.specs.Option.{option_copied};
ghost use Rattle.std.specs.FinMap.{find, put, is_sorted};
ghost use Rattle.std.specs.Fn.{CalledAt};
ghost use Rattle.std.specs.List.Retain.{IsFiltered};
ghost use Rattle.sorted_map.specs.Entries.{without, changed, IsFoundAt, IsGapAt};

use std::alloc::{AllocError, Global};
use std::marker::Model;
use std::mem;

/// A finite map whose entries lie in one vector, in the strict order of their keys. Contracts see
/// the list of the entries, and the room: how many more keys may come without memory.
pub struct SortedMap<K: Ord, V> {
    entries: Vec<(K, V)>,
}

impl<K: Ord, V> Model for SortedMap<K, V> {
    ghost use Rattle.std.specs.Prelude.{T, ◌-◌};
    ghost use Rattle.std.specs.FinMap.{is_sorted};
    ghost use Rattle.std.specs.Vec.{vec_len, vec_capacity};
    ghost use Rattle.sorted_map.specs.Entries.{Held, held_code};

    ghost Value = { Held K V };

    ghost coded = { held_code K.code V.code };

    ghost view = { λ a. record { entries = a.entries.items; room = vec_capacity a.entries - vec_len a.entries } };

    ghost invariant = { λ a. T (is_sorted K.cmp a.entries.items) };
}

impl<K: Ord + Drop, V: Drop> Drop for SortedMap<K, V> {
    fn drop(self) {
        let SortedMap { entries } = self;
        drop(entries);
    }
}

impl<K: Ord, V> SortedMap<K, V> {
    /// A map with no entries. Takes no memory.
    pub fn new(alloc: Global) -> SortedMap<K, V>
        ensures { result.entries ≡ [] }
    {
        SortedMap {
            entries: Vec::new(alloc),
        }
    }

    /// Returns a copy with the same entries. Clones of a key and of a value are the same again. Takes as
    /// many steps as there are entries.
    ///
    /// # Errors
    /// If memory runs out.
    pub fn copy(&self, alloc: Global) -> Result<SortedMap<K, V>, AllocError>
    where
        K: Clone,
        V: Clone,
        requires keys { (key clone : K) → K.is_clone key clone → clone ≡ key }
        requires values { (value clone : V) → V.is_clone value clone → clone ≡ value }
        ensures { IfOk result (λ copy. copy.entries ≡ self.now.entries) }
    {
        Ok(SortedMap {
            entries: Vec::from_clones(alloc, &self.entries)?,
        })
    }

    /// Returns the entries, in the order of their keys. Takes no memory.
    pub fn entries(&self) -> &[(K, V)]
        ensures entries { result.now ≡ self.now.entries }
        ensures sorted { T (is_sorted K.cmp self.now.entries) }
    {
        &self.entries
    }

    /// Returns the value of a key, if it has one. Takes no memory.
    pub fn get(&self, key: &K) -> Option<&V>
        ensures { option_copied result ≡ find K.cmp key.now self.now.entries }
    {
        match place(&self.entries, key) {
            Ok(at) => Some(&self.entries[at].1),
            Err(_) => None,
        }
    }

    /// Returns the index of a key's entry, or the index at which it would go. Takes no memory.
    pub fn place(&self, key: &K) -> Result<usize, usize>
        ensures found { IfOk result (IsFoundAt K.cmp self.now.entries key.now) }
        ensures gap { IfErr result (IsGapAt K.cmp self.now.entries key.now) }
    {
        place(&self.entries, key)
    }

    /// Returns the number of keys that may still come without memory.
    pub fn room(&self) -> usize
        ensures { result ≡ self.now.room }
    {
        self.entries.capacity() - self.entries.len()
    }

    /// Makes room for so many more keys: that many insertions can't be refused afterwards.
    ///
    /// # Errors
    /// Where there is no memory for it. Then nothing has changed.
    pub fn reserve(&mut self, additional: usize) -> Result<(), AllocError>
        ensures entries { self.new.entries ≡ self.old.entries }
        ensures room { OnOk result (additional ≤ self.new.room) }
        ensures kept { self.old.room ≤ self.new.room }
        ensures succeeds { additional ≤ self.old.room → IsOk result }
        ensures err { OnErr result (self.new ≡ self.old) }
    {
        self.entries.reserve(additional)
    }

    /// Puts the value at a key, and gives the one that was there. A key that is there stays. Takes
    /// memory only where the key is new and there is no room.
    ///
    /// # Errors
    /// Where memory is wanting. Then nothing has changed.
    pub fn insert(&mut self, key: K, value: V) -> Result<Option<V>, AllocError>
    where
        K: Drop,
        V: Drop,
        ensures entries { OnOk result (self.new.entries ≡ put K.cmp key value self.old.entries) }
        ensures before { IfOk result (λ was. was ≡ find K.cmp key self.old.entries) }
        ensures room { self.old.room ≤ self.new.room + 1 }
        ensures err { OnErr result (self.new ≡ self.old) }
        ensures succeeds { 1 ≤ self.old.room → IsOk result }
        ensures held { IsSome (find K.cmp key self.old.entries) → IsOk result }
    {
        match place(&self.entries, &key) {
            Ok(at) => Ok(Some(mem::replace(&mut self.entries[at].1, value))),
            Err(at) => {
                self.entries.reserve(1)?;
                self.entries.insert(at, (key, value))?;
                Ok(None)
            }
        }
    }

    /// Puts the value at a key that is greater than the others. Takes no step for an entry that is there.
    ///
    /// # Errors
    /// If there is neither room nor memory. Then nothing has changed.
    pub fn push(&mut self, key: K, value: V) -> Result<(), AllocError>
    where
        K: Drop,
        V: Drop,
        requires { T (is_sorted K.cmp (self.old.entries ++ (key, value) ∷ [])) }
        ensures ok { OnOk result (self.new.entries ≡ self.old.entries ++ (key, value) ∷ []) }
        ensures room { self.old.room ≤ self.new.room + 1 }
        ensures err { OnErr result (self.new ≡ self.old) }
        ensures succeeds { 1 ≤ self.old.room → IsOk result }
    {
        self.entries.reserve(1)?;
        self.entries.push_reserved((key, value));
        Ok(())
    }

    /// Changes the value of a key that is there, and gives the one before. Takes no memory. Where
    /// the key isn't there, the value is dropped.
    pub fn change(&mut self, key: &K, value: V) -> Option<V>
    where
        V: Drop,
        ensures entries { self.new.entries ≡ changed K.cmp key.now value self.old.entries }
        ensures before { result ≡ find K.cmp key.now self.old.entries }
        ensures room { self.new.room ≡ self.old.room }
    {
        match place(&self.entries, key) {
            Ok(at) => Some(mem::replace(&mut self.entries[at].1, value)),
            Err(_) => None,
        }
    }

    /// Takes the entry of a key out, and gives its value. Takes no memory.
    pub fn remove(&mut self, key: &K) -> Option<V>
    where
        K: Drop,
        ensures entries { self.new.entries ≡ without K.cmp key.now self.old.entries }
        ensures before { result ≡ find K.cmp key.now self.old.entries }
        ensures room { self.old.room ≤ self.new.room }
    {
        match place(&self.entries, key) {
            Ok(at) => Some(self.entries.remove(at).1),
            Err(_) => None,
        }
    }

    /// Keeps the entries of which the closure says so, which goes over them in the order of their
    /// keys. Takes no memory.
    pub fn retain<F: FnMut(&(K, V)) -> bool>(&mut self, keeps: F)
    where
        K: Drop,
        V: Drop,
        requires { F.IsAlwaysCallable keeps }
        ensures entries { IsFiltered (CalledAt F.FnMut) keeps self.old.entries self.new.entries }
        ensures room { self.old.room ≤ self.new.room }
    {
        self.entries.retain(keeps);
    }
}

// Returns the index of a key's entry, or the index at which it would go.
fn place<K: Ord, V>(entries: &[(K, V)], key: &K) -> Result<usize, usize>
    requires { T (is_sorted K.cmp entries.now) }
    ensures found { IfOk result (IsFoundAt K.cmp entries.now key.now) }
    ensures gap { IfErr result (IsGapAt K.cmp entries.now key.now) }
{
    entries.binary_search_by(|(held, _)| held.cmp(key))
}
