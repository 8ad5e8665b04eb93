//! Entries in the order of their keys, in a balanced tree.

ghost use Rattle.std.specs.Prelude.{◌≡◌, ◌≤◌, ◌+◌, ◌<◌, [], T, not, IsOk, IsSome, IfOk, OnOk, OnErr};
ghost use Rattle.std.specs.Fn.{FnReturnsAt};
ghost use Rattle.std.specs.FinMap.{find, put, is_sorted};
ghost use Rattle.std.specs.List.{slice_get};
ghost use Rattle.std.specs.Option.{option_copied};
ghost use Rattle.std.specs.Ordering.{is_lt};
ghost use Rattle.std.specs.declared.cmp.Ordering.{Ordering as Order};
ghost use Rattle.sorted_map.specs.Entries.{changed, first_where, without};
ghost use Rattle.sorted_map.specs.Indexed.{IsParted, Tells};
ghost use Rattle.sorted_map.specs.Mapped.{AnswersAtKey};

use crate::entries::{Entry, exchanged, standing, value_in};
use crate::nodes::{Node, Side, copied, first_from, inserted, removed};
use crate::spare::fill;
use std::alloc::{AllocError, Global};
use std::cmp::Ordering;
use std::marker::Model;

/// A finite map whose entries lie in a balanced tree, in the strict order of their keys. Contracts
/// see the list of the entries, and the room: the number of keys that may still come without memory.
/// They don't see the speed.
pub struct TreeMap<K: Ord, V> {
    root: Side<Entry<K, V>>,
    spare: Vec<Box<Node<Entry<K, V>>>>,
}

impl<K: Ord, V> Model for TreeMap<K, V> {
    ghost use Rattle.std.specs.Vec.{vec_len};
    ghost use Rattle.sorted_map.specs.Entries.{Held, held_code};
    ghost use Rattle.sorted_map.specs.Mapped.{AreEntries, present};
    ghost use Rattle.sorted_map.specs.Sides.{items_of};

    ghost Value = { Held K V };

    ghost coded = { held_code K.code V.code };

    ghost view = { λ a. record { entries = present (items_of a.root); room = vec_len a.spare } };

    ghost invariant = { λ a. AreEntries K.cmp (items_of a.root) };
}

impl<K: Ord + Drop, V: Drop> Drop for TreeMap<K, V> {
    fn drop(self) {
        let TreeMap { root, spare } = self;
        drop(root);
        drop(spare);
    }
}

impl<K: Ord, V> TreeMap<K, V> {
    /// Returns a map with no entries. Takes no memory.
    pub fn new(alloc: Global) -> TreeMap<K, V>
        ensures { result.entries ≡ [] }
    {
        TreeMap {
            root: None,
            spare: Vec::new(alloc),
        }
    }

    /// Returns a copy with the same entries, and no room. Clones of a key and of a value are the same
    /// again. Takes as many steps as there are entries.
    ///
    /// # Errors
    /// If memory runs out.
    pub fn copy(&self, alloc: Global) -> Result<TreeMap<K, V>, AllocError>
    where
        K: Clone,
        V: Clone,
        requires keys { (key clone : K) → K.is_clone key clone → clone ≡ key }
        requires values { (value clone : V) → V.is_clone value clone → clone ≡ value }
        ensures { IfOk result (λ copy. copy.entries ≡ self.now.entries) }
    {
        Ok(TreeMap {
            root: copied(alloc, &self.root)?,
            spare: Vec::new(alloc),
        })
    }

    /// Returns the first entry. Takes no memory.
    pub fn first(&self) -> Option<&(K, V)>
        ensures { option_copied result ≡ slice_get self.now.entries 0 }
    {
        self.first_at(|_| Ordering::Equal)
    }

    /// Returns the entry of the least key that is greater than this one. Takes no memory.
    pub fn next_behind(&self, key: &K) -> Option<&(K, V)>
        ensures { option_copied result ≡ first_where (λ held _. is_lt (K.cmp key.now held)) self.now.entries }
    {
        self.first_at(|held| {
            if key.cmp(held).is_lt() {
                Ordering::Equal
            } else {
                Ordering::Less
            }
        })
    }

    /// Returns the first entry whose key isn't less than the point that is sought. The closure tells
    /// how a key stands to that point. Takes no memory.
    pub fn first_at<F: Fn(&K) -> Ordering>(&self, order_of: F) -> Option<&(K, V)>
        requires { F.IsAlwaysCallable order_of }
        ensures first { (order : K → Order) → Tells (FnReturnsAt F.Fn order_of) order → IsParted (λ entry. order entry.0) self.now.entries → option_copied result ≡ first_where (λ key _. not (is_lt (order key))) self.now.entries }
        ensures sorted { T (is_sorted K.cmp self.now.entries) }
    {
        let told = |entry: &Entry<K, V>| -> Ordering
            requires { F.IsAlwaysCallable order_of }
            ensures { AnswersAtKey (FnReturnsAt F.Fn order_of) entry.now result }
        {
            match entry {
                Some((key, _)) => order_of(key),
                None => Ordering::Less,
            }
        };
        first_from(&self.root, &told)?.as_ref()
    }

    /// Returns the value of a key, if it has one. Takes no memory.
    pub fn get(&self, key: &K) -> Option<&V>
        ensures { option_copied result ≡ find K.cmp key.now self.now.entries }
    {
        let (held, value) = self.first_at(|held| held.cmp(key))?;
        if held.cmp(key).is_eq() {
            Some(value)
        } else {
            None
        }
    }

    /// Returns the number of keys that may still come without memory.
    pub fn room(&self) -> usize
        ensures { result ≡ self.now.room }
    {
        self.spare.len()
    }

    /// Reserves room for so many more keys: that many insertions can't be refused afterwards.
    ///
    /// # Errors
    /// Where there is no memory for it. Then nothing has changed.
    pub fn reserve(&mut self, additional: usize) -> Result<(), AllocError>
    where
        K: Drop,
        V: Drop,
        ensures entries { self.new.entries ≡ self.old.entries }
        ensures room { OnOk result (additional ≤ self.new.room) }
        ensures kept { self.old.room ≤ self.new.room }
        ensures succeeds { additional ≤ self.old.room → IsOk result }
        ensures err { OnErr result (self.new ≡ self.old) }
    {
        fill(&mut self.spare, additional)
    }

    /// Puts the value at a key, and returns the one that was there. A key that is there stays. Takes
    /// memory only where the key is new and there is no room.
    ///
    /// # Errors
    /// Where memory is wanting. Then nothing has changed.
    pub fn insert(&mut self, key: K, value: V) -> Result<Option<V>, AllocError>
    where
        K: Drop,
        V: Drop,
        ensures entries { OnOk result (self.new.entries ≡ put K.cmp key value self.old.entries) }
        ensures before { IfOk result (λ was. was ≡ find K.cmp key self.old.entries) }
        ensures room { self.old.room ≤ self.new.room + 1 }
        ensures err { OnErr result (self.new ≡ self.old) }
        ensures succeeds { 1 ≤ self.old.room → IsOk result }
        ensures held { IsSome (find K.cmp key self.old.entries) → IsOk result }
    {
        if self.get(&key).is_some() {
            return Ok(self.change(&key, value));
        }
        fill(&mut self.spare, 1)?;
        let Some(memory) = self.spare.pop() else {
            unreachable!()
        };
        let root = self.root.take();
        let told = |held: &Entry<K, V>, new: &Entry<K, V>| match new {
            Some((key, _)) => standing(held, key),
            None => Ordering::Less,
        };
        self.root = Some(inserted(root, Some((key, value)), memory, &told));
        Ok(None)
    }

    /// Changes the value of a key that is there, and returns the one before. Takes no memory. Where
    /// the key isn't there, the value is dropped.
    pub fn change(&mut self, key: &K, value: V) -> Option<V>
    where
        V: Drop,
        ensures entries { self.new.entries ≡ changed K.cmp key.now value self.old.entries }
        ensures before { result ≡ find K.cmp key.now self.old.entries }
        ensures room { self.new.room ≡ self.old.room }
    {
        exchanged(&mut self.root, key, value)
    }

    /// Removes the entry of a key, and returns its value. Takes no memory.
    pub fn remove(&mut self, key: &K) -> Option<V>
    where
        K: Drop,
        V: Drop,
        ensures entries { self.new.entries ≡ without K.cmp key.now self.old.entries }
        ensures before { result ≡ find K.cmp key.now self.old.entries }
        ensures room { self.old.room ≤ self.new.room }
    {
        let (root, found) = removed(
            self.root.take(),
            &|entry: &Entry<K, V>| standing(entry, key),
        );
        self.root = root;
        value_in(found)
    }
}
