ghost use Rattle.std.specs.Prelude.{◌≡◌, ◌≤◌, [], length, Some, None, true, false, if◌then◌else◌, IfOk, IsTrue};
ghost use Rattle.rx_table.specs.Names.{place_under, same_key};

use crate::key::Key;
use indexmap::IndexMap;
use std::alloc::{AllocError, Global};
use std::marker::Model;

/// Where connections stand in the list, by their keys: those that it has taken.
#[derive(Debug, Drop)]
pub struct Index {
    places: IndexMap<Key, u32>,
    room: u32,
}

impl Model for Index {
    ghost use Rattle.std.specs.Prelude.{ℕ, List, ◌≤◌, length};
    ghost use Rattle.rx_table.specs.declared.key.Key.{Key};

    ghost Value = { List (Key × ℕ) };

    ghost view = { λ i. i.places.entries };

    ghost invariant = { λ i. length i.places.entries ≤ i.room };
}

impl Index {
    /// An empty index with room for so many keys.
    pub fn make(alloc: Global, room: u32) -> Result<Index, AllocError>
        ensures { IfOk result (λ i. i ≡ []) }
    {
        // Twice the room, since a key that is forgotten may leave its place unused.
        let places = IndexMap::with_capacity(alloc, 2 * room as usize)?;
        Ok(Index { places, room })
    }

    /// The place of a key; none where it wasn't taken.
    pub fn place(&self, key: &Key) -> Option<u32>
        ensures { result ≡ place_under self.now key.now }
    {
        self.places.get(key).copied()
    }

    // No clause says when it takes one: no bound is claimed of a look-up, and what isn't here is found in the list.
    /// Takes a key, where there is room for it without memory, and answers whether it did.
    pub fn take(&mut self, key: Key, place: u32) -> bool
        ensures taken { result ≡ true → (k : Key)
            → place_under self.new k ≡ (if same_key key k then Some place else place_under self.old k) }
        ensures refused { result ≡ false → self.new ≡ self.old }
    {
        let len = self.places.len();
        if len >= self.room as usize || len == self.places.capacity() {
            return false;
        }
        self.places.insert(key, place).is_ok()
    }

    /// Forgets a key.
    pub fn forget(&mut self, key: &Key)
        ensures { (k : Key) → place_under self.new k ≡ (if same_key key.now k then None else place_under self.old k) }
    {
        self.places.swap_remove(key);
    }
}
