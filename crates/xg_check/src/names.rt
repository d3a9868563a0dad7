//! Names by their places.

ghost use Rattle.std.specs.Prelude.{◌≡◌, ◌++◌, ◌∷◌, [], IfOk, length};
ghost use Rattle.xg_check.specs.Places.{place_of};

use indexmap::IndexMap;
use std::alloc::{AllocError, Global};
use std::marker::Model;

/// Names in order, of which one is found without looking at the others.
#[derive(Drop)]
pub struct Names<'a> {
    names: Vec<&'a str>,
    places: IndexMap<&'a str, usize>,
}

impl<'a> Model for Names<'a> {
    ghost use Rattle.std.specs.Prelude.{ℕ, List, map};
    ghost use Rattle.xg_check.specs.Found.{AreFound};

    ghost Value = { List (List ℕ) };

    ghost view = { λ n. map (λ s. s.now) n.names.items };

    ghost invariant = { λ n. AreFound (map (λ s. s.now) n.names.items) (λ k. k.now) n.places };
}

impl<'a> Names<'a> {
    /// No name.
    pub fn new(alloc: Global) -> Names<'a>
        ensures { result ≡ [] }
    {
        Names {
            names: Vec::new(alloc),
            places: IndexMap::new(alloc),
        }
    }

    /// These and one more.
    pub fn with(self, name: &'a str) -> Result<Names<'a>, AllocError>
        ensures { IfOk result (λ next. next ≡ self.entry ++ name.now ∷ []) }
    {
        let Names {
            mut names,
            mut places,
        } = self;
        if !places.contains_key(name) {
            places.insert(name, names.len())?;
        }
        names.push(name)?;
        Ok(Names { names, places })
    }

    /// How many they are.
    pub fn len(&self) -> usize
        ensures { result ≡ length self.now }
    {
        self.names.len()
    }

    /// Where the name stands first.
    pub fn place(&self, name: &str) -> Option<usize>
        ensures { result ≡ place_of name.now self.now }
    {
        self.places.get(name).copied()
    }
}
