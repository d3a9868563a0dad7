//! The values of constants.

ghost use Rattle.std.specs.Prelude.{◌≡◌, ◌<◌, ◌+◌, ◌↔◌, ◌^◌, ◌<ℤ◌, ◌+ℤ◌, pos, ℕ, List, length, option_map, IfOk};
ghost use Rattle.std.specs.Prelude.{IfSome, IsTrue};
ghost use Rattle.std.specs.Option.{ForSome};
ghost use Rattle.xg_check.specs.Places.{place_of};
ghost use Rattle.xg_check.specs.Graphs.{Leads, AreOrdered};
ghost use Rattle.xg_check.specs.Constants.{ConstantDef, one_or_none, given_source, given_value, signed, word_value};
ghost use Rattle.xg_check.specs.Constants.{constant_names};
ghost use Rattle.xg_check.specs.Constants.{constants_in, constant_ways, value_at, value_of, value_named};
ghost use Rattle.xg_check.specs.Views.{given_of, constants_of};
ghost use Rattle.xg_check.specs.Held.{held_value, AreValues, AreBelow, AreBounded};

use crate::constants::{Constant, Given, constants, names};
use crate::graph::Graph;
use crate::lists::repeated;
use crate::names::Names;
use crate::order::{Order, ordered};
use crate::reach::returns;
use crate::ringless::ringless;
use std::alloc::{AllocError, Global};
use std::marker::Model;
use xg_parse::{ConstWord, Tree};

/// The constants of a tree with their values. One that leads into a ring or to an unknown name has
/// none.
#[derive(Drop)]
pub struct Constants<'a> {
    list: Vec<Constant<'a>>,
    names: Names<'a>,
    values: Vec<Option<i128>>,
    ways: Graph,
    ringless: Vec<bool>,
}

impl<'a> Model for Constants<'a> {
    ghost use Rattle.std.specs.Prelude.{List};
    ghost use Rattle.xg_check.specs.Constants.{ConstantDef};
    ghost use Rattle.xg_check.specs.Views.{constants_of};
    ghost use Rattle.xg_check.specs.Held.{AreKept};

    ghost Value = { List ConstantDef };

    ghost view = { λ c. constants_of c.list.items };

    ghost invariant = { λ c. AreKept (constants_of c.list.items) c.names c.values.items c.ways c.ringless.items };
}

// The constant from whose value that of this one comes.
fn source(given: Given<'_>, names: &Names<'_>, at: usize) -> Option<usize>
    ensures { (cs : List ConstantDef) → names.now ≡ constant_names cs
        → result ≡ given_source cs at (given_of given.entry) }
{
    match given {
        Given::Word(ConstWord::Name(name)) => names.place(name.as_str()),
        Given::Word(ConstWord::Literal { .. }) => None,
        Given::First => None,
        Given::Next => at.checked_sub(1),
    }
}

// The other alone, if there is one.
fn one_or_none(alloc: Global, other: Option<usize>) -> Result<Vec<usize>, AllocError>
    ensures { IfOk result (λ list. list.items ≡ one_or_none other) }
{
    let mut list = Vec::new(alloc);
    if let Some(other) = other {
        list.push(other)?;
    }
    Ok(list)
}

// To which other each constant leads.
fn ways(alloc: Global, list: &[Constant<'_>], names: &Names<'_>) -> Result<Graph, AllocError>
    requires { names.now ≡ constant_names (constants_of list.now) }
    ensures { IfOk result (λ g. g ≡ constant_ways (constants_of list.now)) }
{
    let mut next = Vec::new(alloc);
    for at in 0..list.len() {
        let one = one_or_none(alloc, source(list[at].given, names, at))?;
        next.push(one)?;
    }
    Ok(Graph::of(next))
}

fn literal(minus: bool, number: u64) -> i128
    ensures value { result ≡ signed minus number }
    ensures bound { result <ℤ pos (2 ^ 64) }
{
    let number = i128::from(number);
    if minus { -number } else { number }
}

/// The value at a place of a table, if there is one.
pub fn value_in(values: &[Option<i128>], place: usize) -> Option<i128>
    ensures { result ≡ held_value values.now place }
{
    values.get(place).copied().flatten()
}

// The value of a word, where the constants have these.
fn word_value(names: &Names<'_>, values: &[Option<i128>], word: &ConstWord) -> Option<i128>
    ensures value { (cs : List ConstantDef) → names.now ≡ constant_names cs
        → result ≡ word_value (held_value values.now) cs word.now }
    ensures bound { (n : ℕ) → AreBelow n values.now → IfSome result (λ z. z <ℤ pos (2 ^ 64 + n)) }
{
    match word {
        ConstWord::Literal { minus, number } => Some(literal(*minus, *number)),
        ConstWord::Name(name) => match names.place(name.as_str()) {
            None => None,
            Some(place) => value_in(values, place),
        },
    }
}

/// The value behind another.
pub fn behind(value: Option<i128>) -> Option<i128>
    requires { ForSome value (λ z. z <ℤ pos (2 ^ 67)) }
    ensures { result ≡ option_map (λ z. z +ℤ pos 1) value }
{
    match value {
        None => None,
        Some(value) => value.checked_add(1),
    }
}

// The value of a constant, where those that it leads to have theirs.
fn value(given: Given<'_>, names: &Names<'_>, values: &[Option<i128>], at: usize) -> Option<i128>
    requires { AreBounded values.now }
    ensures value { (cs : List ConstantDef) → names.now ≡ constant_names cs
        → result ≡ given_value (held_value values.now) cs at (given_of given.entry) }
    ensures bound { (n : ℕ) → AreBelow n values.now → IfSome result (λ z. z <ℤ pos (2 ^ 64 + (n + 1))) }
{
    match given {
        Given::Word(word) => word_value(names, values, word),
        Given::First => Some(0),
        Given::Next => match at.checked_sub(1) {
            None => None,
            Some(before) => behind(value_in(values, before)),
        },
    }
}

// The values of constants, each of which stands in the order behind the one that it leads to.
fn values(
    alloc: Global,
    list: &[Constant<'_>],
    names: &Names<'_>,
    order: &Order,
) -> Result<Vec<Option<i128>>, AllocError>
    requires names { names.now ≡ constant_names (constants_of list.now) }
    requires order { AreOrdered (constant_ways (constants_of list.now)) order.now.nodes.items order.now.ended.items }
    ensures values { IfOk result (λ values. AreValues (constants_of list.now) values.items) }
    ensures bounded { IfOk result (λ values. AreBounded values.items) }
{
    let mut values = repeated(alloc, None, list.len())?;
    for at in &order.nodes {
        let value = value(list[*at].given, names, values.as_slice(), *at);
        values[*at] = value;
    }
    Ok(values)
}

impl<'a> Constants<'a> {
    /// The constants of the tree. The time grows with the text alone.
    pub fn of(alloc: Global, tree: &'a Tree) -> Result<Constants<'a>, AllocError>
        ensures { IfOk result (λ c. c ≡ constants_in tree.now.items) }
    {
        let list = constants(alloc, tree)?;
        let names = names(alloc, list.as_slice())?;
        let ways = ways(alloc, list.as_slice(), &names)?;
        let order = ordered(alloc, &ways)?;
        let values = values(alloc, list.as_slice(), &names, &order)?;
        let ringless = ringless(alloc, &ways, &order)?;
        Ok(Constants {
            list,
            names,
            values,
            ways,
            ringless,
        })
    }

    /// The place of the name.
    pub fn place(&self, name: &str) -> Option<usize>
        ensures { result ≡ place_of name.now (constant_names self.now) }
    {
        self.names.place(name)
    }

    /// The value of the constant at the place.
    pub fn at(&self, place: usize) -> Option<i128>
        ensures { result ≡ value_at self.now place }
    {
        value_in(self.values.as_slice(), place)
    }

    /// The value of a word.
    pub fn value(&self, word: &ConstWord) -> Option<i128>
        ensures value { result ≡ value_of self.now word.now }
        ensures bound { IfSome result (λ z. z <ℤ pos (2 ^ 66)) }
    {
        word_value(&self.names, self.values.as_slice(), word)
    }

    /// The value of the constant of this name.
    pub fn named(&self, name: &str) -> Option<i128>
        ensures { result ≡ value_named self.now name.now }
    {
        match self.names.place(name) {
            None => None,
            Some(place) => value_in(self.values.as_slice(), place),
        }
    }

    /// Whether the constant names itself, at once or through others.
    pub fn is_in_ring(&self, alloc: Global, place: usize) -> Result<bool, AllocError>
        requires { place < length self.now }
        ensures { IfOk result (λ b. IsTrue b ↔ Leads (constant_ways self.now) place place) }
    {
        if self.ringless[place] {
            return Ok(false);
        }
        returns(alloc, &self.ways, place)
    }
}
