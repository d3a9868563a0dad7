//! Where the names of an interface lead.

ghost use Rattle.std.specs.Prelude.{◌≡◌, ◌<◌, ℕ, List, IsTrue, length, Some};
ghost use Rattle.std.specs.Str.{bytes_eq};
ghost use Rattle.xdr_value.specs.View.{types_of};
ghost use Rattle.xdr_value.specs.Facts.{names_of};
ghost use Rattle.xdr_value.specs.Tests.{differ};
ghost use Rattle.xdr_value.specs.Links.{name_at, StandsAt, link_is, all_linked};

use crate::def::{Def, Link, Shape};
use crate::ty::Ty;

fn searched(types: &[Def], name: &str) -> Option<usize>
    ensures { StandsAt (types_of types.now) name.now result }
{
    for at in 0..types.len() {
        if types[at].name.as_str() == name {
            return Some(at);
        }
    }
    None
}

/// Where the name is defined. It is looked for from the first type on only where its definition doesn't
/// stand at this place.
pub fn place_of(types: &[Def], name: &str, place: usize) -> Option<usize>
    requires { IsTrue (differ bytes_eq (names_of (types_of types.now))) }
    ensures { StandsAt (types_of types.now) name.now result }
{
    if place < types.len() && types[place].name.as_str() == name {
        return Some(place);
    }
    searched(types, name)
}

// From an alias to the definition that it names; any other stays where it is.
#[tactic(auto, using(crate::proofs::ChainLaws::link_stays))]
fn first_link(types: &[Def], at: usize) -> Link
    requires differ { IsTrue (differ bytes_eq (names_of (types_of types.now))) }
    requires at { at < length types.now }
    ensures { (s : List ℕ) → name_at at (types_of types.now) ≡ Some s
        → IsTrue (link_is (types_of types.now) s result) }
{
    match &types[at].shape {
        Shape::Alias(ty) => {
            if let Ty::Named(name, place) = ty {
                if let Some(end) = place_of(types, name.as_str(), *place) {
                    return Link { end, hops: 1 };
                }
            }
            Link { end: at, hops: 0 }
        }
        Shape::Enum(_) | Shape::Struct(_) | Shape::Union { .. } => Link { end: at, hops: 0 },
    }
}

fn start(types: &mut [Def])
    requires { IsTrue (differ bytes_eq (names_of (types_of types.old))) }
    ensures same { types_of types.new ≡ types_of types.old }
    ensures linked { IsTrue (all_linked (types_of types.new) types.new) }
{
    for at in 0..types.len() {
        let link = first_link(types, at);
        types[at].link = link;
    }
}

/// The link of the definition at this place.
pub fn link_at(types: &[Def], at: usize) -> Link
    requires at { at < length types.now }
    requires linked { IsTrue (all_linked (types_of types.now) types.now) }
    ensures within { result.end < length types.now }
    ensures right { (s : List ℕ) → name_at at (types_of types.now) ≡ Some s
        → IsTrue (link_is (types_of types.now) s result) }
{
    types[at].link
}

// The link to where the chain at the end of this one ends.
fn longer_link(types: &[Def], at: usize) -> Link
    requires at { at < length types.now }
    requires linked { IsTrue (all_linked (types_of types.now) types.now) }
    ensures { (s : List ℕ) → name_at at (types_of types.now) ≡ Some s
        → IsTrue (link_is (types_of types.now) s result) }
{
    let link = link_at(types, at);
    let next = link_at(types, link.end);
    match link.hops.checked_add(next.hops) {
        None => link,
        Some(hops) => Link {
            end: next.end,
            hops,
        },
    }
}

// Each chain ends where the chain at its end does. Whether one became longer.
fn lengthen(types: &mut [Def]) -> bool
    requires { IsTrue (all_linked (types_of types.old) types.old) }
    ensures same { types_of types.new ≡ types_of types.old }
    ensures linked { IsTrue (all_linked (types_of types.new) types.new) }
{
    let mut longer = false;
    for at in 0..types.len() {
        let link = longer_link(types, at);
        longer = longer || link.hops != types[at].link.hops;
        types[at].link = link;
    }
    longer
}

/// Each definition is given its link. A chain becomes twice as long in each round at least, so the rounds
/// are enough for any; where each name is defined before it is used there are two.
pub fn link_all(types: &mut [Def])
    requires { IsTrue (differ bytes_eq (names_of (types_of types.old))) }
    ensures same { types_of types.new ≡ types_of types.old }
    ensures linked { IsTrue (all_linked (types_of types.new) types.new) }
{
    start(types);
    for _ in 0..usize::BITS {
        if !lengthen(types) {
            return;
        }
    }
}
