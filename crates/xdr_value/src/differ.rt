//! Whether the names, cases and opcodes of a list differ.

ghost use Rattle.std.specs.Prelude.{◌≡◌, ℕ, List, map, nat_eq, string_bytes};
ghost use Rattle.std.specs.Str.{bytes_eq};
ghost use Rattle.xdr_value.specs.Data.{Choice, Procedure};
ghost use Rattle.xdr_value.specs.View.{choice_of, procs_of};
ghost use Rattle.xdr_value.specs.Facts.{same_case};
ghost use Rattle.xdr_value.specs.Tests.{has_one, differ};

use crate::def::{Arg, Arm, Def, Field, Member, Proc};

/// What goes by a name.
pub trait Named {
    ghost name_of: { Self → List ℕ };

    /// The name.
    fn name(&self) -> &str
        ensures { result.now ≡ name_of self.now };
}

impl Named for Def {
    ghost name_of = { λ d. string_bytes d.name };

    fn name(&self) -> &str {
        self.name.as_str()
    }
}

impl Named for Field {
    ghost name_of = { λ f. string_bytes f.name };

    fn name(&self) -> &str {
        self.name.as_str()
    }
}

impl Named for Member {
    ghost name_of = { λ m. string_bytes m.name };

    fn name(&self) -> &str {
        self.name.as_str()
    }
}

impl Named for Arg {
    ghost name_of = { λ a. string_bytes a.name };

    fn name(&self) -> &str {
        self.name.as_str()
    }
}

impl Named for Proc {
    ghost name_of = { λ p. string_bytes p.name };

    fn name(&self) -> &str {
        self.name.as_str()
    }
}

#[tactic(auto, unfolding(crate::specs::Tests::has_one))]
fn is_named<T: Named>(items: &[T], name: &str) -> bool
    ensures { result ≡ has_one bytes_eq name.now (map T.name_of items.now) }
{
    for item in items {
        if name == item.name() {
            return true;
        }
    }
    false
}

/// Whether no two have the same name.
#[tactic(auto, unfolding(crate::specs::Tests::differ))]
pub fn names_differ<T: Named>(items: &[T]) -> bool
    ensures { result ≡ differ bytes_eq (map T.name_of items.now) }
{
    for i in 0..items.len() {
        if is_named(&items[i + 1..], items[i].name()) {
            return false;
        }
    }
    true
}

fn is_same_case(one: Option<i64>, other: Option<i64>) -> bool
    ensures { result ≡ same_case one other }
{
    match one {
        None => other.is_none(),
        Some(number) => match other {
            None => false,
            Some(case) => number == case,
        },
    }
}

#[tactic(auto, unfolding(crate::specs::Tests::has_one))]
fn is_case_of(arms: &[Arm], case: Option<i64>) -> bool
    ensures { result ≡ has_one same_case case (map (λ (c : Choice). c.case) (map choice_of arms.now)) }
{
    for arm in arms {
        if is_same_case(case, arm.case) {
            return true;
        }
    }
    false
}

/// Whether no two arms have the same case, or are the default both.
#[tactic(auto, unfolding(crate::specs::Tests::differ))]
pub fn cases_differ(arms: &[Arm]) -> bool
    ensures { result ≡ differ same_case (map (λ (c : Choice). c.case) (map choice_of arms.now)) }
{
    for i in 0..arms.len() {
        if is_case_of(&arms[i + 1..], arms[i].case) {
            return false;
        }
    }
    true
}

#[tactic(auto, unfolding(crate::specs::Tests::has_one))]
fn is_opcode_of(procs: &[Proc], opcode: u32) -> bool
    ensures { result ≡ has_one nat_eq opcode (map (λ (p : Procedure). p.opcode) (procs_of procs.now)) }
{
    for one in procs {
        if opcode == one.opcode {
            return true;
        }
    }
    false
}

/// Whether no two procedures have the same opcode.
#[tactic(auto, unfolding(crate::specs::Tests::differ))]
pub fn opcodes_differ(procs: &[Proc]) -> bool
    ensures { result ≡ differ nat_eq (map (λ (p : Procedure). p.opcode) (procs_of procs.now)) }
{
    for i in 0..procs.len() {
        if is_opcode_of(&procs[i + 1..], procs[i].opcode) {
            return false;
        }
    }
    true
}
