//! The opcodes of procedures.

ghost use Rattle.std.specs.Prelude.{◌≡◌, ◌+◌, ◌++◌, ◌^◌, ℕ, ℤ, List, Option, map, IfOk, OnOk};
ghost use Rattle.xg_check.specs.Constants.{in_32_bits};
ghost use Rattle.xg_check.specs.Opcodes.{opcodes_in};
ghost use Rattle.xg_check.specs.Answers.{IsFirstPlace, IsFirstNumber};
ghost use Rattle.xg_check.specs.Counting.{number_at, IsMissing, StandsAgain};
ghost use Rattle.xg_check.specs.Counts.{IsCountBelow, counted_next, count_given, count_counted, part_opcode};
ghost use Rattle.xg_check.specs.Counts.{count_part};

use crate::values::{Constants, behind};
use std::alloc::{AllocError, Global};
use std::collections::HashSet;
use xg_parse::{Part, Tree};

/// What the next opcode is counted from.
#[derive(Clone, Copy)]
pub enum Count {
    /// No number was given to begin with.
    Nothing,
    /// The number of a `startingopcode`, which no procedure has taken yet.
    Start(Option<i128>),
    /// The last opcode, given or counted.
    Last(Option<i128>),
}

impl Count {
    // The opcode of a procedure that gives none.
    fn next(self) -> Option<i128>
        requires { IsCountBelow (2 ^ 67) self }
        ensures { result ≡ counted_next self }
    {
        match self {
            Count::Nothing => None,
            Count::Start(value) => value,
            Count::Last(value) => behind(value),
        }
    }

    // Behind a procedure that gives its opcode.
    fn given(self, value: Option<i128>) -> Count
        ensures { result ≡ count_given self value }
    {
        match self {
            Count::Nothing => Count::Nothing,
            Count::Start(start) => Count::Start(start),
            Count::Last(_) => Count::Last(value),
        }
    }

    // Behind a procedure whose opcode was counted.
    fn counted(self) -> Count
        requires { IsCountBelow (2 ^ 67) self }
        ensures { result ≡ count_counted self }
    {
        match self {
            Count::Nothing => Count::Nothing,
            Count::Start(_) | Count::Last(_) => Count::Last(self.next()),
        }
    }
}

// The count behind a part, whose opcode is added if it is a procedure.
fn add_opcode(
    list: &mut Vec<Option<i128>>,
    constants: &Constants<'_>,
    count: Count,
    part: &Part,
) -> Result<Count, AllocError>
    requires { IsCountBelow (2 ^ 67) count }
    ensures list { OnOk result (list.new.items ≡ list.old.items ++ part_opcode constants.now count part.now) }
    ensures count { IfOk result (λ next. next ≡ count_part constants.now count part.now) }
    ensures below { (n : ℕ) → IsCountBelow (2 ^ 66 + n) count
        → IfOk result (λ next. IsCountBelow (2 ^ 66 + (n + 1)) next) }
{
    match part {
        Part::StartingOpcode(word) => Ok(Count::Start(constants.value(word))),
        Part::Proc { opcode, .. } => match opcode {
            Some(word) => {
                let value = constants.value(word);
                list.push(value)?;
                Ok(count.given(value))
            }
            None => {
                list.push(count.next())?;
                Ok(count.counted())
            }
        },
        Part::Package(_) | Part::Prefix(_) | Part::StatIndex(_) | Part::Const { .. } => Ok(count),
        Part::Typedef(_) | Part::Enum { .. } | Part::Struct { .. } | Part::Union { .. } => Ok(
            count,
        ),
    }
}

/// The opcode of each procedure of the tree, in the order of the text, where it has one.
pub fn opcodes(
    alloc: Global,
    constants: &Constants<'_>,
    tree: &Tree,
) -> Result<Vec<Option<i128>>, AllocError>
    ensures { IfOk result (λ list. list.items ≡ map (λ (p : List ℕ × Option ℤ). p.1)
        (opcodes_in constants.now tree.now.items)) }
{
    let mut list = Vec::new(alloc);
    let mut count = Count::Nothing;
    for item in tree.items.as_slice() {
        count = add_opcode(&mut list, constants, count, &item.part)?;
    }
    Ok(list)
}

/// The first procedure that has no opcode of 32 bits.
pub fn first_without(opcodes: &[Option<i128>]) -> Option<usize>
    ensures { IsFirstPlace (IsMissing opcodes.now) result }
{
    for at in 0..opcodes.len() {
        if number(opcodes[at]).is_none() {
            return Some(at);
        }
    }
    None
}

/// An opcode of 32 bits.
pub fn number(opcode: Option<i128>) -> Option<u32>
    ensures { result ≡ in_32_bits opcode }
{
    match opcode {
        None => None,
        Some(value) => u32::try_from(value).ok(),
    }
}

/// The first opcode that stands for the second time.
pub fn first_twice(alloc: Global, opcodes: &[Option<i128>]) -> Result<Option<u32>, AllocError>
    ensures { IfOk result (λ r. IsFirstNumber (StandsAgain opcodes.now) (number_at opcodes.now) r) }
{
    let mut met = HashSet::new(alloc);
    for opcode in opcodes {
        match number(*opcode) {
            None => {}
            Some(number) => {
                if !met.insert(number)? {
                    return Ok(Some(number));
                }
            }
        }
    }
    Ok(None)
}
