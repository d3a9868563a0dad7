//! Names and cases that stand twice.

ghost use Rattle.std.specs.Prelude.{◌≡◌, ◌++◌, ◌∷◌, [], ℕ, List, not, Some, IfOk};
ghost use Rattle.xg_check.specs.Constants.{ConstantDef, value_of};
ghost use Rattle.xg_check.specs.Marks.{Mark as Marked, declares, union_case};
ghost use Rattle.xg_parse.specs.declared.tree.TypeWord.{TypeWord};
ghost use Rattle.xg_parse.specs.declared.tree.ConstWord.{ConstWord};
ghost use Rattle.xg_check.specs.Judged.{IsTwice};
ghost use Rattle.xg_check.specs.Answers.{IsFirstNamed};
ghost use Rattle.xg_check.specs.Views.{mark_of, marks_of};
ghost use Rattle.xg_check.specs.Met.{AreMet, is_met};

use crate::marks::{Mark, Space};
use crate::values::Constants;
use std::alloc::{AllocError, Global};
use std::collections::HashSet;

// The names and the cases that were met: names by their spaces, and those of lists and cases with
// the number of their item.
#[derive(Drop)]
struct Met<'a> {
    types: HashSet<&'a str>,
    constants: HashSet<&'a str>,
    procedures: HashSet<&'a str>,
    listed: HashSet<(usize, &'a str)>,
    cases: HashSet<(usize, i128)>,
}

impl<'a> Met<'a> {
    // Nothing was met.
    fn nothing(alloc: Global) -> Met<'a>
        ensures { (cs : List ConstantDef) → AreMet cs [] result }
    {
        Met {
            types: HashSet::new(alloc),
            constants: HashSet::new(alloc),
            procedures: HashSet::new(alloc),
            listed: HashSet::new(alloc),
            cases: HashSet::new(alloc),
        }
    }

    // Meets a name, and answers whether it is a new one.
    fn meet(&mut self, space: Space, name: &'a str) -> Result<bool, AllocError>
        ensures { IfOk result (λ b. (cs : List ConstantDef) (front : List Marked) → AreMet cs front self.old
            → AreMet cs (front ++ declares space name.now ∷ []) self.new
            × (not b ≡ is_met cs front (declares space name.now))) }
    {
        match space {
            Space::Type => Ok(self.types.insert(name)?),
            Space::Constant => Ok(self.constants.insert(name)?),
            Space::Procedure => Ok(self.procedures.insert(name)?),
            Space::List(item) => Ok(self.listed.insert((item, name))?),
        }
    }

    // Meets a case of the item, and answers whether it is a new one.
    fn meet_case(&mut self, item: usize, value: i128) -> Result<bool, AllocError>
        ensures { IfOk result (λ b. (cs : List ConstantDef) (front : List Marked) (n : List ℕ) (u : TypeWord)
            (w : ConstWord)
            → value_of cs w ≡ Some value → AreMet cs front self.old
            → AreMet cs (front ++ union_case item n u w ∷ []) self.new
            × (not b ≡ is_met cs front (union_case item n u w))) }
    {
        Ok(self.cases.insert((item, value))?)
    }

    // Meets what stands there, and answers whether it was met before.
    fn again(&mut self, constants: &Constants<'_>, mark: Mark<'a>) -> Result<bool, AllocError>
        ensures { IfOk result (λ b. (front : List Marked) → AreMet constants.now front self.old
            → AreMet constants.now (front ++ mark_of mark.entry ∷ []) self.new
            × (b ≡ is_met constants.now front (mark_of mark.entry))) }
    {
        match mark {
            Mark::Name { space, name } => Ok(!self.meet(space, name)?),
            Mark::Case { item, case, .. } => match constants.value(case) {
                None => Ok(false),
                Some(value) => Ok(!self.meet_case(item, value)?),
            },
            Mark::Type(_) => Ok(false),
            Mark::Number(_) => Ok(false),
            Mark::Constant { .. } => Ok(false),
            Mark::Sized(_) => Ok(false),
            Mark::Enum { .. } => Ok(false),
            Mark::Struct(_) => Ok(false),
            Mark::Union { .. } => Ok(false),
        }
    }
}

/// The first of the text that stands there for the second time.
pub fn twice<'a>(
    alloc: Global,
    constants: &Constants<'_>,
    marks: &[Mark<'a>],
) -> Result<Option<&'a str>, AllocError>
    ensures { IfOk result (λ r. IsFirstNamed (IsTwice constants.now (marks_of marks.now)) (marks_of marks.now) r) }
{
    let mut met = Met::nothing(alloc);
    for mark in marks {
        if met.again(constants, *mark)? {
            return Ok(Some(mark.name()));
        }
    }
    Ok(None)
}
