//! Names that aren't defined.

ghost use Rattle.std.specs.Prelude.{◌≡◌};
ghost use Rattle.xg_check.specs.Judged.{is_unknown_type, is_unknown_constant, is_unknown, IsUnknown};
ghost use Rattle.xg_check.specs.Answers.{IsFirstNamed};
ghost use Rattle.xg_check.specs.Views.{mark_of, marks_of};

use crate::bases::base;
use crate::marks::Mark;
use crate::types::Types;
use crate::values::Constants;
use xg_parse::{ConstWord, TypeWord};

fn is_unknown_type(types: &Types<'_>, word: &TypeWord) -> bool
    ensures { result ≡ is_unknown_type types.now word.now }
{
    match word {
        TypeWord::Base(words) => base(words.as_str()).is_none(),
        TypeWord::Name(name) => types.named(name.as_str()).is_none(),
    }
}

fn is_unknown_constant(constants: &Constants<'_>, word: &ConstWord) -> bool
    ensures { result ≡ is_unknown_constant constants.now word.now }
{
    match word {
        ConstWord::Literal { .. } => false,
        ConstWord::Name(name) => constants.place(name.as_str()).is_none(),
    }
}

// Whether what is used there isn't defined.
fn is_unknown(types: &Types<'_>, constants: &Constants<'_>, mark: &Mark<'_>) -> bool
    ensures { result ≡ is_unknown (record { constants = constants.now; types = types.now }) (mark_of mark.now) }
{
    match mark {
        Mark::Type(word) => is_unknown_type(types, word),
        Mark::Number(word) => is_unknown_constant(constants, word),
        Mark::Name { .. } | Mark::Case { .. } | Mark::Constant { .. } | Mark::Sized(_) => false,
        Mark::Enum { .. } | Mark::Struct(_) | Mark::Union { .. } => false,
    }
}

/// The first name of the text that isn't defined.
pub fn unknown<'a>(
    types: &Types<'_>,
    constants: &Constants<'_>,
    marks: &[Mark<'a>],
) -> Option<&'a str>
    ensures { IsFirstNamed (IsUnknown (record { constants = constants.now; types = types.now }) (marks_of marks.now))
        (marks_of marks.now) result }
{
    for mark in marks {
        if is_unknown(types, constants, mark) {
            return Some(mark.name());
        }
    }
    None
}
