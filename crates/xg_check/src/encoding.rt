//! How many bytes the smallest encoding of a type has.

ghost use Rattle.std.specs.Prelude.{◌≡◌, ◌<◌, ℕ, length, Option, Some, IfOk, option_map};
ghost use Rattle.xg_check.specs.Constants.{size_of};
ghost use Rattle.xg_check.specs.Graphs.{AreOrdered};
ghost use Rattle.xg_check.specs.Typed.{type_ways};
ghost use Rattle.xg_check.specs.Encodings.{is_zero, form_hollow, decls_hollow, part_hollow, base_bytes, opaque_bytes};
ghost use Rattle.xg_check.specs.Encodings.{array_bytes, form_bytes, decls_bytes, held_bytes, arms_bytes, part_bytes};
ghost use Rattle.xg_check.specs.Encodings.{word_bytes};
ghost use Rattle.xg_check.specs.Held.{capped, hollow_word, IsCapped, held_count, AreEncodings};

use crate::bases::base;
use crate::lists::repeated;
use crate::order::Order;
use crate::types::{Types, Ways};
use crate::values::Constants;
use std::alloc::{AllocError, Global};
use xdr_value::Basic;
use xg_parse::{ArmItem, ConstWord, Decl, Form, Part, TypeWord};

/// How many bytes an encoding may have at most.
pub const MOST_BYTES: u64 = 65_536;

// A count stands still behind the most.
const TOO_MANY: u64 = 65_537;

/// Of each type whose encoding ends: whether it takes no bytes, and how many the smallest has, up
/// to `TOO_MANY`; none where a size in it has no number.
#[derive(Drop)]
pub struct Encodings {
    hollow: Vec<bool>,
    least: Vec<Option<u64>>,
}

fn capped(count: u64) -> u64
    ensures { result ≡ capped count }
{
    count.min(TOO_MANY)
}

/// The number of a size, where it has one of 32 bits.
pub fn size(constants: &Constants<'_>, word: &ConstWord) -> Option<u32>
    ensures { result ≡ size_of constants.now word.now }
{
    match constants.value(word) {
        None => None,
        Some(value) => u32::try_from(value).ok(),
    }
}

fn is_zero(constants: &Constants<'_>, word: &ConstWord) -> bool
    ensures { result ≡ is_zero (size_of constants.now word.now) }
{
    match size(constants, word) {
        None => false,
        Some(number) => number == 0,
    }
}

// The bytes of a type without a definition: RFC 4506, sections 4.1, 4.2, 4.4 and 4.5.
fn base_bytes(base: Option<Basic>) -> u64
    ensures { result ≡ base_bytes base }
{
    match base {
        Some(Basic::Hyper) | Some(Basic::Uhyper) => 8,
        _ => 4,
    }
}

// So many bytes and what fills them up to a multiple of 4; none count as one.
fn opaque_bytes(count: u32) -> u64
    ensures { result ≡ capped (opaque_bytes count) }
{
    if count == 0 {
        1
    } else {
        capped((u64::from(count) + 3) / 4 * 4)
    }
}

// So many times the bytes; none count as one.
fn array_bytes(count: u32, bytes: u64) -> u64
    ensures { (n : ℕ) → bytes ≡ capped n → result ≡ capped (array_bytes count n) }
{
    if count == 0 {
        1
    } else {
        capped(u64::from(count).saturating_mul(bytes))
    }
}

impl Encodings {
    /// Whether the type takes no bytes.
    pub fn is_hollow(&self, types: &Types<'_>, word: &TypeWord) -> bool
        ensures { result ≡ hollow_word self.now.hollow.items types.now word.now }
    {
        match types.place(word) {
            None => false,
            Some(place) => self.hollow.get(place).copied().unwrap_or(false),
        }
    }

    fn form_hollow(&self, types: &Types<'_>, constants: &Constants<'_>, form: &Form) -> bool
        ensures { result ≡ form_hollow (hollow_word self.now.hollow.items types.now) constants.now form.now }
    {
        match form {
            Form::Plain(word) => self.is_hollow(types, word),
            Form::Fixed(word, size) => is_zero(constants, size) || self.is_hollow(types, word),
            Form::Opaque(size) => is_zero(constants, size),
            Form::Star(_) | Form::UpTo(_, _) | Form::OpaqueUpTo(_) | Form::Text(_) => false,
        }
    }

    fn fields_hollow(&self, types: &Types<'_>, constants: &Constants<'_>, fields: &[Decl]) -> bool
        ensures { result ≡ decls_hollow (hollow_word self.now.hollow.items types.now) constants.now fields.now }
    {
        for field in fields {
            if !self.form_hollow(types, constants, &field.form) {
                return false;
            }
        }
        true
    }

    fn part_hollow(&self, types: &Types<'_>, constants: &Constants<'_>, part: &Part) -> bool
        ensures { result ≡ part_hollow (hollow_word self.now.hollow.items types.now) constants.now part.now }
    {
        match part {
            Part::Typedef(decl) => self.form_hollow(types, constants, &decl.form),
            Part::Struct { fields, .. } => self.fields_hollow(types, constants, fields.as_slice()),
            Part::Enum { .. } | Part::Union { .. } | Part::Const { .. } | Part::Proc { .. } =>
                false,
            Part::Package(_) | Part::Prefix(_) => false,
            Part::StatIndex(_) | Part::StartingOpcode(_) => false,
        }
    }

    /// The bytes of the smallest encoding of the type of this number.
    pub fn bytes(&self, place: usize) -> Option<u64>
        ensures { result ≡ held_count self.now.least.items place }
    {
        self.least.get(place).copied().flatten()
    }

    fn word_bytes(&self, types: &Types<'_>, word: &TypeWord) -> Option<u64>
        ensures { (held : ℕ → Option ℕ) → IsCapped held self.now.least.items
            → result ≡ option_map capped (word_bytes held types.now word.now) }
    {
        match word {
            TypeWord::Base(words) => Some(base_bytes(base(words.as_str()))),
            TypeWord::Name(name) => match types.named(name.as_str()) {
                None => None,
                Some(place) => self.bytes(place),
            },
        }
    }

    /// The bytes of the smallest encoding of what is declared so.
    pub fn form_bytes(
        &self,
        types: &Types<'_>,
        constants: &Constants<'_>,
        form: &Form,
    ) -> Option<u64>
        ensures { (held : ℕ → Option ℕ) → IsCapped held self.now.least.items
            → result ≡ option_map capped (form_bytes (word_bytes held types.now) constants.now form.now) }
    {
        match form {
            Form::Plain(word) => self.word_bytes(types, word),
            Form::Fixed(word, count) => {
                let count = size(constants, count)?;
                let bytes = self.word_bytes(types, word)?;
                Some(array_bytes(count, bytes))
            }
            Form::Opaque(count) => Some(opaque_bytes(size(constants, count)?)),
            Form::Star(_) | Form::UpTo(_, _) | Form::OpaqueUpTo(_) | Form::Text(_) => Some(4),
        }
    }

    fn fields_bytes(
        &self,
        types: &Types<'_>,
        constants: &Constants<'_>,
        fields: &[Decl],
    ) -> Option<u64>
        ensures { (held : ℕ → Option ℕ) → IsCapped held self.now.least.items
            → result ≡ option_map capped (decls_bytes (word_bytes held types.now) constants.now fields.now) }
    {
        let mut sum = 0;
        for field in fields {
            let bytes = self.form_bytes(types, constants, &field.form)?;
            sum = capped(bytes.saturating_add(sum));
        }
        Some(sum)
    }

    fn arm_bytes(&self, types: &Types<'_>, constants: &Constants<'_>, arm: &ArmItem) -> Option<u64>
        ensures { (held : ℕ → Option ℕ) → IsCapped held self.now.least.items
            → result ≡ option_map capped (held_bytes (word_bytes held types.now) constants.now arm.now.decl) }
    {
        match &arm.decl {
            None => Some(0),
            Some(decl) => self.form_bytes(types, constants, &decl.form),
        }
    }

    fn arms_bytes(
        &self,
        types: &Types<'_>,
        constants: &Constants<'_>,
        arms: &[ArmItem],
    ) -> Option<u64>
        ensures { (held : ℕ → Option ℕ) → IsCapped held self.now.least.items
            → result ≡ option_map capped (arms_bytes (word_bytes held types.now) constants.now arms.now) }
    {
        let mut most = 0;
        for arm in arms {
            most = self.arm_bytes(types, constants, arm)?.max(most);
        }
        Some(most)
    }

    fn part_bytes(&self, types: &Types<'_>, constants: &Constants<'_>, part: &Part) -> Option<u64>
        ensures { (held : ℕ → Option ℕ) → IsCapped held self.now.least.items
            → result ≡ option_map capped (part_bytes (word_bytes held types.now) constants.now part.now) }
    {
        match part {
            Part::Typedef(decl) => self.form_bytes(types, constants, &decl.form),
            Part::Enum { .. } => Some(4),
            Part::Struct { fields, .. } => {
                let fields = fields.as_slice();
                if fields.is_empty() {
                    return Some(1);
                }
                self.fields_bytes(types, constants, fields)
            }
            Part::Union {
                tag,
                arms,
                otherwise,
                ..
            } => {
                let tag = self.word_bytes(types, tag)?;
                let most = self.arms_bytes(types, constants, arms.as_slice())?;
                let last = match otherwise {
                    None => 0,
                    Some(arm) => self.arm_bytes(types, constants, arm)?,
                };
                Some(capped(tag.saturating_add(most.max(last))))
            }
            Part::Package(_) | Part::Prefix(_) | Part::StatIndex(_) => None,
            Part::StartingOpcode(_) | Part::Const { .. } | Part::Proc { .. } => None,
        }
    }

    /// The encodings of types, each of which stands in the order behind those that it holds.
    pub fn of(
        alloc: Global,
        types: &Types<'_>,
        constants: &Constants<'_>,
        order: &Order,
    ) -> Result<Encodings, AllocError>
        requires { AreOrdered (type_ways types.now Ways.Held) order.now.nodes.items order.now.ended.items }
        ensures { IfOk result (λ e. AreEncodings types.now constants.now e.hollow.items e.least.items) }
    {
        let count = types.len();
        let mut found = Encodings {
            hollow: repeated(alloc, false, count)?,
            least: repeated(alloc, None, count)?,
        };
        for place in &order.nodes {
            let part = types.part(*place);
            let hollow = found.part_hollow(types, constants, part);
            let least = found.part_bytes(types, constants, part);
            found.hollow[*place] = hollow;
            found.least[*place] = least;
        }
        Ok(found)
    }
}
