//! The value at the front of some bytes, or what is in its way.

ghost use Rattle.std.specs.Prelude.{◌≡◌, ℕ, ◌≤◌, ◌<◌, ◌-◌, ◌++◌, List, length, IsTrue};
ghost use Rattle.xdr_value.specs.Data.{Datum};
ghost use Rattle.xdr_value.specs.View.{kind_of, types_of};
ghost use Rattle.xdr_value.specs.Tests.{is_known};
ghost use Rattle.xdr_value.specs.Fits.{Fits, depth};
ghost use Rattle.xdr_value.specs.Spelling.{spelling};
ghost use Rattle.xdr_code.specs.declared.fault.Fault.TheVariants as faults;
ghost use Rattle.hex.specs.Hex.{IsBytes};
ghost use Rattle.xdr_code.specs.Opens.{Opens};
ghost use Rattle.xdr_code.specs.Reaches.{Reaches};
ghost use Rattle.xdr_code.specs.Answers.{Tells, IsWhole, IsDeep, IsBad, IsShort, IsRead};

use crate::fault::{Fault, Stop, Why};
use crate::reading::read_value;
use std::alloc::Global;
use xdr_value::{Def, Interface, Ty, Value};

/// What stands at the front of some bytes: a value and how many bytes it takes; or more bytes are
/// wanted; or no value has the item at a place; or the 65th level begins before either.
#[derive(Debug, Drop)]
pub enum Front {
    Whole(Value, usize),
    Short,
    Bad { at: usize, why: Why },
    Deep,
    OutOfMemory,
}

/// What stands at the front of the bytes, a value of the type or what is in its way.
pub fn decode_front(alloc: Global, iface: &Interface, ty: &Ty, bytes: &[u8]) -> Front
    requires { IsTrue (is_known (types_of iface.now.types.items) (kind_of ty.now)) }
    // What each answer says.
    ensures told { Tells (types_of iface.now.types.items) (kind_of ty.now) bytes.now result }
    // What is spelled at the front is found, unless memory runs out.
    ensures only { (d : Datum) (rest : List ℕ) → Fits (types_of iface.now.types.items) (kind_of ty.now) d → depth d ≤ 64
        → bytes.now ≡ spelling (types_of iface.now.types.items) (kind_of ty.now) d ++ rest
        → IsWhole d (length (spelling (types_of iface.now.types.items) (kind_of ty.now) d)) result }
    // Where an item stops the reading, unless a level too many begins before it or memory runs out.
    ensures refused { (at : ℕ) (why : _) → at < length bytes.now
        → Reaches (faults.Bad (length bytes.now - at) why) 64
        (types_of iface.now.types.items) (kind_of ty.now) bytes.now
        → IsBad at why result }
    ensures short { Reaches faults.Short 64 (types_of iface.now.types.items) (kind_of ty.now) bytes.now
        → IsShort result }
    // Which place and which cause a refusal has: those of the reading from left to right.
    ensures exact { IsRead (types_of iface.now.types.items) (kind_of ty.now) bytes.now result }
    // Where the 65th level begins, unless memory runs out.
    ensures deep { Opens 64 (types_of iface.now.types.items) (kind_of ty.now) bytes.now → IsDeep result }
{
    exact_front(alloc, iface, ty, bytes)
}

fn exact_front(alloc: Global, iface: &Interface, ty: &Ty, bytes: &[u8]) -> Front
    ensures exact { IsRead (types_of iface.now.types.items) (kind_of ty.now) bytes.now result }
    ensures bytes { IsBytes bytes.now }
{
    match read_value(alloc, iface, ty, bytes) {
        Ok((value, rest)) => Front::Whole(value, bytes.len() - rest.len()),
        Err(Stop::Memory) => Front::OutOfMemory,
        Err(Stop::Fault(fault)) => match fault {
            Fault::Deep => Front::Deep,
            Fault::Short => Front::Short,
            Fault::Bad { left, why } => Front::Bad {
                at: bytes.len() - left,
                why,
            },
        },
    }
}
