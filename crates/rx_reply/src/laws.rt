//! Laws over the definitions that contracts cite.

ghost use Rattle.std.specs.Prelude.{◌≡◌, ◌++◌, ℕ, Bool, List, Some, Ok, map};
ghost use Rattle.hex.specs.Hex.{IsBytes};
ghost use Rattle.serde_json.specs.Data.{array};
ghost use Rattle.xdr_value.specs.Data.{Types, Procs, Procedure, Part, Data};
ghost use Rattle.xdr_value.specs.Facts.{IsSound};
ghost use Rattle.xdr_value.specs.Fits.{PartsFit};
ghost use Rattle.xdr_json.specs.Args.{array_of_args};
ghost use Rattle.xdr_json.specs.Bytes.{AllAreBytes};
ghost use Rattle.rx_reply.specs.Replies.{Returned, reply_says, values_json};
ghost use Rattle.rx_reply.specs.Spelled.{CanReturn, reply_spelling};

use crate::counted::MAX_COUNTED_BYTES;

/// The greatest counted stream in bytes.
pub fn numbers()
    ensures { MAX_COUNTED_BYTES ≡ 16777216 }
{}

/// A reply that is spelled says what it was spelled of, whatever follows.
pub fn spelled_reply_is_said()
    ensures { (t : Types) (p : Procedure) (down : Bool) (says : Returned) (rest : List ℕ) → CanReturn t p down says
        → reply_says t p down (reply_spelling t p down says ++ rest) ≡ Some says }
{}

/// What a reply says can come back, and its spelling is the front of the bytes.
pub fn said_reply_is_spelled()
    ensures { (t : Types) (p : Procedure) (down : Bool) (reply : List ℕ) (says : Returned) → IsBytes reply
        → reply_says t p down reply ≡ Some says
        → CanReturn t p down says × (rest : List ℕ) × (reply ≡ reply_spelling t p down says ++ rest) }
{}

/// The array that is printed of values is judged to be these values, where it is read as the arguments
/// of a call with their types.
pub fn array_returns()
    ensures { (t : Types) (ps : Procs) (parts : List Part) (vs : Data) → IsSound t ps → AllAreBytes vs
        → PartsFit t parts vs
        → array_of_args t (map (λ p. p.kind) parts) (array (values_json t parts vs)) ≡ Ok vs }
{}
