//! Laws over the definitions that contracts cite.

ghost use lib.IntN.{negsuc};
ghost use Rattle.std.specs.Prelude.{◌≡◌, ◌<◌, ◌^◌, ◌++◌, ℕ, Bool, List, Result, Vec as VecOf, Some, IsTrue, length};
ghost use Rattle.std.specs.Global.{Global as GlobalType};
ghost use Rattle.std.specs.List.{slice_get};
ghost use Rattle.xdr_value.specs.Data.{Types, Procs, Procedure, Data};
ghost use Rattle.xdr_value.specs.Tests.{is_sound};
ghost use Rattle.xdr_value.specs.declared.value.Value.{Value as ValueType};
ghost use Rattle.hex.specs.Hex.{IsBytes};
ghost use Rattle.stub_table.specs.declared.fault.StubFault.{StubFault as Fault};
ghost use Rattle.stub_table.specs.declared.stream.Stream.TheVariants as streams;
ghost use Rattle.stub_table.specs.Streams.{FitStream, stream_spelling, request_spelling};
ghost use Rattle.stub_table.specs.Answers.{CanRequest, IsReplyRead, AreValues};
ghost use Rattle.stub_table.specs.Requests.{request_answer, whole, IsWholeRequest};

use crate::codes::{
    CC_MARSHAL, CC_UNMARSHAL, DECODE, MAX_STREAM_BYTES, OPCODE, SS_MARSHAL, SS_UNMARSHAL,
};

/// The codes, and the greatest request and reply in bytes.
pub fn numbers()
    ensures client { (CC_MARSHAL ≡ negsuc 449) × (CC_UNMARSHAL ≡ negsuc 450) }
    ensures server { (SS_MARSHAL ≡ negsuc 451) × (SS_UNMARSHAL ≡ negsuc 452) × (DECODE ≡ negsuc 453)
        × (OPCODE ≡ negsuc 454) }
    ensures bytes { MAX_STREAM_BYTES ≡ 65536 }
{}

/// A request that can be made is found at the front of its bytes, whatever follows: its procedure,
/// its values, and all of its bytes are used.
pub fn request_is_read_again()
    ensures { (t : Types) (ps : Procs) (index : ℕ) (p : Procedure) (vs : Data) (rest : List ℕ) (ended : Bool)
        → IsTrue (is_sound t ps) → slice_get ps index ≡ Some p → p.opcode < 2 ^ 32 → CanRequest t p vs
        → request_answer t ps (request_spelling t p vs ++ rest) ended
        ≡ whole index vs (length (request_spelling t p vs)) }
{}

/// The values of a reply are found at the front of its bytes, whatever follows.
pub fn reply_is_read_again()
    ensures { (t : Types) (p : Procedure) (vs : Data) (rest : List ℕ)
        (result : Result (VecOf ValueType GlobalType) Fault)
        → FitStream t streams.Reply p vs → IsReplyRead t p (stream_spelling t streams.Reply p vs ++ rest) result
        → AreValues vs result }
{}

/// A whole request is the front of the bytes: its procedure's opcode and its values, in as many
/// bytes as were used.
pub fn whole_request_is_spelled()
    ensures { (t : Types) (ps : Procs) (bytes : List ℕ) (ended : Bool) (index : ℕ) (vs : Data) (used : ℕ)
        → IsBytes bytes → request_answer t ps bytes ended ≡ whole index vs used
        → IsWholeRequest t ps bytes index vs used }
{}
