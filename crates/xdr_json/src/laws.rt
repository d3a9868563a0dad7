//! Laws of values and their JSON.

ghost use Rattle.std.specs.Prelude.{◌≡◌, Ok};
ghost use Rattle.xdr_value.specs.Data.{Types, Procs, Kind, Datum};
ghost use Rattle.xdr_value.specs.Facts.{IsSound};
ghost use Rattle.xdr_value.specs.Fits.{Fits};
ghost use Rattle.xdr_json.specs.Bytes.{OctetsAreBytes};
ghost use Rattle.xdr_json.specs.Json.{json_of};
ghost use Rattle.xdr_json.specs.Judging.{judged};

use crate::judging::MAX_NESTING;

/// How deep arrays and objects may nest in JSON that is read.
pub fn numbers()
    ensures { MAX_NESTING ≡ 127 }
{}

/// The JSON of a value that fits is judged to be the value.
pub fn value_returns()
    ensures { (t : Types) (ps : Procs) (k : Kind) (d : Datum) → IsSound t ps → OctetsAreBytes d → Fits t k d
        → judged t (json_of t k d) k ≡ Ok d }
{}
