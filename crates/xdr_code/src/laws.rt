//! Laws of spellings.

ghost use Rattle.std.specs.Prelude.{◌≡◌, ◌<◌, ◌↔◌, ℕ, ◌++◌, List, length, true};
ghost use Rattle.std.specs.Int.{w32, from_be_bytes};
ghost use Rattle.xdr_value.specs.Data.{Types, Kind, Datum};
ghost use Rattle.xdr_value.specs.Fits.{Fits};
ghost use Rattle.xdr_value.specs.Spelling.{spelling};
ghost use Rattle.hex.specs.Hex.{IsBytes};
ghost use Rattle.xdr_code.specs.NumberSets.{NumberSet, reached, high_word, BeginsOne};

/// No spelling of a value begins another of the same type, so a value has one spelling and a spelling one value.
pub fn one_form()
    ensures { (t : Types) (k : Kind) (d e : Datum) (y z : List ℕ) → Fits t k d → Fits t k e
        → spelling t k d ++ y ≡ spelling t k e ++ z → (d ≡ e) × (y ≡ z) }
{}

/// An item that is cut short is refused exactly where no number of it begins with its bytes.
pub fn item_is()
    ensures { (item : NumberSet) (bytes : List ℕ) → IsBytes bytes → length bytes < 4
        → (reached item (from_be_bytes w32 bytes) (high_word bytes) ≡ true) ↔ BeginsOne item bytes }
{}
