//! Laws of jumbo datagrams.

ghost use Rattle.std.specs.Prelude.{◌≡◌, ◌∷◌, [], ℕ, suc, List, map};
ghost use Rattle.std.specs.List.{range_with_len};
ghost use Rattle.rx_jumbo.specs.Parts.{SplitsAt, part_at, parts_of};

use crate::sizes::{JUMBO_BYTES, JUMBO_PARTS, LINK_BYTES, PART_BYTES};
use rx_model::wire::{DATA, HEADER_BYTES, JUMBO, PIECE_BYTES};

/// The numbers of the layout.
pub fn numbers_of_jumbo()
    ensures parts { JUMBO_PARTS ≡ 16 }
    ensures kind { DATA ≡ 1 }
    ensures flag { JUMBO ≡ 0x20 }
    ensures header { HEADER_BYTES ≡ 28 }
    ensures piece { PIECE_BYTES ≡ 1412 }
    ensures link { LINK_BYTES ≡ 4 }
    ensures part { PART_BYTES ≡ 1416 }
    ensures most { JUMBO_BYTES ≡ 22712 }
{}

/// A datagram is split where it is jumbo, each part but the last is followed and has its 1,416 bytes, there are at most
/// sixteen parts, and no seq passes its field; any other is alone.
pub fn splits_where_it_can()
    ensures split { (b : List ℕ) (last : ℕ) → SplitsAt b last →
        parts_of b ≡ map (part_at b) (range_with_len 0 (suc last)) }
    ensures alone { (b : List ℕ) → ((last : ℕ) → ¬ SplitsAt b last) → parts_of b ≡ b ∷ [] }
{}
