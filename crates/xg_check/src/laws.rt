//! Laws over the definitions that contracts cite.

ghost use Rattle.std.specs.Prelude.{ℕ, List, map, nat_eq, IsTrue};
ghost use Rattle.xdr_value.specs.Tests.{is_sound};
ghost use Rattle.xdr_value.specs.Data.{Procedure};
ghost use Rattle.std.specs.List.{IsDistinct};
ghost use Rattle.std.specs.Str.{bytes_eq};
ghost use Rattle.xdr_value.specs.Facts.{IsEndless as HoldsItself, names_of};
ghost use Rattle.xg_parse.specs.declared.tree.Tree.{Tree};
ghost use Rattle.xg_check.specs.Places.{HoldsNowhere};
ghost use Rattle.xg_check.specs.Constants.{constants_in};
ghost use Rattle.xg_check.specs.Meant.{types_meant, procs_meant};
ghost use Rattle.xg_check.specs.Meaning.{TwiceAt, EndlessAt, OpcodeAt, OpcodeTwiceAt, IsFaultless};

/// Where no name stands twice, types differ by their names.
pub fn types_differ()
    ensures { (tree : Tree) → HoldsNowhere (TwiceAt tree)
        → IsDistinct bytes_eq (names_of (types_meant (constants_in tree.items) tree.items)) }
{}

/// Where no type of a text is endless, none of its interface is.
pub fn no_type_is_endless()
    ensures { (tree : Tree) → HoldsNowhere (EndlessAt tree)
        → (s : List ℕ) → HoldsItself (types_meant (constants_in tree.items) tree.items) s → ⊥ }
{}

/// Where no name stands twice, each procedure has an opcode and no two have one, procedures differ
/// by their names and their opcodes.
pub fn procedures_differ()
    ensures names { (tree : Tree) → HoldsNowhere (TwiceAt tree)
        → IsDistinct bytes_eq (map (λ (p : Procedure). p.name) (procs_meant (constants_in tree.items) tree.items)) }
    ensures opcodes { (tree : Tree) → HoldsNowhere (OpcodeAt tree) → HoldsNowhere (OpcodeTwiceAt tree)
        → IsDistinct nat_eq (map (λ (p : Procedure). p.opcode) (procs_meant (constants_in tree.items) tree.items)) }
{}

/// The types and procedures that a text without a fault means are those of an interface.
pub fn meaning_is_sound()
    ensures { (tree : Tree) → IsFaultless tree → HoldsNowhere (OpcodeAt tree) → HoldsNowhere (OpcodeTwiceAt tree)
        → IsTrue (is_sound (types_meant (constants_in tree.items) tree.items)
        (procs_meant (constants_in tree.items) tree.items)) }
{}
