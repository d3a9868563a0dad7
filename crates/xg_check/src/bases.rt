//! The types of the language that have no definition.

ghost use Rattle.std.specs.Prelude.{◌≡◌};
ghost use Rattle.xg_check.specs.Bases.{base_named};

use xdr_value::Basic;

/// The type of these words: RFC 4506, sections 4.1, 4.2, 4.4 and 4.5, and rxgen's names for them.
#[tactic(auto, unfolding(crate::specs::Bases::base_named))]
pub fn base(words: &str) -> Option<Basic>
    ensures { result ≡ base_named words.now }
{
    match words {
        "int" | "long" | "afs_int32" => Some(Basic::Int),
        "unsigned" | "unsigned int" | "unsigned long" => Some(Basic::Uint),
        "u_int" | "u_long" | "afs_uint32" => Some(Basic::Uint),
        "hyper" | "afs_int64" => Some(Basic::Hyper),
        "unsigned hyper" | "afs_uint64" => Some(Basic::Uhyper),
        "short" => Some(Basic::Short),
        "unsigned short" | "u_short" => Some(Basic::Ushort),
        "char" => Some(Basic::Char),
        "unsigned char" | "u_char" => Some(Basic::Uchar),
        "bool" => Some(Basic::Bool),
        _ => None,
    }
}
