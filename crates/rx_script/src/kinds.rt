//! Types as they are written.

ghost use Rattle.std.specs.Prelude.{◌≡◌};
ghost use Rattle.xdr_value.specs.View.{kind_of};
ghost use Rattle.rx_script.specs.Kinds.{same_kind};

use xdr_value::Ty;

/// Whether two types are written alike: a name is another type than what it stands for.
pub fn same_type(one: &Ty, other: &Ty) -> bool
    ensures { result ≡ same_kind (kind_of one.now) (kind_of other.now) }
{
    match one {
        Ty::Int => matches!(other, Ty::Int),
        Ty::Uint => matches!(other, Ty::Uint),
        Ty::Hyper => matches!(other, Ty::Hyper),
        Ty::Uhyper => matches!(other, Ty::Uhyper),
        Ty::Short => matches!(other, Ty::Short),
        Ty::Ushort => matches!(other, Ty::Ushort),
        Ty::Char => matches!(other, Ty::Char),
        Ty::Uchar => matches!(other, Ty::Uchar),
        Ty::Bool => matches!(other, Ty::Bool),
        Ty::Void => matches!(other, Ty::Void),
        Ty::Opaque(n) => match other {
            Ty::Opaque(m) => *n == *m,
            Ty::Int | Ty::Uint | Ty::Hyper | Ty::Uhyper | Ty::Short | Ty::Ushort => false,
            Ty::Char | Ty::Uchar | Ty::Bool | Ty::Void => false,
            Ty::OpaqueUpTo(_) | Ty::Text(_) => false,
            Ty::Array(_, _) | Ty::ArrayUpTo(_, _) | Ty::Maybe(_) | Ty::Named(_, _) => false,
        },
        Ty::OpaqueUpTo(n) => match other {
            Ty::OpaqueUpTo(m) => *n == *m,
            Ty::Int | Ty::Uint | Ty::Hyper | Ty::Uhyper | Ty::Short | Ty::Ushort => false,
            Ty::Char | Ty::Uchar | Ty::Bool | Ty::Void => false,
            Ty::Opaque(_) | Ty::Text(_) => false,
            Ty::Array(_, _) | Ty::ArrayUpTo(_, _) | Ty::Maybe(_) | Ty::Named(_, _) => false,
        },
        Ty::Text(n) => match other {
            Ty::Text(m) => *n == *m,
            Ty::Int | Ty::Uint | Ty::Hyper | Ty::Uhyper | Ty::Short | Ty::Ushort => false,
            Ty::Char | Ty::Uchar | Ty::Bool | Ty::Void => false,
            Ty::Opaque(_) | Ty::OpaqueUpTo(_) => false,
            Ty::Array(_, _) | Ty::ArrayUpTo(_, _) | Ty::Maybe(_) | Ty::Named(_, _) => false,
        },
        Ty::Array(of, n) => match other {
            Ty::Array(also, m) => *n == *m && same_type(of, also),
            Ty::Int | Ty::Uint | Ty::Hyper | Ty::Uhyper | Ty::Short | Ty::Ushort => false,
            Ty::Char | Ty::Uchar | Ty::Bool | Ty::Void => false,
            Ty::Opaque(_) | Ty::OpaqueUpTo(_) | Ty::Text(_) => false,
            Ty::ArrayUpTo(_, _) | Ty::Maybe(_) | Ty::Named(_, _) => false,
        },
        Ty::ArrayUpTo(of, n) => match other {
            Ty::ArrayUpTo(also, m) => *n == *m && same_type(of, also),
            Ty::Int | Ty::Uint | Ty::Hyper | Ty::Uhyper | Ty::Short | Ty::Ushort => false,
            Ty::Char | Ty::Uchar | Ty::Bool | Ty::Void => false,
            Ty::Opaque(_) | Ty::OpaqueUpTo(_) | Ty::Text(_) => false,
            Ty::Array(_, _) | Ty::Maybe(_) | Ty::Named(_, _) => false,
        },
        Ty::Maybe(of) => match other {
            Ty::Maybe(also) => same_type(of, also),
            Ty::Int | Ty::Uint | Ty::Hyper | Ty::Uhyper | Ty::Short | Ty::Ushort => false,
            Ty::Char | Ty::Uchar | Ty::Bool | Ty::Void => false,
            Ty::Opaque(_) | Ty::OpaqueUpTo(_) | Ty::Text(_) => false,
            Ty::Array(_, _) | Ty::ArrayUpTo(_, _) | Ty::Named(_, _) => false,
        },
        Ty::Named(name, _) => match other {
            Ty::Named(also, _) => name.as_str() == also.as_str(),
            Ty::Int | Ty::Uint | Ty::Hyper | Ty::Uhyper | Ty::Short | Ty::Ushort => false,
            Ty::Char | Ty::Uchar | Ty::Bool | Ty::Void => false,
            Ty::Opaque(_) | Ty::OpaqueUpTo(_) | Ty::Text(_) => false,
            Ty::Array(_, _) | Ty::ArrayUpTo(_, _) | Ty::Maybe(_) => false,
        },
    }
}
