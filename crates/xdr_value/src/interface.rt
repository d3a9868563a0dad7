//! An interface, which keeps in its type that it is sound.

ghost use Rattle.std.specs.Prelude.{◌≡◌, IsTrue};
ghost use Rattle.xdr_value.specs.View.{types_of, procs_of};
ghost use Rattle.xdr_value.specs.Tests.{is_sound};
ghost use Rattle.xdr_value.specs.Links.{all_linked};

use crate::def::{Def, Proc};
use crate::links::link_all;

/// Types that name one another, and procedures over them.
#[derive(Debug, Drop)]
pub struct Interface {
    pub package: Option<String>,
    pub prefix: Option<String>,
    pub types: Vec<Def>,
    pub procs: Vec<Proc>,
    pub ghost sound: { IsTrue (is_sound (types_of types.items) (procs_of procs.items)) },
    pub ghost linked: { IsTrue (all_linked (types_of types.items) types.items) },
}

impl Interface {
    /// An interface of these types and procedures, of which `sound` says yes. The types are given their
    /// links. It takes no memory.
    pub fn make(
        package: Option<String>,
        prefix: Option<String>,
        types: Vec<Def>,
        procs: Vec<Proc>,
    ) -> Interface
        requires { IsTrue (is_sound (types_of types.items) (procs_of procs.items)) }
        ensures types { types_of result.types.items ≡ types_of types.items }
        ensures procs { result.procs ≡ procs }
        ensures package { result.«package» ≡ «package» }
        ensures prefix { result.prefix ≡ prefix }
    {
        let mut types = types;
        link_all(types.as_mut_slice());
        Interface {
            package,
            prefix,
            types,
            procs,
        }
    }
}
