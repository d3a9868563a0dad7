//! Procedures by their names.

ghost use Rattle.std.specs.Prelude.{◌≡◌, IfSome, option_map};
ghost use Rattle.std.specs.List.{Contains};
ghost use Rattle.xdr_value.specs.View.{procs_of, proc_of};
ghost use Rattle.rx_script.specs.Procs.{proc_named};

use xdr_value::Proc;

/// The first procedure of the name.
pub fn proc_named<'a>(procs: &'a [Proc], name: &str) -> Option<&'a Proc>
    ensures found { option_map (λ p. proc_of p.now) result ≡ proc_named name.now (procs_of procs.now) }
    ensures one { IfSome result (λ p. Contains (procs_of procs.now) (proc_of p.now)) }
{
    for p in procs {
        if p.name.as_str() == name {
            return Some(p);
        }
    }
    None
}
