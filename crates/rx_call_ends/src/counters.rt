//! A look at a call by a method of a node that has no counter of steps: it makes one of its own.

ghost use Rattle.std.specs.Prelude.{◌≡◌, ◌<◌, Some, IsSome};
ghost use Rattle.rx_call.specs.Kept.{call_under};

use rx_call::{Call, Calls};
use rx_due::Steps;
use std::marker::Brand;
use std::sync::ledger::{Blank, Ledger};

/// The call of a key.
pub fn call(calls: &Calls, key: usize) -> &Call
    requires { IsSome (call_under calls.now key) }
    ensures { call_under calls.now key ≡ Some result.now }
{
    call_counted::<Brand>(calls, key, Blank::new(1))
}

fn call_counted<L: Ledger>(calls: &Calls, key: usize, blank: Blank) -> &Call
    requires there { IsSome (call_under calls.now key) }
    requires name { blank.name ≡ L.name }
    requires parts { blank.parts ≡ L.parts }
    requires counts { 0 < blank.parts }
    ensures { call_under calls.now key ≡ Some result.now }
{
    let mut steps = Steps::<L>::new(blank);
    calls.at(key, &mut steps)
}
