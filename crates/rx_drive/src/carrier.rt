//! What becomes of the datagrams that a node gives.
ghost use Rattle.std.specs.Prelude.{◌≡◌};
ghost use Rattle.rx_drive.specs.Carried.{Carries};
ghost use Rattle.rx_drive.specs.Ran.{stop_of};

use crate::outside::Outside;
use crate::stop::Stop;
use rx_model::Host;

/// What becomes of the datagrams that a node gives: they are kept, or go to a wire.
pub trait Carrier<X: Outside> {
    ghost use Rattle.std.specs.Prelude.{◌++◌, ◌∷◌, [], List, ℕ};
    ghost use Rattle.rx_drive.specs.Carried.{Given};
    ghost use Rattle.rx_drive.specs.Ran.{Fault};
    ghost use Rattle.rx_wire.specs.Wire.{Logged};

    /// From one state to another it carried these datagrams, with these entries in the log.
    ghost carried: { Self → Self → List Given → List Logged → Type 0 };

    /// It may have carried some of these, with these entries in the log.
    ghost some: { Self → List Given → List Logged → Type 0 };

    /// It failed at these, for this reason, with these entries in the log.
    ghost lost: { Fault → Self → List Given → List Logged → Type 0 };

    /// Which datagrams it can carry.
    ghost can: { Given → Type 0 };

    /// By which references it is reached.
    ghost names: { Self → List ℕ };

    /// Carries a datagram.
    fn carry(&mut self, to: Host, bytes: &[u8], outside: &mut X) -> Result<(), Stop>
        requires { can (to, bytes.now) }
        ensures carries { Carries (record { carried = carried; some = some; lost = lost }) self.old self.new
            (to, bytes.now) (X.told outside.old) (X.told outside.new) (stop_of result) }
        ensures names { names self.new ≡ names self.old }
        ensures ways { X.ways outside.new ≡ X.ways outside.old };

    // Nothing is carried so.
    ghost none: { (k : Self) → carried k k [] [] };

    // What is carried behind what was carried is carried of both.
    ghost both: { (a b c : Self) (xs ys : List Given) (ls ms : List Logged) → carried a b xs ls
        → carried b c ys ms → carried a c (xs ++ ys) (ls ++ ms) };

    // Of what was carried some was.
    ghost less: { (a b : Self) (xs : List Given) (ls : List Logged) → carried a b xs ls → some a xs ls };

    // So it was of that and one more, which was still to be carried.
    ghost less_one: { (a b : Self) (xs : List Given) (d : Given) (ls : List Logged) → carried a b xs ls
        → some a (xs ++ d ∷ []) ls };

    // It failed at both, where it failed behind what was carried.
    ghost lost_behind: { (why : Fault) (a b : Self) (xs ys : List Given) (ls ms : List Logged) → carried a b xs ls
        → lost why b ys ms → lost why a (xs ++ ys) (ls ++ ms) };
}
