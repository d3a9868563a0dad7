//! Where datagrams are taken and given.
ghost use Rattle.std.specs.Prelude.{◌≡◌, ◌<◌, ◌≤◌, ◌^◌, ℕ, Option, IfOk, IfSome, IfNone, OnOk, OnErr, length};
ghost use Rattle.rx_base.specs.Sink.{HasRisen};

use rx_base::Failed;
use rx_model::Host;

/// A bind that answered: the host that was asked for, the one that was bound, and how many entries the log had then.
#[derive(Clone, Copy, Debug, PartialEq, Eq)]
pub struct LastBind {
    pub asked: Host,
    pub answered: Host,
    pub log_length: usize,
}

/// Where datagrams are taken and given, with a clock in milliseconds. A call that answers Failed has counted a fault,
/// and no other call counts one.
pub trait Wire {
    ghost use Rattle.rx_wire.specs.Wire.{Traffic, TookUntil, GaveTo, HasBound, HasLogged, came_in};

    /// The last bind and the log of takes and gives, where they are told.
    ghost told: { Self → Option Traffic };

    /// The moment, in milliseconds. A take alone moves it.
    ghost moment: { Self → ℕ };

    /// How many calls failed.
    ghost faults: { Self → ℕ };

    /// Binds the wire to a host of this machine, and answers the host that it got. Port 0 asks for any free port.
    fn bind(&mut self, at: Host) -> Result<Host, Failed>
        ensures ok { IfOk result (λ host. HasBound (told self.old) (told self.new) at host) }
        ensures same { OnOk result (faults self.new ≡ faults self.old) }
        ensures err { OnErr result (told self.new ≡ told self.old) }
        ensures counted { OnErr result (HasRisen (faults self.old) (faults self.new)) }
        ensures same_moment { moment self.new ≡ moment self.old };

    /// The moment, in milliseconds.
    fn now(&self) -> u64
        ensures value { result ≡ moment self.now }
        ensures within { result < 2 ^ 62 };

    /// Waits for a datagram, up to the moment `until`, and puts it at the front of `to`. Answers the host that it is
    /// from and how many bytes were put: of a longer one those that fit. None where none came.
    fn take(&mut self, until: u64, to: &mut [u8]) -> Result<Option<(Host, usize)>, Failed>
        requires { until < 2 ^ 62 }
        ensures ok { IfOk result (λ came. HasLogged (told self.old) (told self.new)
            (TookUntil (length to.old) until (came_in came to.new) (moment self.new))) }
        ensures same_room { length to.new ≡ length to.old }
        ensures within { IfOk result (λ came. IfSome came (λ one. one.1 ≤ length to.new)) }
        ensures reached { IfOk result (λ came. IfNone came (until ≤ moment self.new)) }
        ensures same { OnOk result (faults self.new ≡ faults self.old) }
        ensures err { OnErr result (told self.new ≡ told self.old) }
        ensures counted { OnErr result (HasRisen (faults self.old) (faults self.new)) }
        ensures no_earlier { moment self.old ≤ moment self.new };

    /// Gives a datagram to a host, whole.
    fn give(&mut self, to: Host, bytes: &[u8]) -> Result<(), Failed>
        ensures ok { OnOk result (HasLogged (told self.old) (told self.new) (GaveTo to bytes.now)) }
        ensures same { OnOk result (faults self.new ≡ faults self.old) }
        ensures err { OnErr result (told self.new ≡ told self.old) }
        ensures counted { OnErr result (HasRisen (faults self.old) (faults self.new)) }
        ensures same_moment { moment self.new ≡ moment self.old };
}
