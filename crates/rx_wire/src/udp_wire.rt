//! A wire over a UDP socket of the system.
//! No clause can say what a socket carries or what the clock reads, since neither tells a contract of it: tests over
//! loopback, with a clock of their own, look at both.
ghost use Rattle.std.specs.Prelude.{◌≡◌, ◌≢◌, ◌⊎◌, ◌+◌, ◌-◌, ◌/◌, ◌<◌, ◌≤◌, ◌^◌, ◌||◌, length, min};
ghost use Rattle.std.specs.Prelude.{IfOk, IfSome, IfNone, OnOk, OnErr, IsTrue, is_some, true, false};
ghost use Rattle.std.specs.Net.Addr.{IsIpv4OfBits, ipv4_bits};
ghost use Rattle.std.specs.Net.Socket.{v4_ip, v4_port};
ghost use Rattle.std.specs.Time.{instant_nanos};
ghost use Rattle.rx_base.specs.Count.{one_more};
ghost use Rattle.rx_base.specs.Sink.{HasRisen};
ghost use Rattle.rx_wire.specs.Wire.{HasBound, HasLogged, GaveTo, TookUntil, came_in};
ghost use Rattle.rx_wire.specs.UdpWire.{IsAnswerable, IsGotWithin, UdpWireState, timeout_for, untold};

use crate::refusal::Refusal;
use crate::wire::Wire;
use rx_base::Failed;
use rx_model::Host;
use std::io;
use std::io::ErrorKind;
use std::marker::Model;
use std::net::{Ipv4Addr, Net, SocketAddr, SocketAddrV4, UdpSocket};
use std::time::{Clock, Duration, Instant};

/// The steps in which the socket's read timeout is set, in milliseconds. The system rounds a timeout up in any case, to
/// its own ticks of 1 to 10 ms and a long one by up to an eighth, and with steps it rarely has to be set anew.
pub const WAIT_STEP_MS: u64 = 4;

/// The last moment, in milliseconds.
const LAST_MOMENT: u64 = (1 << 62) - 1;

/// What a wait of the socket came to.
#[derive(Clone, Copy, Debug)]
pub enum Got {
    /// So many bytes from a host.
    Came(Host, usize),
    /// The wait is over, and nothing came.
    Late,
    /// It ended early, and nothing came that is to be taken.
    Again,
}

/// What became of a datagram that was handed to the system.
#[derive(Clone, Copy, Debug, PartialEq, Eq)]
enum Sent {
    /// The system took it whole.
    Given,
    /// It is lost, as a network loses.
    Lost,
    /// No way leads to its host.
    NoRoute,
    /// A signal came first.
    Again,
    /// The socket fails.
    Fault,
}

/// A wire over a UDP socket, on which hosts are IPv4 addresses with ports. Its moment is in milliseconds since it was
/// made, and it tells nothing of what it carries. Before a bind that answers, takes and gives fail.
///
/// A datagram that the system doesn't take, for its destination or for the moment, is lost as the network loses: `give`
/// answers Ok. Where no way leads to its host it fails as long as nothing has gone through the socket.
#[derive(Debug, Drop)]
pub struct UdpWire<'a, R: Net + Clock> {
    rt: &'a R,
    made: Option<Instant>,
    socket: Option<UdpSocket>,
    // Whether the system took a datagram, or one came.
    has_passed: bool,
    timeout_ms: u64,
    moment: u64,
    faults: u64,
}

impl<'a, R: Net + Clock> Model for UdpWire<'a, R> {
    ghost Value = { UdpWireState };

    ghost view = { λ s. record {
      is_bound = is_some s.socket;
      moment = s.moment;
      faults = s.faults;
      timeout = s.timeout_ms;
      passed = s.has_passed;
    } };

    ghost invariant = { λ s. s.moment < 2 ^ 62 };
}

impl<'a, R: Net + Clock> UdpWire<'a, R> {
    /// A wire over the runtime's network and clock, at moment 0 and with no socket yet. Where the clock can't be read,
    /// takes fail.
    pub fn make(rt: &'a R) -> UdpWire<'a, R>
        ensures empty { result
            ≡ record { is_bound = false; moment = 0; faults = 0; timeout = 0; passed = false } }
    {
        UdpWire {
            rt,
            made: Instant::now(rt).ok(),
            socket: None,
            has_passed: false,
            timeout_ms: 0,
            moment: 0,
            faults: 0,
        }
    }

    // Counts a fault.
    fn fault(&mut self) -> Failed
        ensures { self.new ≡ record self.old { faults = one_more self.old.faults } }
    {
        self.faults = self.faults.saturating_add(1);
        Failed
    }

    // Moves the moment to what the clock reads, unless it is past that.
    fn read_clock(&mut self) -> io::Result<()>
        ensures same { self.new ≡ record self.old { moment = self.new.moment } }
        ensures no_earlier { self.old.moment ≤ self.new.moment }
    {
        let Some(made) = self.made else {
            return Err(io::Error::from(ErrorKind::Unsupported));
        };
        let now = Instant::now(self.rt)?;
        self.moment = self.moment.max(reading(made, now));
        Ok(())
    }

    // Has the next read wait up to this moment.
    fn wait_until(&mut self, until: u64) -> io::Result<()>
        requires { until < 2 ^ 62 }
        ensures same { self.new ≡ record self.old { timeout = self.new.timeout } }
        ensures set { OnOk result (self.new.timeout ≡ timeout_for self.old.moment until) }
    {
        let Some(socket) = &self.socket else {
            return Err(io::Error::from(ErrorKind::NotConnected));
        };
        let timeout_ms = wait_ms(self.moment, until);
        if timeout_ms != self.timeout_ms {
            socket.set_read_timeout(Some(Duration::from_millis(timeout_ms)))?;
            self.timeout_ms = timeout_ms;
        }
        Ok(())
    }

    // What the socket receives.
    fn receive(&self, to: &mut [u8]) -> io::Result<Got>
        ensures within { IfOk result (IsGotWithin (length to.new)) }
        ensures answerable { IfOk result IsAnswerable }
    {
        let Some(socket) = &self.socket else {
            return Err(io::Error::from(ErrorKind::NotConnected));
        };
        match socket.recv_from(to) {
            Ok((count, SocketAddr::V4(from))) => Ok(got_from(host_of(&from), count)),
            Ok((_, SocketAddr::V6(_))) => Ok(Got::Again),
            Err(error) => got_of(error),
        }
    }

    // One wait up to this moment, with the clock read before it and behind it.
    fn wait_once(&mut self, until: u64, to: &mut [u8]) -> io::Result<Got>
        requires { until < 2 ^ 62 }
        ensures same_bound { self.new.is_bound ≡ self.old.is_bound }
        ensures same_faults { self.new.faults ≡ self.old.faults }
        ensures same_passed { self.new.passed ≡ self.old.passed }
        ensures no_earlier { self.old.moment ≤ self.new.moment }
        ensures within { IfOk result (IsGotWithin (length to.new)) }
        ensures answerable { IfOk result IsAnswerable }
        ensures enough { OnOk result (until < self.new.moment + self.new.timeout) }
        ensures no_longer { OnOk result (self.new.timeout ≤ (until - self.old.moment) + 4) }
    {
        self.read_clock()?;
        self.wait_until(until)?;
        let got = self.receive(to)?;
        self.read_clock()?;
        Ok(got)
    }

    // Waits up to this moment, anew behind each wait that ended early. How often it does is in no clause: a take may
    // fail at any wait, for what the system answers, and no clause can tell an error of the system from one that is
    // made here. Nor is there a bound on the waits: anybody may send datagrams that are passed over. So a test has it,
    // which takes behind a hundred of these.
    fn take_until(&mut self, until: u64, to: &mut [u8]) -> io::Result<Option<(Host, usize)>>
        requires { until < 2 ^ 62 }
        ensures same_bound { self.new.is_bound ≡ self.old.is_bound }
        ensures same_faults { self.new.faults ≡ self.old.faults }
        ensures same_passed { self.new.passed ≡ self.old.passed }
        ensures no_earlier { self.old.moment ≤ self.new.moment }
        ensures within { IfOk result (λ came. IfSome came (λ one. one.1 ≤ length to.new)) }
        ensures answerable { IfOk result (λ came. IfSome came (λ one. one.0.port ≢ 0)) }
        ensures reached { IfOk result (λ came. IfNone came (until ≤ self.new.moment)) }
        ensures enough { OnOk result (until < self.new.moment + self.new.timeout) }
        ensures no_longer { OnOk result (self.new.timeout ≤ (until - self.old.moment) + 4) }
    {
        'waits: for _ in 0..u64::MAX {
            match self.wait_once(until, to)? {
                Got::Came(from, count) => return Ok(Some((from, count))),
                Got::Late => {
                    self.moment = self.moment.max(until);
                    return Ok(None);
                }
                Got::Again if self.moment >= until => return Ok(None),
                Got::Again => {}
            }
        }
        // This can't come: no clock and no machine lasts for 2^64 - 1 calls of the system.
        Err(io::Error::from(ErrorKind::TimedOut))
    }
}

// How long to wait from a moment for another, in whole steps. No timeout may be 0.
fn wait_ms(moment: u64, until: u64) -> u64
    requires { until < 2 ^ 62 }
    ensures exact { result ≡ timeout_for moment until }
    ensures enough { until < moment + result }
    ensures within { result ≤ (until - moment) + 4 }
{
    (until.saturating_sub(moment) / WAIT_STEP_MS + 1) * WAIT_STEP_MS
}

// What a clock that reads this now has counted since it read that, in milliseconds.
fn reading(made: Instant, now: Instant) -> u64
    ensures { result ≡ min ((instant_nanos now - instant_nanos made) / 1_000_000) (2 ^ 62 - 1) }
{
    let elapsed = now.duration_since(made);
    u64::try_from(elapsed.as_millis())
        .unwrap_or(LAST_MOMENT)
        .min(LAST_MOMENT)
}

fn v4_of(host: Host) -> SocketAddrV4
    ensures ip { IsIpv4OfBits (v4_ip result) host.addr }
    ensures port { v4_port result ≡ host.port }
{
    SocketAddrV4::new(Ipv4Addr::from_bits(host.addr), host.port)
}

fn host_of(address: &SocketAddrV4) -> Host
    ensures addr { result.addr ≡ ipv4_bits (v4_ip address.now) }
    ensures port { result.port ≡ v4_port address.now }
{
    Host {
        addr: address.ip().to_bits(),
        port: address.port(),
    }
}

// A socket that is bound to this host, and the host that it got.
fn open<R: Net>(rt: &R, at: Host) -> io::Result<(UdpSocket, Host)>
    ensures addr { IfOk result (λ got. got.1.addr ≡ at.addr) }
    ensures port { IfOk result (λ got. (at.port ≡ 0) ⊎ (got.1.port ≡ at.port)) }
    ensures some_port { IfOk result (λ got. got.1.port ≢ 0) }
{
    let socket = UdpSocket::bind(rt, v4_of(at))?;
    if let SocketAddr::V4(bound) = socket.local_addr()? {
        let got = host_of(&bound);
        if got.addr == at.addr && got.port != 0 && (at.port == 0 || got.port == at.port) {
            return Ok((socket, got));
        }
    }
    // The system binds to what is asked for, or not at all.
    Err(io::Error::from(ErrorKind::InvalidData))
}

// What a datagram from a host with so many bytes is: nothing can be given back to port 0.
fn got_from(from: Host, count: usize) -> Got
    ensures within { IsGotWithin count result }
    ensures answerable { IsAnswerable result }
{
    if from.port == 0 {
        return Got::Again;
    }
    Got::Came(from, count)
}

// What an error of a receive came to: of an earlier datagram, or of a wait that a signal ended, it says nothing of what
// is to come.
fn got_of(error: io::Error) -> io::Result<Got>
    ensures within { IfOk result (IsGotWithin 0) }
    ensures answerable { IfOk result IsAnswerable }
{
    match Refusal::of(&error) {
        Refusal::NotNow => Ok(Got::Late),
        Refusal::Interrupted | Refusal::NoRoute | Refusal::NotTaken => Ok(Got::Again),
        Refusal::NotFromHere | Refusal::Forbidden | Refusal::Socket => Err(error),
    }
}

// Hands a datagram to the system, again where a signal came first. To port 0 none can go.
fn send(socket: &UdpSocket, to: Host, bytes: &[u8]) -> Sent
    ensures { to.port ≡ 0 → result ≡ Sent.Lost }
{
    if to.port == 0 {
        return Sent::Lost;
    }
    for _ in 0..u64::MAX {
        match send_once(socket, to, bytes) {
            Sent::Again => {}
            sent => return sent,
        }
    }
    // This can't come, and the datagram wasn't sent.
    Sent::Lost
}

// One send. What it and an error of it come to is in no clause, as the system's answers are in none: the tests
// `what_the_system_refuses_is_lost` and `each_error_has_its_meaning` look at it.
fn send_once(socket: &UdpSocket, to: Host, bytes: &[u8]) -> Sent {
    match socket.send_to(bytes, v4_of(to)) {
        Ok(count) if count == bytes.len() => Sent::Given,
        // The system cuts no datagram.
        Ok(_) => Sent::Fault,
        Err(error) => sent_of(Refusal::of(&error)),
    }
}

fn sent_of(refusal: Refusal) -> Sent {
    match refusal {
        Refusal::Interrupted => Sent::Again,
        Refusal::NotNow | Refusal::Forbidden | Refusal::NotTaken => Sent::Lost,
        Refusal::NoRoute | Refusal::NotFromHere => Sent::NoRoute,
        Refusal::Socket => Sent::Fault,
    }
}

impl<'a, R: Net + Clock> Wire for UdpWire<'a, R> {
    ghost told = { λ _. untold };

    ghost moment = { λ w. w.moment };

    ghost faults = { λ w. w.faults };

    fn bind(&mut self, at: Host) -> Result<Host, Failed>
        // The trait's clauses, where nothing is told.
        ensures ok { IfOk result (λ host. HasBound untold untold at host) }
        ensures same { OnOk result (self.new.faults ≡ self.old.faults) }
        ensures err { OnErr result (untold ≡ untold) }
        ensures counted { OnErr result (HasRisen self.old.faults self.new.faults) }
        ensures same_moment { self.new.moment ≡ self.old.moment }

        // What this wire adds to the trait's clauses.
        ensures addr { IfOk result (λ host. host.addr ≡ at.addr) }
        ensures port { IfOk result (λ host. (at.port ≡ 0) ⊎ (host.port ≡ at.port)) }
        ensures some_port { IfOk result (λ host. host.port ≢ 0) }
        ensures bound { OnOk result
            (self.new ≡ record self.old { is_bound = true; timeout = 0; passed = false }) }
        ensures failed { OnErr result (self.new ≡ record self.old { faults = one_more self.old.faults }) }
    {
        match open(self.rt, at) {
            Ok((socket, host)) => {
                self.socket = Some(socket);
                self.has_passed = false;
                self.timeout_ms = 0;
                Ok(host)
            }
            Err(_) => Err(self.fault()),
        }
    }

    fn now(&self) -> u64 {
        self.moment
    }

    /// The buffer may be changed behind what came, and where nothing came.
    fn take(&mut self, until: u64, to: &mut [u8]) -> Result<Option<(Host, usize)>, Failed>
        requires { until < 2 ^ 62 }
        // The trait's clauses, where nothing is told.
        ensures ok { IfOk result (λ came. HasLogged untold untold
            (TookUntil (length to.old) until (came_in came to.new) self.new.moment)) }
        ensures same_room { length to.new ≡ length to.old }
        ensures within { IfOk result (λ came. IfSome came (λ one. one.1 ≤ length to.new)) }
        ensures reached { IfOk result (λ came. IfNone came (until ≤ self.new.moment)) }
        ensures same { OnOk result (self.new.faults ≡ self.old.faults) }
        ensures err { OnErr result (untold ≡ untold) }
        ensures counted { OnErr result (HasRisen self.old.faults self.new.faults) }
        ensures no_earlier { self.old.moment ≤ self.new.moment }

        // What this wire adds to the trait's clauses: what comes can be answered; and the socket's reads wait past
        // `until`, by the clock's reading, and at most 4 ms longer than up to it.
        ensures answerable { IfOk result (λ came. IfSome came (λ one. one.0.port ≢ 0)) }
        ensures enough { OnOk result (until < self.new.moment + self.new.timeout) }
        ensures no_longer { OnOk result (self.new.timeout ≤ (until - self.old.moment) + 4) }
        ensures bound { OnOk result (IsTrue self.old.is_bound) }
        ensures same_bound { self.new.is_bound ≡ self.old.is_bound }
        ensures passed { IfOk result (λ came. self.new.passed ≡ (self.old.passed || is_some came)) }
        ensures same_passed { OnErr result (self.new.passed ≡ self.old.passed) }
        ensures failed { OnErr result (self.new.faults ≡ one_more self.old.faults) }
    {
        if self.socket.is_none() {
            return Err(self.fault());
        }
        match self.take_until(until, to) {
            Ok(came) => {
                self.has_passed |= came.is_some();
                Ok(came)
            }
            Err(_) => Err(self.fault()),
        }
    }

    fn give(&mut self, to: Host, bytes: &[u8]) -> Result<(), Failed>
        // The trait's clauses, where nothing is told.
        ensures ok { OnOk result (HasLogged untold untold (GaveTo to bytes.now)) }
        ensures same { OnOk result (self.new.faults ≡ self.old.faults) }
        ensures err { OnErr result (untold ≡ untold) }
        ensures counted { OnErr result (HasRisen self.old.faults self.new.faults) }
        ensures same_moment { self.new.moment ≡ self.old.moment }

        // What this wire adds to the trait's clauses. Which gives fail for another port no clause can say, since none
        // has the system's answers: tests look at it.
        ensures bound { OnOk result (IsTrue self.old.is_bound) }
        ensures given { OnOk result (self.new ≡ record self.old { passed = self.new.passed }) }
        ensures passed { OnOk result (self.old.passed ≡ true → self.new.passed ≡ true) }
        ensures no_port { OnErr result (IsTrue self.old.is_bound → to.port ≢ 0) }
        ensures failed { OnErr result (self.new ≡ record self.old { faults = one_more self.old.faults }) }
    {
        let Some(socket) = &self.socket else {
            return Err(self.fault());
        };
        match send(socket, to, bytes) {
            Sent::Given => {
                self.has_passed = true;
                Ok(())
            }
            Sent::NoRoute if !self.has_passed => Err(self.fault()),
            Sent::Lost | Sent::NoRoute => Ok(()),
            Sent::Again | Sent::Fault => Err(self.fault()),
        }
    }
}

#[cfg(test)]
mod tests;
