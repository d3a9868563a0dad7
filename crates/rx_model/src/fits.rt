//! That the numbers of an event fit its fields, which is what their types say. Nothing here does anything as it runs.
ghost use Rattle.std.specs.Prelude.{◌<◌, ◌^◌, IfOk};
ghost use Rattle.rx_model.specs.Message.{IsBytes};
ghost use Rattle.rx_model.specs.Spelling.{IsCode};
ghost use Rattle.rx_model.specs.Telling.{FitsAsked, FitsBad, FitsCallName, FitsEnd, FitsEvent, FitsHost, FitsRead};
ghost use Rattle.rx_model.specs.Telling.{FitsRefusal, FitsTook, FitsWrote, IsWord};

use crate::answers::{
    Asked, BadMsg, CallRefused, ConnFull, End, ReadAns, ReadGot, ServeRead, ServeRefused, Took,
    WroteGot,
};
use crate::event::Event;
use crate::names::{CallName, Host};

impl Event {
    /// Each number of an event fits its field. It does nothing, and is for proofs.
    pub fn fits(&self)
        ensures { FitsEvent self.now }
    {
        match self {
            Event::Linked {
                to,
                service,
                first,
                got,
            } => linked_fits(to, *service, *first, got),
            Event::Called { cid, got } => {
                word_fits(u64::from(*cid));
                name_got_fits(got);
            }
            Event::Wrote {
                call,
                offered,
                got,
                bytes,
            } => {
                name_fits(call);
                word_fits(*offered as u64);
                wrote_fits(*got);
                bytes_fit(bytes.as_slice());
            }
            Event::Shut { call, .. } => name_fits(call),
            Event::HasRead {
                call,
                max,
                got,
                bytes,
            } => {
                name_fits(call);
                word_fits(*max as u64);
                read_fits(*got);
                bytes_fit(bytes.as_slice());
            }
            Event::Ended { call, got } => {
                name_fits(call);
                asked_fits(*got);
            }
            Event::Cancelled { call, code, .. } => {
                name_fits(call);
                code_fits(*code);
            }
            Event::Accepted { got } => {
                if let Some(call) = got {
                    name_fits(call);
                }
            }
            Event::Finished { call, code, got } => {
                name_fits(call);
                code_fits(*code);
                if let Err(why) = got {
                    refusal_fits(*why);
                }
            }
            Event::Taken { from, bytes, got } => {
                host_fits(from);
                took_fits(*got);
                bytes_fit(bytes.as_slice());
            }
            Event::Polled { got } => {
                if let Some((to, bytes)) = got {
                    host_fits(to);
                    bytes_fit(bytes.as_slice());
                }
            }
            Event::Clocked { now } => word_fits(*now),
        }
    }
}

/// A number of at most 64 bits.
fn word_fits(n: u64)
    ensures { IsWord n }
{}

/// An address.
fn addr_fits(addr: u32)
    ensures { addr < 2 ^ 32 }
{}

/// A code.
fn code_fits(code: i32)
    ensures { IsCode code }
{}

/// Bytes.
fn bytes_fit(bytes: &[u8])
    ensures { IsBytes bytes.now }
{}

/// The numbers of a host.
fn host_fits(host: &Host)
    ensures { FitsHost host.now }
{
    addr_fits(host.addr);
    word_fits(u64::from(host.port));
}

/// The numbers of a name.
fn name_fits(call: &CallName)
    ensures { FitsCallName call.now }
{
    host_fits(&call.host);
    word_fits(u64::from(call.epoch));
    word_fits(u64::from(call.cid));
    word_fits(u64::from(call.chan));
    word_fits(u64::from(call.number));
}

/// The numbers of a connection's making.
fn linked_fits(to: &Host, service: u16, first: u32, got: &Result<u32, ConnFull>)
    ensures { FitsHost to.now × IsWord service × IsWord first × IfOk got.now IsWord }
{
    host_fits(to);
    word_fits(u64::from(service));
    word_fits(u64::from(first));
    if let Ok(cid) = got {
        word_fits(u64::from(*cid));
    }
}

/// The numbers of the name that a call got.
fn name_got_fits(got: &Result<CallName, CallRefused>)
    ensures { IfOk got.now FitsCallName }
{
    if let Ok(call) = got {
        name_fits(call);
    }
}

/// The number of an end.
fn end_fits(end: End)
    ensures { FitsEnd end }
{
    match end {
        End::Ok => {}
        End::Abort(code) => code_fits(code),
        End::Dead(silence) => word_fits(silence),
        End::Cancelled(code) => code_fits(code),
    }
}

/// The code of a refusal.
fn refusal_fits(why: ServeRefused)
    ensures { FitsRefusal why }
{
    match why {
        ServeRefused::NotOpen | ServeRefused::Unread => {}
        ServeRefused::Gone(code) => code_fits(code),
    }
}

/// The number of a bad message.
fn bad_fits(bad: BadMsg)
    ensures { FitsBad bad }
{
    match bad {
        BadMsg::Short(n) => word_fits(n as u64),
        BadMsg::Kind(n) => word_fits(u64::from(n)),
        BadMsg::TooLong(n) => word_fits(n as u64),
        BadMsg::Jumbo | BadMsg::AckShort | BadMsg::AbortShort => {}
    }
}

/// The number of what became of a datagram.
fn took_fits(got: Took)
    ensures { FitsTook got }
{
    if let Took::Bad(bad) = got {
        bad_fits(bad);
    }
}

/// The number of the answer of a write.
fn wrote_fits(got: WroteGot)
    ensures { FitsWrote got }
{
    match got {
        WroteGot::Client(Ok(n)) | WroteGot::Server(Ok(n)) => word_fits(n as u64),
        WroteGot::Client(Err(_)) => {}
        WroteGot::Server(Err(why)) => refusal_fits(why),
    }
}

/// The number of the answer of a read.
fn read_fits(got: ReadGot)
    ensures { FitsRead got }
{
    match got {
        ReadGot::Client(ReadAns::Gone(end)) => end_fits(end),
        ReadGot::Server(ServeRead::Gone(code)) => code_fits(code),
        _ => {}
    }
}

/// The number of what a client says of a call.
fn asked_fits(got: Asked)
    ensures { FitsAsked got }
{
    match got {
        Asked::Ended(end) => end_fits(end),
        Asked::Live | Asked::Unknown => {}
    }
}
