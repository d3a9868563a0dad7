//! That the numbers of an event fit its fields, which is what their types say. Nothing here does anything as it runs.
ghost use Rattle.std.specs.Prelude.{◌<◌, ◌^◌, Some};
ghost use Rattle.rx_drive.specs.Tells.{FitsNoted};
ghost use Rattle.rx_model.specs.Message.{IsBytes};
ghost use Rattle.rx_model.specs.Telling.{FitsBad, FitsHost, FitsTook, IsWord};
ghost use Rattle.rx_model.specs.declared.event.Event.TheVariants as events;
ghost use Rattle.rx_wire.specs.Turns.{noted};

use rx_model::{BadMsg, Event, Host, Took};

/// Those of an event of a node.
pub fn event_fits(node: u32, event: &Event)
    ensures { FitsNoted (noted node event.now) }
{
    word_fits(u64::from(node));
    event.fits();
}

/// Those of a poll that gave these bytes for a host.
pub fn polled_fits(node: u32, to: Host, bytes: &[u8])
    ensures { FitsNoted (noted node (events.Polled (Some (to, bytes.now)))) }
{
    word_fits(u64::from(node));
    host_fits(to);
    bytes_fit(bytes);
}

/// Those of these bytes from a host, which were taken and judged so.
pub fn taken_fits(node: u32, from: Host, bytes: &[u8], got: Took)
    ensures { FitsNoted (noted node (events.Taken from bytes.now got)) }
{
    word_fits(u64::from(node));
    host_fits(from);
    bytes_fit(bytes);
    took_fits(got);
}

/// A number of at most 64 bits.
fn word_fits(n: u64)
    ensures { IsWord n }
{}

/// An address.
fn addr_fits(n: u32)
    ensures { n < 2 ^ 32 }
{}

/// Bytes.
fn bytes_fit(bytes: &[u8])
    ensures { IsBytes bytes.now }
{}

/// The numbers of a host.
fn host_fits(host: Host)
    ensures { FitsHost host }
{
    addr_fits(host.addr);
    word_fits(u64::from(host.port));
}

/// The number of what became of a datagram.
fn took_fits(got: Took)
    ensures { FitsTook got }
{
    if let Took::Bad(bad) = got {
        bad_fits(bad);
    }
}

/// The number of a bad message.
fn bad_fits(bad: BadMsg)
    ensures { FitsBad bad }
{
    match bad {
        BadMsg::Short(n) => word_fits(n as u64),
        BadMsg::Kind(n) => word_fits(u64::from(n)),
        BadMsg::TooLong(n) => word_fits(n as u64),
        BadMsg::Jumbo | BadMsg::AckShort | BadMsg::AbortShort => {}
    }
}
