//! The line of a reply, put part by part.

ghost use Rattle.std.specs.Prelude.{◌≤◌, ◌*◌, ◌++◌, codes, length, option_copied};
ghost use Rattle.hex.specs.Hex.{encode_lower};
ghost use Rattle.rx_model.specs.Text.{hex_text};
ghost use Rattle.rx_wire_loop.specs.Tells.{sink_tells};
ghost use Rattle.rx_reply.specs.Replies.{down_text, printed_line, printed_of};
ghost use Rattle.rx_top.specs.Puts.{PutsText};

use rx_base::{Failed, Sink};
use rx_reply::ReplyParts;

/// How many bytes of hex are put at once.
const HEX_ROOM: usize = 32_768;

/// Puts the line of a reply. It takes no memory: the hex of a download goes through a room on the stack.
pub fn put_ok_line<O: Sink>(parts: &ReplyParts<'_>, out: &mut O) -> Result<(), Failed>
    ensures { PutsText result (codes "ok " ++ printed_line (printed_of parts.now) ++ codes "\n")
        (sink_tells (O.told out.old) (O.faults out.old)) (sink_tells (O.told out.new) (O.faults out.new)) }
{
    out.put(b"ok ")?;
    out.put(parts.values.as_bytes())?;
    put_download(parts.download, out)?;
    out.put(b"\n")
}

/// Puts ` down HEX`, where there is a download.
fn put_download<O: Sink>(download: Option<&[u8]>, out: &mut O) -> Result<(), Failed>
    ensures { PutsText result (down_text (option_copied download.entry))
        (sink_tells (O.told out.old) (O.faults out.old)) (sink_tells (O.told out.new) (O.faults out.new)) }
{
    match download {
        None => Ok(()),
        Some(bytes) => {
            out.put(b" down ")?;
            put_hex_text(bytes, out)
        }
    }
}

/// Puts lower case hex, `-` for no bytes.
fn put_hex_text<O: Sink>(bytes: &[u8], out: &mut O) -> Result<(), Failed>
    ensures { PutsText result (hex_text bytes.now)
        (sink_tells (O.told out.old) (O.faults out.old)) (sink_tells (O.told out.new) (O.faults out.new)) }
{
    if bytes.is_empty() {
        return out.put(b"-");
    }
    put_hex(bytes, out)
}

/// Puts lower case hex, so many bytes at once.
fn put_hex<O: Sink>(bytes: &[u8], out: &mut O) -> Result<(), Failed>
    ensures { PutsText result (encode_lower bytes.now)
        (sink_tells (O.told out.old) (O.faults out.old)) (sink_tells (O.told out.new) (O.faults out.new)) }
{
    let mut room = [0; HEX_ROOM];
    for piece in bytes.chunks(HEX_ROOM / 2) {
        put_piece(piece, &mut room, out)?;
    }
    Ok(())
}

/// Puts the hex of one piece, by a room for it.
fn put_piece<O: Sink>(piece: &[u8], room: &mut [u8], out: &mut O) -> Result<(), Failed>
    requires { 2 * length piece.now ≤ length room.old }
    ensures { PutsText result (encode_lower piece.now)
        (sink_tells (O.told out.old) (O.faults out.old)) (sink_tells (O.told out.new) (O.faults out.new)) }
{
    let text = &mut room[..2 * piece.len()];
    match hex::encode_to_slice(piece, text) {
        Ok(()) => out.put(text),
        Err(_) => unreachable!(),
    }
}
