//! Replies as text.

ghost use Rattle.std.specs.Prelude.{◌≡◌, ◌++◌, IfOk, codes, option_copied, option_map};
ghost use Rattle.std.specs.String.{string_bytes};
ghost use Rattle.std.specs.List.{Contains};
ghost use Rattle.rx_model.specs.Text.{hex_text};
ghost use Rattle.xdr_value.specs.View.{types_of, procs_of, proc_of};
ghost use Rattle.rx_reply.specs.Replies.{download_asked, down_text, printed_of, reply_line, reply_printed};
ghost use Rattle.rx_reply.specs.Replies.{reply_says, says_behind};

use crate::counted::download_front;
use crate::values::array_text;
use std::alloc::{AllocError, Global};
use stub_table::{StubFault, read_reply};
use xdr_value::{Interface, Proc};

/// What is printed of a whole reply, in its parts.
#[derive(Debug, Drop)]
pub struct ReplyParts<'a> {
    /// The INOUT and OUT values as one JSON array without spaces.
    pub values: String,
    /// The download, where it was asked for: the bytes in the reply itself, which are printed as
    /// ` down HEX` behind the values.
    pub download: Option<&'a [u8]>,
}

// The download, where it is asked for.
fn download_asked<'a>(down: bool, download: &'a [u8]) -> Option<&'a [u8]>
    ensures { option_copied result ≡ download_asked down download.now }
{
    if down { Some(download) } else { None }
}

// What is printed of a reply with this download, by the bytes behind it.
fn parts_behind<'a>(
    alloc: Global,
    iface: &Interface,
    p: &Proc,
    down: bool,
    download: &'a [u8],
    rest: &[u8],
) -> Result<Option<ReplyParts<'a>>, AllocError>
    requires { Contains (procs_of iface.now.procs.items) (proc_of p.now) }
    ensures { IfOk result (λ o. option_map printed_of o
        ≡ option_map (reply_printed (types_of iface.now.types.items) (proc_of p.now) down)
        (says_behind (types_of iface.now.types.items) (proc_of p.now) (download.now, rest.now))) }
{
    match read_reply(alloc, iface, p, rest) {
        Err(StubFault::OutOfMemory) => Err(AllocError),
        Err(StubFault::Code(_)) => Ok(None),
        Ok(values) => {
            let values = array_text(alloc, iface, &p.args, &values)?;
            let download = download_asked(down, download);
            Ok(Some(ReplyParts { values, download }))
        }
    }
}

/// What a whole reply says, as it is printed, in its parts: the text of its values, and where `down` is
/// asked for its download, which isn't copied. The reply then begins with the download, a counted stream.
/// None where the download is cut short or longer than `MAX_COUNTED_BYTES`, or what stands behind it
/// isn't such values; bytes behind the values are ignored.
pub fn reply_parts<'a>(
    alloc: Global,
    iface: &Interface,
    p: &Proc,
    down: bool,
    reply: &'a [u8],
) -> Result<Option<ReplyParts<'a>>, AllocError>
    requires { Contains (procs_of iface.now.procs.items) (proc_of p.now) }
    ensures exact { IfOk result (λ o. option_map printed_of o
        ≡ option_map (reply_printed (types_of iface.now.types.items) (proc_of p.now) down)
        (reply_says (types_of iface.now.types.items) (proc_of p.now) down reply.now)) }
{
    match download_front(down, reply) {
        None => Ok(None),
        Some((download, rest)) => parts_behind(alloc, iface, p, down, download, rest),
    }
}

// Lower case hex, `-` for no bytes.
fn hex_text(alloc: Global, bytes: &[u8]) -> Result<String, AllocError>
    ensures { IfOk result (λ s. string_bytes s ≡ hex_text bytes.now) }
{
    if bytes.is_empty() {
        return String::from_str(alloc, "-");
    }
    hex::encode(alloc, bytes)
}

// A text with the download behind it, where there is one.
fn with_download(
    alloc: Global,
    mut text: String,
    download: Option<&[u8]>,
) -> Result<String, AllocError>
    ensures { IfOk result (λ s. string_bytes s ≡ string_bytes text ++ down_text (option_copied download.entry)) }
{
    if let Some(download) = download {
        let hex = hex_text(alloc, download)?;
        text.push_str(" down ")?;
        text.push_str(hex.as_str())?;
    }
    Ok(text)
}

/// What a whole reply says, as it is printed in one line: the text of its values, and where `down` is
/// asked for ` down HEX` behind it. None exactly where `reply_parts` gives none.
pub fn reply_text(
    alloc: Global,
    iface: &Interface,
    p: &Proc,
    down: bool,
    reply: &[u8],
) -> Result<Option<String>, AllocError>
    requires { Contains (procs_of iface.now.procs.items) (proc_of p.now) }
    ensures exact { IfOk result (λ o. option_map (λ s. string_bytes s) o
        ≡ option_map (reply_line (types_of iface.now.types.items) (proc_of p.now) down)
        (reply_says (types_of iface.now.types.items) (proc_of p.now) down reply.now)) }
{
    match reply_parts(alloc, iface, p, down, reply) {
        Err(AllocError) => Err(AllocError),
        Ok(None) => Ok(None),
        Ok(Some(parts)) => Ok(Some(with_download(alloc, parts.values, parts.download)?)),
    }
}
