//! The numbers of lines.

ghost use Rattle.std.specs.Prelude.{◌≡◌, ◌≤◌, length};
ghost use Rattle.xg_lex.specs.Grammar.{line_feeds, line_after, last_line};

/// How many line feeds there are.
#[tactic(auto, using(crate::proofs::Prefix::feeds_within))]
pub fn line_feeds(bytes: &[u8]) -> usize
    ensures feeds { result ≡ line_feeds bytes.now }
    ensures within { result ≤ length bytes.now }
{
    bytes.iter().filter(|byte| **byte == b'\n').count()
}

/// The line after so many line feeds, from 1. The count stands still at its type's end.
pub fn line_after(feeds: usize) -> u32
    ensures { result ≡ line_after feeds }
{
    if feeds < u32::MAX as usize {
        feeds as u32 + 1
    } else {
        u32::MAX
    }
}

/// The number of the last line of a text with so many line feeds.
pub fn last_line(text: &[u8], feeds: usize) -> u32
    requires { feeds ≡ line_feeds text.now }
    ensures { result ≡ last_line text.now }
{
    if text.is_empty() || text[text.len() - 1] != b'\n' {
        line_after(feeds)
    } else {
        line_after(feeds - 1)
    }
}
