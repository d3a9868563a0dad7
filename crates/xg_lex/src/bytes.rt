//! The bytes of a file by their kinds, and how far a run of one kind goes.

ghost use Rattle.std.specs.Prelude.{◌≡◌, ◌≤◌, length};
ghost use Rattle.std.specs.List.{prefix_len};
ghost use Rattle.std.specs.Char.{is_ascii_digit};
ghost use Rattle.xg_lex.specs.Bytes.{is_space, is_blank, is_in_line, begins_name, is_in_name, is_in_number, is_sign};

/// Whether a byte is a space, a tab or a line end.
pub fn is_blank(byte: u8) -> bool
    ensures { result ≡ is_blank byte }
{
    byte == b' ' || byte == b'\t' || byte == b'\n'
}

fn is_in_line(byte: u8) -> bool
    ensures { result ≡ is_in_line byte }
{
    byte != b'\n'
}

/// Whether a name may begin with a byte: a letter or `_`.
pub fn begins_name(byte: u8) -> bool
    ensures { result ≡ begins_name byte }
{
    byte.is_ascii_alphabetic() || byte == b'_'
}

fn is_in_name(byte: u8) -> bool
    ensures { result ≡ is_in_name byte }
{
    byte.is_ascii_alphanumeric() || byte == b'_'
}

/// Whether a byte is a sign, which is a token of its own.
pub fn is_sign(byte: u8) -> bool
    ensures { result ≡ is_sign byte }
{
    match byte {
        b'{' | b'}' | b'(' | b')' | b'[' | b']' | b'<' | b'>' => true,
        b';' | b',' | b':' | b'=' | b'*' | b'-' => true,
        _ => false,
    }
}

/// How many bytes stand before the end of the line.
#[tactic(auto, using(crate::proofs::Prefix::prefix_within))]
pub fn line_len(bytes: &[u8]) -> usize
    ensures len { result ≡ prefix_len is_in_line bytes.now }
    ensures within { result ≤ length bytes.now }
{
    bytes.iter().take_while(|byte| is_in_line(**byte)).count()
}

/// How many bytes of a name stand at the front.
#[tactic(auto, using(crate::proofs::Prefix::prefix_within))]
pub fn name_len(bytes: &[u8]) -> usize
    ensures len { result ≡ prefix_len is_in_name bytes.now }
    ensures within { result ≤ length bytes.now }
{
    bytes.iter().take_while(|byte| is_in_name(**byte)).count()
}

/// How many letters and digits stand at the front.
#[tactic(auto, using(crate::proofs::Prefix::prefix_within))]
pub fn number_len(bytes: &[u8]) -> usize
    ensures len { result ≡ prefix_len is_in_number bytes.now }
    ensures within { result ≤ length bytes.now }
{
    bytes
        .iter()
        .take_while(|byte| byte.is_ascii_alphanumeric())
        .count()
}

/// How many spaces stand at the front.
#[tactic(auto, using(crate::proofs::Prefix::prefix_within))]
pub fn space_len(bytes: &[u8]) -> usize
    ensures len { result ≡ prefix_len is_space bytes.now }
    ensures within { result ≤ length bytes.now }
{
    bytes.iter().take_while(|byte| **byte == b' ').count()
}

/// How many digits stand at the front.
#[tactic(auto, using(crate::proofs::Prefix::prefix_within))]
pub fn digit_len(bytes: &[u8]) -> usize
    ensures len { result ≡ prefix_len is_ascii_digit bytes.now }
    ensures within { result ≤ length bytes.now }
{
    bytes
        .iter()
        .take_while(|byte| byte.is_ascii_digit())
        .count()
}
