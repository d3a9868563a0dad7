//! Lines that say nothing.

ghost use Rattle.std.specs.Prelude.{◌≡◌};
ghost use Rattle.rx_script.specs.Texts.{is_skipped};

/// Whether a line is empty, or a comment.
pub fn is_skipped(line: &str) -> bool
    ensures { result ≡ is_skipped line.now }
{
    line.is_empty() || line.starts_with("# ")
}
