//! The line that the program says of how it ended.

ghost use Rattle.std.specs.List.{flat_map};
ghost use Rattle.rx_base.specs.Sink.{IsPut};
ghost use Rattle.rx_top.specs.Endings.{refused_text};
ghost use Rattle.rx_top.specs.Outside.{OnlyErr, Says};

use crate::around::Surroundings;
use itoa::Buffer;
use rx_base::Sink;

/// Says which line is refused, and why.
pub fn say_refused<X: Surroundings>(x: &mut X, name: &str, line: u32, why: &str)
    ensures said { Says (X.told x.old) (X.told x.new) (refused_text name.now line why.now) }
    ensures only { OnlyErr (X.told x.old) (X.told x.new) }
{
    let mut digits = Buffer::new();
    x.say(&["rx: ", name, ":", digits.format(line), ": ", why, "\n"]);
}

/// Puts the parts of a line in order, up to the first whose put fails: a fault of `err` changes no answer.
pub fn say<E: Sink>(err: &mut E, parts: &[&str])
    ensures { IsPut (E.told err.old) (E.told err.new) (E.faults err.old) (E.faults err.new)
        (flat_map (λ part. part.now) parts.now) }
{
    for part in parts {
        if err.put(part.as_bytes()).is_err() {
            return;
        }
    }
}
