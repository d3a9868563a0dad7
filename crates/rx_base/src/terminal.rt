//! Standard error, on which a command may show how far it is.
//! No clause can say what is shown, or what reaches the stream: `.ci/program.py` runs the program on a terminal, and
//! compares what comes there.
ghost use Rattle.std.specs.Prelude.{◌≡◌, ℕ, None};

use crate::sink::{Failed, Sink};
use crate::std_sink::StdSink;
use std::io;
use std::marker::Model;
use std::time::{Clock, Instant};

/// Milliseconds between two lines that are shown, at least.
const SHOWN_MS: u64 = 250;

/// A stream of the system on which lines are shown where it is a terminal. It tells nothing of the bytes put, as a
/// `StdSink`.
#[derive(Drop)]
pub struct Terminal<'a, R: Print, C: Clock> {
    rt: &'a R,
    clock: &'a C,
    sink: StdSink<'a, R>,
    // When it was made, where lines are shown.
    made: Option<Instant>,
    // When the next line may be shown, in milliseconds since then.
    next: u64,
}

// A contract sees how many puts failed.
impl<'a, R: Print, C: Clock> Model for Terminal<'a, R, C> {
    ghost Value = { ℕ };

    ghost view = { λ t. t.sink };
}

impl<'a, R: Print, C: Clock> Terminal<'a, R, C> {
    /// The runtime's stream, with no fault counted yet; where it is a terminal lines are shown by this clock.
    pub fn make(rt: &'a R, clock: &'a C, is_terminal: bool) -> Terminal<'a, R, C>
        ensures empty { result ≡ 0 }
    {
        let made = if is_terminal {
            Instant::now(clock).ok()
        } else {
            None
        };
        Terminal {
            rt,
            clock,
            sink: StdSink::make(rt),
            made,
            next: 0,
        }
    }

    // Milliseconds since it was made, where lines are shown.
    fn elapsed(&self) -> Option<u64> {
        let made = self.made?;
        let now = Instant::now(self.clock).ok()?;
        u64::try_from(now.duration_since(made).as_millis()).ok()
    }

    // Puts this in the place of what stands in the line of the terminal.
    fn replace(&self, line: &str) -> io::Result<()> {
        self.rt.write_all(b"\r")?;
        self.rt.write_all(line.as_bytes())?;
        self.rt.write_all(b"\x1b[K")
    }
}

impl<'a, R: Print, C: Clock> Sink for Terminal<'a, R, C> {
    ghost told = { λ _. None };

    ghost faults = { λ faults. faults };

    fn put(&mut self, bytes: &[u8]) -> Result<(), Failed> {
        self.sink.put(bytes)
    }

    fn discards(&self) -> bool {
        false
    }

    fn shows(&mut self) -> Option<u64> {
        let elapsed = self.elapsed()?;
        if elapsed < self.next {
            return None;
        }
        self.next = elapsed.saturating_add(SHOWN_MS);
        Some(elapsed)
    }

    fn show(&mut self, line: &str) {
        if self.made.is_some() {
            let _ = self.replace(line);
        }
    }
}
