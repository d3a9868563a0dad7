//! How calls of a load ended, in numbers.
ghost use Rattle.std.specs.Prelude.{◌≡◌};
ghost use Rattle.rx_load.specs.Summing.{count_by, count_ok, counts_none};

use rx_model::End;

/// How many calls ended in which way. A count stands still at 2^32 - 1.
#[derive(Clone, Copy, Debug, PartialEq, Eq)]
pub struct Ends {
    pub ok: u32,
    pub aborted: u32,
    pub dead: u32,
}

impl Ends {
    /// None.
    pub fn none() -> Ends
        ensures { result ≡ counts_none }
    {
        Ends {
            ok: 0,
            aborted: 0,
            dead: 0,
        }
    }

    /// One call more, which ended so, or didn't; an Ok counts where it was answered as it has to be.
    pub fn count(&mut self, is_answered: bool, end: Option<End>)
        ensures { self.new ≡ count_by is_answered end self.old }
    {
        match end {
            Some(End::Ok) => self.count_ok(is_answered),
            Some(End::Abort(_)) => self.aborted = self.aborted.saturating_add(1),
            Some(End::Dead(_)) => self.dead = self.dead.saturating_add(1),
            Some(End::Cancelled(_)) | None => {}
        }
    }

    /// One Ok more.
    fn count_ok(&mut self, is_answered: bool)
        ensures { self.new ≡ count_ok is_answered self.old }
    {
        if is_answered {
            self.ok = self.ok.saturating_add(1);
        }
    }
}
