ghost use Rattle.std.specs.Prelude.{◌≡◌, ◌≤◌, ◌+◌, ◌++◌, length, take, drop, replicate, vec_capacity, is_some};
ghost use Rattle.std.specs.List.{list_any};
ghost use Rattle.rx_table.specs.Records.{fresh_seat, fresh_seats};
ghost use Rattle.rx_table.specs.declared.seat.TheConstants.{CHANNELS};

use crate::seat::{CHANNELS, Seat};

/// The fresh seats of a connection go to the end, where there is room for them.
pub fn push_fresh(seats: &mut Vec<Seat>)
    requires { length seats.old.items + CHANNELS ≤ vec_capacity seats.old }
    ensures items { seats.new.items ≡ seats.old.items ++ fresh_seats }
    ensures capacity { vec_capacity seats.new ≡ vec_capacity seats.old }
{
    for _ in 0..CHANNELS {
        seats.push_reserved(Seat::fresh(0));
    }
}

/// The seats of a connection, from the first on, are fresh again.
pub fn renew(seats: &mut [Seat], first: usize)
    requires { first + CHANNELS ≤ length seats.old }
    ensures { seats.new
        ≡ take first seats.old ++ (fresh_seats ++ drop (first + CHANNELS) seats.old) }
{
    renew_all(&mut seats[first..first + CHANNELS as usize]);
}

fn renew_all(seats: &mut [Seat])
    ensures { seats.new ≡ replicate (length seats.old) (fresh_seat 0) }
{
    for seat in seats.iter_mut() {
        *seat = Seat::fresh(0);
    }
}

/// Whether a call lives at one of the seats.
pub fn has_live(seats: &[Seat]) -> bool
    ensures { result ≡ list_any (λ seat. is_some seat.live) seats.now }
{
    seats.iter().any(|seat| seat.live.is_some())
}
