//! Numbers that reached the end of their type are given anew.

ghost use Rattle.std.specs.Prelude.{◌≡◌, ◌<◌, ◌≤◌, ◌+◌, ◌^◌, ℕ, true, Some, length, is_some};
ghost use Rattle.rx_due.specs.Book.{moment_of};
ghost use Rattle.rx_queue.specs.Counts.{IsQueue, order_of};

use crate::book::{clear, first, set};
use rx_due::DueBook;

/// The number of the next key. At the end of the type the keys are numbered anew before it.
pub fn next_number(counts: &mut [Option<u64>], ready: &mut DueBook, next: u64) -> u64
    requires { IsQueue counts.old ready.old next }
    ensures queue { IsQueue counts.new ready.new result }
    ensures order { order_of counts.new result ≡ order_of counts.old next }
    ensures room { length ready.new ≡ length ready.old }
    ensures same { (key : ℕ) → is_some (moment_of counts.new key) ≡ is_some (moment_of counts.old key) }
    ensures keeps { (key : ℕ) → is_some (moment_of ready.old key) ≡ true →
        is_some (moment_of ready.new key) ≡ true }
    ensures low { result + 1 < 2 ^ 64 }
{
    if next < u64::MAX {
        return next;
    }
    renumber(counts, ready, next)
}

/// The keys have the numbers from 0 on, in the same order, and each is ready. Answers the next number.
fn renumber(counts: &mut [Option<u64>], ready: &mut DueBook, next: u64) -> u64
    requires { IsQueue counts.old ready.old next }
    ensures queue { IsQueue counts.new ready.new result }
    ensures order { order_of counts.new result ≡ order_of counts.old next }
    ensures room { length ready.new ≡ length ready.old }
    ensures same { (key : ℕ) → is_some (moment_of counts.new key) ≡ is_some (moment_of counts.old key) }
    ensures each { (key : ℕ) → moment_of ready.new key ≡ moment_of counts.new key }
    ensures low { result < 2 ^ 32 }
{
    admit_all(counts, ready);
    let mut count: u64 = 0;
    'given: while let Some((_count, key)) = first(ready) {
        clear(ready, key);
        counts[key as usize] = Some(count);
        count += 1;
    }
    admit_all(counts, ready);
    count
}

/// Each key that has a number is ready.
fn admit_all(counts: &[Option<u64>], ready: &mut DueBook)
    requires room { length counts.now ≡ length ready.old }
    requires limit { length counts.now < 2 ^ 32 }
    requires told { (key n : ℕ) → moment_of ready.old key ≡ Some n → moment_of counts.now key ≡ Some n }
    ensures room { length ready.new ≡ length ready.old }
    ensures each { (key : ℕ) → moment_of ready.new key ≡ moment_of counts.now key }
{
    for key in 0..counts.len() as u32 {
        if let Some(count) = counts[key as usize] {
            set(ready, key, count);
        }
    }
}
