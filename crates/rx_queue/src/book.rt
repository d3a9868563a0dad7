//! Due books whose steps nobody counts: each call has a counter of its own.

ghost use Rattle.std.specs.Prelude.{◌≡◌, ◌<◌, ◌↔◌, Some, None, length, slice_set, IfSome, IsNone};
ghost use Rattle.rx_due.specs.Book.{entries_of, IsLeast};

use rx_due::{DueBook, Steps};
use std::marker::Brand;
use std::sync::ledger::{Blank, Ledger};

/// Gives a key a moment, in place of the one that it may have.
pub fn set(book: &mut DueBook, key: u32, moment: u64)
    requires { key < length book.old }
    ensures { book.new ≡ slice_set book.old key (Some moment) }
{
    set_counted::<Brand>(book, key, moment, Blank::new(1));
}

fn set_counted<L: Ledger>(book: &mut DueBook, key: u32, moment: u64, blank: Blank)
    requires key { key < length book.old }
    requires name { blank.name ≡ L.name }
    requires parts { blank.parts ≡ L.parts }
    requires counts { 0 < blank.parts }
    ensures { book.new ≡ slice_set book.old key (Some moment) }
{
    let mut steps = Steps::<L>::new(blank);
    book.set(key, moment, &mut steps);
}

/// Takes the moment of a key away, if it has one.
pub fn clear(book: &mut DueBook, key: u32)
    requires { key < length book.old }
    ensures { book.new ≡ slice_set book.old key None }
{
    clear_counted::<Brand>(book, key, Blank::new(1));
}

fn clear_counted<L: Ledger>(book: &mut DueBook, key: u32, blank: Blank)
    requires key { key < length book.old }
    requires name { blank.name ≡ L.name }
    requires parts { blank.parts ≡ L.parts }
    requires counts { 0 < blank.parts }
    ensures { book.new ≡ slice_set book.old key None }
{
    let mut steps = Steps::<L>::new(blank);
    book.clear(key, &mut steps);
}

/// The least pair of moment and key; none where no key has a moment.
pub fn first(book: &DueBook) -> Option<(u64, u32)>
    ensures empty { IsNone result ↔ (entries_of book.now ≡ 0) }
    ensures least { IfSome result (IsLeast book.now) }
    ensures within { IfSome result (λ pair. pair.1 < length book.now) }
{
    first_counted::<Brand>(book, Blank::new(1))
}

fn first_counted<L: Ledger>(book: &DueBook, blank: Blank) -> Option<(u64, u32)>
    requires name { blank.name ≡ L.name }
    requires parts { blank.parts ≡ L.parts }
    requires counts { 0 < blank.parts }
    ensures empty { IsNone result ↔ (entries_of book.now ≡ 0) }
    ensures least { IfSome result (IsLeast book.now) }
    ensures within { IfSome result (λ pair. pair.1 < length book.now) }
{
    let mut steps = Steps::<L>::new(blank);
    book.first(&mut steps)
}
