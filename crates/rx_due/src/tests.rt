ghost use Rattle.std.specs.Prelude.{◌≡◌, ◌<◌};

use super::*;
use std::alloc::{AllocError, Global};
use std::marker::Brand;
use std::process::Abort;
use std::sync::ledger::{Blank, Ledger};
use std::test::*;

/// A call that changes a book.
#[derive(Drop)]
enum Call {
    Set(u32, u64),
    Clear(u32),
}

fn firsts_counted<L: Ledger>(
    alloc: Global,
    keys: u32,
    calls: &[Call],
    blank: Blank,
) -> Result<Vec<Option<(u64, u32)>>, AllocError>
    requires name { blank.name ≡ L.name }
    requires parts { blank.parts ≡ L.parts }
    requires some { 0 < blank.parts }
{
    let mut steps = Steps::<L>::new(blank);
    let mut book = DueBook::make(alloc, keys)?;
    let mut firsts = Vec::new(alloc);
    for call in calls {
        match call {
            Call::Set(key, moment) => {
                if *key < keys {
                    book.set(*key, *moment, &mut steps);
                }
            }
            Call::Clear(key) => {
                if *key < keys {
                    book.clear(*key, &mut steps);
                }
            }
        }
        firsts.push(book.first(&mut steps))?;
    }
    Ok(firsts)
}

/// What is first after each of the calls, on an empty book for so many keys.
fn firsts(alloc: Global, keys: u32, calls: &[Call]) -> Result<Vec<Option<(u64, u32)>>, AllocError> {
    firsts_counted::<Brand>(alloc, keys, calls, Blank::new(1))
}

#[test]
fn due_pairs(rt: HostRuntime) -> Result<(), Fail> {
    let calls = [
        Call::Set(3, 50),
        Call::Set(1, 50),
        Call::Set(2, 40),
        Call::Clear(2),
        Call::Set(1, 60),
        Call::Clear(3),
        Call::Clear(1),
    ];
    let wanted = [
        Some((50, 3)),
        Some((50, 1)),
        Some((40, 2)),
        Some((50, 1)),
        Some((50, 3)),
        Some((60, 1)),
        None,
    ];
    assert_eq!(rt;
        firsts(rt.alloc(), 4, &calls)?.as_slice(),
        wanted.as_slice()
    );
    Ok(())
}

#[test]
fn a_key_has_its_latest_moment(rt: HostRuntime) -> Result<(), Fail> {
    let calls = [
        Call::Set(0, 20),
        Call::Set(5, 30),
        Call::Set(5, 10),
        Call::Set(5, u64::MAX),
        Call::Set(0, u64::MAX),
        Call::Set(3, 0),
        Call::Set(3, u64::MAX),
        Call::Clear(0),
        Call::Clear(0),
        Call::Clear(3),
        Call::Clear(5),
        Call::Clear(5),
        Call::Set(5, 0),
    ];
    let wanted = [
        Some((20, 0)),
        Some((20, 0)),
        Some((10, 5)),
        Some((20, 0)),
        Some((u64::MAX, 0)),
        Some((0, 3)),
        Some((u64::MAX, 0)),
        Some((u64::MAX, 3)),
        Some((u64::MAX, 3)),
        Some((u64::MAX, 5)),
        None,
        None,
        Some((0, 5)),
    ];
    assert_eq!(rt;
        firsts(rt.alloc(), 6, &calls)?.as_slice(),
        wanted.as_slice()
    );
    Ok(())
}

#[test]
fn a_book_of_one_key(rt: HostRuntime) -> Result<(), Fail> {
    let calls = [
        Call::Clear(0),
        Call::Set(0, 7),
        Call::Set(0, 9),
        Call::Clear(0),
    ];
    let wanted = [None, Some((7, 0)), Some((9, 0)), None];
    assert_eq!(rt;
        firsts(rt.alloc(), 1, &calls)?.as_slice(),
        wanted.as_slice()
    );
    Ok(())
}

fn emptied_counted<L: Ledger>(
    alloc: Global,
    keys: u32,
    blank: Blank,
) -> Result<Vec<(u64, u32)>, AllocError>
    requires name { blank.name ≡ L.name }
    requires parts { blank.parts ≡ L.parts }
    requires some { 0 < blank.parts }
{
    let mut steps = Steps::<L>::new(blank);
    let mut book = DueBook::make(alloc, keys)?;
    for key in 0..keys {
        book.set(key, (keys - key) as u64, &mut steps);
    }
    let mut pairs = Vec::new(alloc);
    for _ in 0..keys {
        if let Some((moment, key)) = book.first(&mut steps) {
            pairs.push((moment, key))?;
            book.clear(key, &mut steps);
        }
    }
    Ok(pairs)
}

/// The pairs of a book in which the later a key, the earlier its moment, as they come first and are cleared.
fn emptied(alloc: Global, keys: u32) -> Result<Vec<(u64, u32)>, AllocError> {
    emptied_counted::<Brand>(alloc, keys, Blank::new(1))
}

#[test]
fn pairs_come_in_the_order_of_moments(rt: HostRuntime) -> Result<(), Fail> {
    let pairs = emptied(rt.alloc(), 100)?;
    assert_eq!(rt; pairs.len(), 100);
    for (i, pair) in pairs.iter().enumerate() {
        let moment = i as u64 + 1;
        assert_eq!(rt; (pair.0, pair.1 as u64), (moment, 100 - moment.min(100)));
    }
    Ok(())
}
