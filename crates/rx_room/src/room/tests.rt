ghost use Rattle.std.specs.Prelude.{◌≤◌, length};

use super::*;
use std::process::Abort;
use std::test::*;

/// Puts bytes behind those of a stream, as a read of 4,096 bytes would.
fn put(room: &mut Room, stream: &mut Vec<u8>, bytes: &[u8]) -> Result<(), Fail>
    requires { length bytes.now ≤ 4096 }
{
    room.ready(stream, 4096)?;
    room.put(stream, bytes);
    Ok(())
}

#[test]
fn a_short_stream_takes_what_its_bytes_take(rt: HostRuntime) -> Result<(), Fail> {
    let mut room = Room::none(rt.alloc());
    let mut stream = Vec::new(rt.alloc());
    put(&mut room, &mut stream, b"")?;
    assert_eq!(&rt; stream.capacity(), 0);
    put(&mut room, &mut stream, b"four")?;
    assert_eq!(&rt; stream.capacity(), 4);
    put(&mut room, &mut stream, b"and more")?;
    assert_eq!(&rt; stream.capacity(), 12);
    assert_eq!(&rt; stream.as_slice(), b"fourand more".as_slice());
    Ok(())
}

#[test]
fn what_was_lent_is_lent_again_where_nothing_was_read(rt: HostRuntime) -> Result<(), Fail> {
    let mut room = Room::none(rt.alloc());
    let lent = room.lend(4096)?;
    assert_eq!(&rt; room.filled(lent, 0).len(), 0);
    assert_eq!(&rt; room.lent.len(), 4096);
    let again = room.lend(4096)?;
    assert_eq!(&rt; room.lent.len(), 0);
    assert_eq!(&rt; room.filled(again, 3).len(), 3);
    Ok(())
}
