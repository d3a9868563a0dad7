use super::*;
use rx_model::{CallName, Host};
use std::process::Abort;
use std::test::*;

const CALL: CallName = CallName {
    host: Host {
        addr: 0x0a00_0002,
        port: 7001,
    },
    epoch: 1,
    cid: 4,
    chan: 0,
    number: 1,
};

/// The length of the challenge by the nonce 7.
fn challenge_bytes<C: Class>(class: &C, to: &mut [u8; 64]) -> usize {
    class_law(class);
    class.challenge(&CALL, 7, to)
}

#[test]
fn the_null_class_challenges_and_answers_none(rt: HostRuntime) {
    let mut to = [9u8; 64];
    assert_eq!(&rt; Null.index(), 0);
    assert!(&rt; !Null.challenges());
    assert_eq!(&rt; challenge_bytes(&Null, &mut to), 0);
    assert_eq!(&rt; Null.respond(&CALL, &[0; 8], &mut to), None);
    assert!(&rt; !Null.check(&CALL, 7, &[]));
    assert_eq!(&rt; to[0], 9);
}
