use super::*;
use rx_class::Class;
use rx_model::{CallName, Host};
use std::process::Abort;
use std::test::*;

/// The bytes 0 to 31.
const KEY: [u8; 32] = [
    0, 1, 2, 3, 4, 5, 6, 7, 8, 9, 10, 11, 12, 13, 14, 15, 16, 17, 18, 19, 20, 21, 22, 23, 24, 25,
    26, 27, 28, 29, 30, 31,
];

/// The SHA-256 of the key, epoch 1, cid 4 and the challenge by the nonce 5.
const DIGEST: [u8; 32] = [
    0x51, 0x3d, 0x13, 0x65, 0xeb, 0x96, 0x33, 0x12, 0x1f, 0xab, 0x59, 0x93, 0x99, 0x29, 0xa1, 0x53,
    0x98, 0x73, 0x9f, 0xd8, 0xe8, 0x8e, 0x48, 0x8a, 0x01, 0x8f, 0x5b, 0xec, 0x78, 0xa1, 0xfc, 0x5a,
];

/// That of the key, epoch 0x01020304, cid 0x05060708 and the challenge 1112131415161718.
const FURTHER_DIGEST: [u8; 32] = [
    0xef, 0xb0, 0x31, 0x5e, 0xbf, 0x75, 0x6c, 0x17, 0x26, 0x21, 0x0b, 0x0a, 0x70, 0x5e, 0xa1, 0x9b,
    0xcd, 0x6d, 0xdb, 0xe0, 0x68, 0x1d, 0x1d, 0x7d, 0x69, 0xfa, 0x73, 0xad, 0xfb, 0xad, 0x5a, 0xff,
];

fn call(epoch: u32, cid: u32) -> CallName {
    CallName {
        host: Host {
            addr: 0x0a00_0002,
            port: 7001,
        },
        epoch,
        cid,
        chan: 1,
        number: 9,
    }
}

#[test]
fn a_token_answers_its_challenge_by_the_digest(rt: HostRuntime) {
    let token = Token::new(KEY);
    let mut to = [0xeeu8; 64];
    assert_eq!(&rt; token.index(), 200);
    assert!(&rt; token.challenges());
    assert_eq!(&rt; token.challenge(&call(1, 4), 5, &mut to), 8);
    assert!(&rt; to.starts_with(&[0, 0, 0, 0, 0, 0, 0, 5, 0xee]));
    let asked = [0, 0, 0, 0, 0, 0, 0, 5];
    assert_eq!(&rt; token.respond(&call(1, 4), &asked, &mut to), Some(32));
    assert!(&rt; to.starts_with(&DIGEST));
    assert_eq!(&rt; to[32], 0xee);
    let further = [0x11, 0x12, 0x13, 0x14, 0x15, 0x16, 0x17, 0x18];
    assert_eq!(&rt;
        token.respond(&call(0x0102_0304, 0x0506_0708), &further, &mut to),
        Some(32)
    );
    assert!(&rt; to.starts_with(&FURTHER_DIGEST));
    assert_eq!(&rt; token.respond(&call(1, 4), &asked[..7], &mut to), None);
    assert_eq!(&rt; token.respond(&call(1, 4), &[0; 9], &mut to), None);
}

#[test]
fn only_the_whole_digest_is_right(rt: HostRuntime) {
    let token = Token::new(KEY);
    let mut answer = [0u8; 33];
    answer[..32].copy_from_slice(&DIGEST);
    assert!(&rt; token.check(&call(1, 4), 5, &answer[..32]));
    assert!(&rt; !token.check(&call(1, 4), 5, &answer[..31]));
    assert!(&rt; !token.check(&call(1, 4), 5, &answer));
    assert!(&rt; !token.check(&call(1, 4), 6, &answer[..32]));
    assert!(&rt; !token.check(&call(2, 4), 5, &answer[..32]));
    answer[31] = 0x5b;
    assert!(&rt; !token.check(&call(1, 4), 5, &answer[..32]));
}

#[test]
fn a_chosen_class_is_null_or_the_token(rt: HostRuntime) {
    let null = Chosen::Null;
    let token = Chosen::Token(Token::new(KEY));
    let mut to = [0u8; 64];
    assert_eq!(&rt; null.index(), 0);
    assert!(&rt; !null.challenges());
    assert_eq!(&rt; null.challenge(&call(1, 4), 5, &mut to), 0);
    assert_eq!(&rt; null.respond(&call(1, 4), &[0; 8], &mut to), None);
    assert!(&rt; !null.check(&call(1, 4), 5, &DIGEST));
    assert_eq!(&rt; token.index(), 200);
    assert!(&rt; token.challenges());
    assert_eq!(&rt; token.challenge(&call(1, 4), 5, &mut to), 8);
    assert!(&rt; token.check(&call(1, 4), 5, &DIGEST));
}
