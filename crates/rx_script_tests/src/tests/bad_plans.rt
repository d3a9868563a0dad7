//! Plans that aren't taken: the first line, and why.

use super::shown::plan;
use std::process::Abort;
use std::test::Fail;

/// Texts, and the fault of each.
static WORDS: [(&str, &str); 105] = [
    ("bogus", "1 word"),
    ("Accept", "1 word"),
    ("#c", "1 word"),
    ("#", "1 word"),
    (" accept", "1 word"),
    (" ", "1 word"),
    ("accept ", "1 word"),
    ("accept\r", "1 word"),
    ("accept now", "1 word"),
    ("accept\nbogus", "2 word"),
    ("\n# c\naccept\n\naccept x\nbogus", "5 word"),
    // lines of the other grammars
    ("on FetchData", "1 word"),
    ("echo", "1 word"),
    ("peer 10.0.0.1:7000 epoch=1", "1 word"),
    // missing, empty and surplus words
    ("server", "1 word"),
    ("server ", "1 word"),
    ("server  10.0.0.1:7000", "1 word"),
    ("server 10.0.0.1:7000 ", "1 word"),
    ("server 10.0.0.1:7000 2", "1 word"),
    ("server 10.0.0.1:7000 Service=2", "1 word"),
    ("server 10.0.0.1:7000 first=1", "1 word"),
    ("server 10.0.0.1:7000 epoch=1", "1 word"),
    ("client 10.0.0.2:7001", "1 word"),
    ("client 10.0.0.2:7001 conns=1", "1 word"),
    ("client 10.0.0.2:7001 conns=1 epoch=1", "1 word"),
    ("client 10.0.0.2:7001 epoch=1 service=1", "1 word"),
    ("client 10.0.0.2:7001 epoch=1 nonce=1", "1 word"),
    ("client 10.0.0.2:7001 epoch=1 epoch=1", "1 word"),
    ("connect s", "1 word"),
    ("connect p1", "1 word"),
    ("connect c", "1 word"),
    ("connect cx", "1 word"),
    ("connect c1 2", "1 word"),
    ("connect c1 conns=2", "1 word"),
    ("call c1", "1 word"),
    ("write 1 00", "1 word"),
    ("write %1 00", "1 word"),
    ("write #1", "1 word"),
    ("write #1 ", "1 word"),
    ("shut @1", "1 word"),
    ("finish #1 0", "1 word"),
    ("poll all", "1 word"),
    ("poll p1", "1 word"),
    ("clock x 1", "1 word"),
    ("jumbo %1", "1 word"),
    ("turn all", "1 word"),
    // each kind of word missing, empty, of another kind, and one behind the last
    ("client", "1 word"),
    ("client ", "1 word"),
    ("client 10.0.0.2:7001 ", "1 word"),
    ("client 10.0.0.2:7001 epoch=1 ", "1 word"),
    ("client 10.0.0.2:7001 epoch", "1 word"),
    ("server 10.0.0.1:7000  service=1", "1 word"),
    ("server 10.0.0.1:7000 service", "1 word"),
    ("connect", "1 word"),
    ("connect c1 ", "1 word"),
    ("call", "1 word"),
    ("call ", "1 word"),
    ("call c1 ", "1 word"),
    ("call c1 4 5", "1 word"),
    ("write #1 00 00", "1 word"),
    ("shut", "1 word"),
    ("shut #", "1 word"),
    ("shut #1 2", "1 word"),
    ("ask @1", "1 word"),
    ("read #1", "1 word"),
    ("read #1 ", "1 word"),
    ("cancel #1", "1 word"),
    ("cancel #1 ", "1 word"),
    ("cancel @1 7", "1 word"),
    ("finish @1", "1 word"),
    ("finish @1 ", "1 word"),
    ("finish @1 0 0", "1 word"),
    ("poll", "1 word"),
    ("poll s c1", "1 word"),
    ("deliver", "1 word"),
    ("deliver 1", "1 word"),
    ("deliver #1", "1 word"),
    ("jumbo 1 %2", "1 word"),
    ("jumbo %1 %2 %3", "1 word"),
    ("forge s", "1 word"),
    ("forge s ", "1 word"),
    ("forge s 10.0.0.1:1", "1 word"),
    ("forge s 10.0.0.1:1 ", "1 word"),
    ("forge s 10.0.0.1:1 - -", "1 word"),
    ("clock", "1 word"),
    ("clock s", "1 word"),
    ("clock s ", "1 word"),
    ("clock all 1 2", "1 word"),
    ("turn", "1 word"),
    ("round 2", "1 word"),
    ("rounds", "1 word"),
    ("rounds ", "1 word"),
    ("rounds 1 1", "1 word"),
    ("lossy", "1 word"),
    ("lossy 1", "1 word"),
    ("lossy 1 ", "1 word"),
    ("lossy 1 1 1", "1 word"),
    ("invoke", "1 word"),
    ("invoke c1", "1 word"),
    ("invoke c1 ", "1 word"),
    ("invoke c1 4", "1 word"),
    ("invoke p1 4 FetchData []", "1 word"),
    ("invoke c1 4 FetchData", "1 word"),
    ("invoke c1 4 FetchData up=00", "1 word"),
    ("invoke c1 4 FetchData down ", "1 word"),
];

static NUMBERS: [(&str, &str); 84] = [
    ("server x", "1 number"),
    ("server 10.0.0.1", "1 number"),
    ("server 10.0.0.256:7000", "1 number"),
    ("server 10.0.1:7000", "1 number"),
    ("server 10.0.0.1:65536", "1 number"),
    ("server 10.0.0.1:7000:1", "1 number"),
    ("server 10.0.0.1:7000 service=", "1 number"),
    ("server 10.0.0.1:7000 service=65536", "1 number"),
    ("server 10.0.0.1:7000 conns=4294967296", "1 number"),
    ("server 10.0.0.1:7000 calls=x", "1 number"),
    ("server 10.0.0.1:7000 slots=-1", "1 number"),
    ("server 10.0.0.1:7000 window=4294967296", "1 number"),
    ("server 10.0.0.1:7000 key=aa", "1 number"),
    // upper case, a digit too few, a digit too many
    (
        "server 10.0.0.1:7000 key=Aaaaaaaaaaaaaaaaaaaaaaaaaaaaaaaaaaaaaaaaaaaaaaaaaaaaaaaaaaaaaaaa",
        "1 number",
    ),
    (
        "server 10.0.0.1:7000 key=aaaaaaaaaaaaaaaaaaaaaaaaaaaaaaaaaaaaaaaaaaaaaaaaaaaaaaaaaaaaaaa",
        "1 number",
    ),
    (
        "server 10.0.0.1:7000 key=aaaaaaaaaaaaaaaaaaaaaaaaaaaaaaaaaaaaaaaaaaaaaaaaaaaaaaaaaaaaaaaaa",
        "1 number",
    ),
    ("client 10.0.0.2:7001 epoch=", "1 number"),
    ("client 10.0.0.2:7001 epoch=4294967296", "1 number"),
    ("connect c0", "1 number"),
    ("connect c4294967296", "1 number"),
    ("connect c1 first=0", "1 number"),
    ("connect c1 first=4294967296", "1 number"),
    ("call c1 4294967296", "1 number"),
    ("call c1 -0", "1 number"),
    ("write #0 00", "1 number"),
    ("write #1 0", "1 number"),
    ("write #1 0F", "1 number"),
    ("write #1 *5a", "1 number"),
    ("write #1 2*", "1 number"),
    ("write #1 2*5a5a", "1 number"),
    ("write #1 2*5a*1", "1 number"),
    ("write #1 16777217*5a", "1 number"),
    ("read #1 0", "1 number"),
    ("read #1 16777217", "1 number"),
    ("cancel #1 0", "1 number"),
    ("cancel #1 -0", "1 number"),
    ("cancel #1 2147483648", "1 number"),
    ("cancel #1 -2147483649", "1 number"),
    ("finish @1 -0", "1 number"),
    ("finish @1 x", "1 number"),
    ("deliver %0", "1 number"),
    ("jumbo %1 %4294967296", "1 number"),
    ("forge s x 00", "1 number"),
    ("forge s 10.0.0.1:1 0x", "1 number"),
    ("clock all 4611686018427387904", "1 number"),
    ("rounds 0", "1 number"),
    ("rounds 1000001", "1 number"),
    ("lossy 18446744073709551616 1", "1 number"),
    ("lossy 0 0", "1 number"),
    ("turn c0", "1 number"),
    ("poll c4294967296", "1 number"),
    ("server :7000", "1 number"),
    ("server 10.0.0.1:", "1 number"),
    ("server 10.0.0.-1:7000", "1 number"),
    ("server 10.0.0.:7000", "1 number"),
    ("server 10.0.0.1.2:7000", "1 number"),
    ("server 10.0.0.1:7000 key=", "1 number"),
    ("connect c1 first=", "1 number"),
    ("connect c1 first=-1", "1 number"),
    ("client 10.0.0.2 epoch=1", "1 number"),
    ("client 10.0.0.2:7001 epoch=-1", "1 number"),
    ("client 10.0.0.2:7001 epoch=1 conns=", "1 number"),
    ("call c1 +4", "1 number"),
    ("shut #0", "1 number"),
    ("shut #4294967296", "1 number"),
    ("read #1 x", "1 number"),
    ("read @1 16777217", "1 number"),
    ("cancel #1 -", "1 number"),
    ("cancel #1 --7", "1 number"),
    ("cancel #1 +7", "1 number"),
    ("finish @0 0", "1 number"),
    ("finish @1 2147483648", "1 number"),
    ("deliver %4294967296", "1 number"),
    ("forge s 10.0.0.1:1 16777217*00", "1 number"),
    ("forge s 10.0.0.1:1 --", "1 number"),
    ("clock s -1", "1 number"),
    ("clock s 18446744073709551616", "1 number"),
    ("rounds x", "1 number"),
    ("rounds -1", "1 number"),
    ("lossy x 1", "1 number"),
    ("lossy 1 x", "1 number"),
    ("lossy 1 1000001", "1 number"),
    ("invoke c0 4 FetchData []", "1 number"),
    ("invoke c1 4294967296 FetchData []", "1 number"),
];

/// Faults of options, of calls with their callers, and the order of faults.
static OTHERS: [(&str, &str); 57] = [
    // a nonce without a key, before faults to its right and after those to its left
    ("server 10.0.0.1:7000 nonce=1", "1 word"),
    ("server 10.0.0.1:7000 nonce=1 service=x", "1 word"),
    ("server 10.0.0.1:7000 service=x nonce=1", "1 number"),
    ("server 10.0.0.1:7000 nonce=x key=aa", "1 number"),
    ("server 10.0.0.1:7000 nonce=1 key=aa", "1 number"),
    ("server 10.0.0.1:7000 key=aa nonce=x", "1 number"),
    (
        "server 10.0.0.1:7000 nonce=18446744073709551616 \
            key=aaaaaaaaaaaaaaaaaaaaaaaaaaaaaaaaaaaaaaaaaaaaaaaaaaaaaaaaaaaaaaaa",
        "1 number",
    ),
    // options twice: a value that is none comes first
    (
        "server 10.0.0.1:7000 service=1 conns=1 service=1",
        "1 twice",
    ),
    ("server 10.0.0.1:7000 service=1 service=x", "1 number"),
    ("server 10.0.0.1:7000 slots=1 slots=1 bogus", "1 twice"),
    ("server 10.0.0.1:7000 window=40 window=40", "1 twice"),
    ("connect c1 first=1 first=1", "1 twice"),
    ("server 10.0.0.1:7000 nonce=1 nonce=2", "1 word"),
    ("server 10.0.0.1:7000 nonce=1 keys=aa", "1 word"),
    ("server 10.0.0.1:7000 nonce=1 key=", "1 number"),
    (
        "server 10.0.0.1:7000 key=aaaaaaaaaaaaaaaaaaaaaaaaaaaaaaaaaaaaaaaaaaaaaaaaaaaaaaaaaaaaaaaa nonce=1 service=1 nonce=2",
        "1 twice",
    ),
    (
        "server 10.0.0.1:7000 nonce=1 key=aaaaaaaaaaaaaaaaaaaaaaaaaaaaaaaaaaaaaaaaaaaaaaaaaaaaaaaaaaaaaaaa key=aaaaaaaaaaaaaaaaaaaaaaaaaaaaaaaaaaaaaaaaaaaaaaaaaaaaaaaaaaaaaaaa",
        "1 twice",
    ),
    (
        "server 10.0.0.1:7000 key=aaaaaaaaaaaaaaaaaaaaaaaaaaaaaaaaaaaaaaaaaaaaaaaaaaaaaaaaaaaaaaaa key=aa",
        "1 number",
    ),
    ("server 10.0.0.1:7000 calls=1 window=2 calls=3", "1 twice"),
    ("server 10.0.0.1:7000 calls=1 calls=4294967296", "1 number"),
    (
        "client 10.0.0.2:7001 epoch=1 window=1 conns=1 slots=1 conns=1",
        "1 twice",
    ),
    (
        "client 10.0.0.2:7001 epoch=1 conns=1 first=1 conns=1",
        "1 word",
    ),
    // the server's host, which a client above it may have
    (
        "server 10.0.0.1:7000\nclient 10.0.0.1:7000 epoch=x",
        "2 twice",
    ),
    (
        "server 10.0.0.1:7000\nserver 10.0.0.2:7000\nclient 10.0.0.2:7000 epoch=1\nclient 10.0.0.1:7000",
        "4 twice",
    ),
    (
        "client 10.0.0.1:7000 epoch=1\nserver 10.0.0.1:7000\nclient 10.0.0.1:07000 epoch=1",
        "3 twice",
    ),
    // words are judged from the left
    ("forge x y z", "1 word"),
    ("forge s y z", "1 number"),
    ("cancel #1 0 more", "1 number"),
    ("cancel 1 0", "1 word"),
    ("read #1 1 more", "1 word"),
    // calls with their callers
    ("invoke s 4 FetchData []", "1 word"),
    ("invoke c1 x Nothing []", "1 number"),
    ("invoke c1 4 Nothing []", "1 proc"),
    ("invoke c1 4  []", "1 word"),
    ("invoke c1 4 FetchStatus", "1 word"),
    ("invoke c1 4 FetchStatus ", "1 word"),
    ("invoke c1 4 FetchStatus []", "1 json"),
    ("invoke c1 4 FetchStatus {}", "1 json"),
    ("invoke c1 4 FetchStatus [", "1 json"),
    (
        "invoke c1 4 FetchStatus [{\"Volume\":1,\"Vnode\":2,\"Unique\":3},\"a\",-1]",
        "1 json",
    ),
    (
        "invoke c1 4 FetchStatus [{\"Volume\":1,\"Vnode\":2,\"Unique\":3},\"a\",0] down",
        "1 word",
    ),
    ("invoke c1 4 FetchStatus down []", "1 kind"),
    ("invoke c1 4 FetchStatus up=00 []", "1 kind"),
    ("invoke c1 4 FetchStatus up=0 []", "1 number"),
    ("invoke c1 4 FetchData up= []", "1 number"),
    ("invoke c1 4 FetchData down down []", "1 twice"),
    ("invoke c1 4 FetchData up=00 down up=00 []", "1 twice"),
    ("invoke c1 4 FetchData up=00 up=0 []", "1 number"),
    ("invoke c1 4 FetchData up=00 ", "1 word"),
    ("invoke c1 4 FetchData down up=00 up=00 []", "1 twice"),
    ("invoke c1 4 FetchData Down []", "1 json"),
    ("invoke c1 4 FetchData [] []", "1 json"),
    (
        "invoke c1 4 FetchData [{\"Volume\":1,\"Vnode\":2,\"Unique\":3},0,3,0]",
        "1 json",
    ),
    (
        "invoke c1 4 FetchData [{\"Volume\":1,\"Vnode\":2,\"Unique\":3},0]",
        "1 json",
    ),
    (
        "invoke c1 4 FetchData [{\"Vol\\u0020ume\":1,\"Vnode\":2,\"Unique\":3},0,3]",
        "1 json",
    ),
    (
        "invoke c1 4 FetchData [{\"Volume\":1, \"Vnode\":2,\"Unique\":3},0,3]",
        "1 json",
    ),
    (
        "invoke c1 4 FetchData [{\"Volume\":1,\"Vnode\":2,\"Unique\":3},0,3] []",
        "1 word",
    ),
];

fn check(rt: &impl Abort, given: &str, text: &str, fault: &str) {
    assert!(rt; given == fault, "{text:?} gives {given}");
}

#[test]
fn words_are_refused(rt: HostRuntime) -> Result<(), Fail> {
    for (text, fault) in &WORDS {
        check(&rt, plan(rt.alloc(), text)?.as_str(), text, fault);
    }
    Ok(())
}

#[test]
fn numbers_are_refused(rt: HostRuntime) -> Result<(), Fail> {
    for (text, fault) in &NUMBERS {
        check(&rt, plan(rt.alloc(), text)?.as_str(), text, fault);
    }
    Ok(())
}

#[test]
fn other_faults_come_in_their_order(rt: HostRuntime) -> Result<(), Fail> {
    for (text, fault) in &OTHERS {
        check(&rt, plan(rt.alloc(), text)?.as_str(), text, fault);
    }
    Ok(())
}
