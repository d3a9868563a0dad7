//! Plans of peers.

use super::shown::peer_plan;
use std::process::Abort;
use std::test::Fail;

/// Texts, and the lines or the fault of each.
static PEERS: [(&str, &str); 44] = [
    (
        "peer 10.0.0.1:7000 epoch=4",
        "1 peer 167772161:7000 4 1 1024,64,2048,32;",
    ),
    (
        "peer 10.0.0.1:7000 epoch=0 window=33 slots=5 calls=4 conns=3 service=2\npeer 10.0.0.1:7001 epoch=0",
        "1 peer 167772161:7000 0 2 3,4,5,33;2 peer 167772161:7001 0 1 1024,64,2048,32;",
    ),
    (
        "connect p1 p2\nconnect p1 p1",
        "1 connect 1 2;2 connect 1 1;",
    ),
    (
        "invoke p1 4 FetchData up=00 down [{\"Volume\":1,\"Vnode\":2,\"Unique\":3},0,3]",
        "1 invoke 1 4 FetchData up=00 true [[1,2,3],0,3];",
    ),
    (
        "cancel #1 7\nask #2\ndeliver %3",
        "1 cancel #1 7;2 ask #2;3 deliver %3;",
    ),
    (
        "poll p1\nclock all 5\nclock p2 6\nturn p3",
        "1 poll 1;2 clock None 5;3 clock Some(2) 6;4 turn 3;",
    ),
    (
        "round\nrounds 2\nlossy 3 4",
        "1 rounds 1;2 rounds 2;3 lossy 3 4;",
    ),
    (
        "peer 10.0.0.1:7000 epoch=1\npeer 10.0.0.2:7000 epoch=1\npeer 10.0.0.1:7000 epoch=2",
        "3 twice",
    ),
    (
        "peer 10.0.0.1:7000 epoch=1\npeer 10.0.0.1:7000 epoch=x",
        "2 twice",
    ),
    ("peer 10.0.0.1:7000", "1 word"),
    ("peer 10.0.0.1:7000 epoch=1 key=aa", "1 word"),
    ("peer 10.0.0.1:7000 epoch=1 nonce=1", "1 word"),
    ("peer 10.0.0.1:7000 epoch=1 service=1 service=1", "1 twice"),
    ("connect p1", "1 word"),
    ("connect p1 first=2", "1 word"),
    ("connect c1 c2", "1 word"),
    ("connect p1 p0", "1 number"),
    ("poll s", "1 word"),
    ("poll c1", "1 word"),
    ("server 10.0.0.1:7000", "1 word"),
    ("client 10.0.0.1:7000 epoch=1", "1 word"),
    ("accept", "1 word"),
    ("jumbo %1 %2", "1 word"),
    ("forge p1 10.0.0.1:1 -", "1 word"),
    ("peer", "1 word"),
    ("peer 10.0.0.1:7000 epoch=", "1 number"),
    ("peer 10.0.0.1:7000 epoch=1 window=4294967296", "1 number"),
    ("peer 10.0.0.1:7000 epoch=1 first=1", "1 word"),
    (
        "peer 10.0.0.1:7000 epoch=1\n\npeer 10.0.0.1:07000",
        "3 twice",
    ),
    ("connect p1 p2 p3", "1 word"),
    ("invoke c1 4 FetchData []", "1 word"),
    ("invoke p1 4 Nothing []", "1 proc"),
    ("invoke p1 4 FetchStatus down []", "1 kind"),
    ("turn s", "1 word"),
    ("turn all", "1 word"),
    ("clock s 1", "1 word"),
    ("clock p1 4611686018427387904", "1 number"),
    ("cancel #1 0", "1 number"),
    ("ask @1", "1 word"),
    ("poll p4294967296", "1 number"),
    ("deliver #1", "1 word"),
    ("rounds 1000001", "1 number"),
    ("lossy -1 1", "1 number"),
    ("on FetchData", "1 word"),
];

#[test]
fn plans_of_peers_are_read(rt: HostRuntime) -> Result<(), Fail> {
    for (text, lines) in &PEERS {
        let given = peer_plan(rt.alloc(), text)?;
        assert!(rt; given.as_str() == *lines, "{text:?} gives {given}");
    }
    Ok(())
}
