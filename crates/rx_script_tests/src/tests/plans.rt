//! Plans that are read, with their lines.

use super::shown::plan;
use std::process::Abort;
use std::test::Fail;

/// Plans, and their lines.
static PLANS: [(&str, &str); 48] = [
    ("", ""),
    ("\n", ""),
    ("# ", ""),
    ("# c\n\naccept\n\n# accept\npoll s\n", "3 accept;6 poll 0;"),
    (
        "server 10.0.0.1:7000",
        "1 server 167772161:7000 1 1024,64,2048,32 - 0;",
    ),
    (
        "server 010.00.000.0001:07000",
        "1 server 167772161:7000 1 1024,64,2048,32 - 0;",
    ),
    (
        "server 255.255.255.255:65535",
        "1 server 4294967295:65535 1 1024,64,2048,32 - 0;",
    ),
    (
        "server 0.0.0.0:0 service=0",
        "1 server 0:0 0 1024,64,2048,32 - 0;",
    ),
    (
        "server 0.0.0.0:0 service=65535",
        "1 server 0:0 65535 1024,64,2048,32 - 0;",
    ),
    (
        "server 0.0.0.0:0 window=255 slots=9 calls=2 conns=1",
        "1 server 0:0 1 1,2,9,255 - 0;",
    ),
    (
        "server 0.0.0.0:0 conns=0 calls=0 slots=0 window=0",
        "1 server 0:0 1 0,0,0,0 - 0;",
    ),
    (
        "server 0.0.0.0:0 conns=4294967295 calls=4294967295 slots=4294967295 window=4294967295",
        "1 server 0:0 1 4294967295,4294967295,4294967295,4294967295 - 0;",
    ),
    (
        "server 0.0.0.0:0 key=aaaaaaaaaaaaaaaaaaaaaaaaaaaaaaaaaaaaaaaaaaaaaaaaaaaaaaaaaaaaaaaa",
        "1 server 0:0 1 1024,64,2048,32 aaaaaaaaaaaaaaaaaaaaaaaaaaaaaaaaaaaaaaaaaaaaaaaaaaaaaaaaaaaaaaaa 0;",
    ),
    (
        "server 0.0.0.0:0 nonce=18446744073709551615 \
        key=000102030405060708090a0b0c0d0e0f101112131415161718191a1b1c1d1e1f service=7",
        "1 server 0:0 7 1024,64,2048,32 \
        000102030405060708090a0b0c0d0e0f101112131415161718191a1b1c1d1e1f 18446744073709551615;",
    ),
    (
        "client 10.0.0.2:7001 epoch=9",
        "1 client 167772162:7001 9 1024,64,2048,32 -;",
    ),
    (
        "server 10.0.0.1:7000\nclient 10.0.0.2:7000 epoch=0\nclient 10.0.0.1:7001 epoch=4294967295\n\
        client 10.0.0.2:7000 epoch=00 calls=3 window=40",
        "1 server 167772161:7000 1 1024,64,2048,32 - 0;2 client 167772162:7000 0 1024,64,2048,32 -;\
        3 client 167772161:7001 4294967295 1024,64,2048,32 -;4 client 167772162:7000 0 1024,3,2048,40 -;",
    ),
    // a client above the server, and a second server, are no faults of the text
    (
        "client 10.0.0.1:7000 epoch=1\nserver 10.0.0.1:7000\nserver 10.0.0.1:7000",
        "1 client 167772161:7000 1 1024,64,2048,32 -;2 server 167772161:7000 1 1024,64,2048,32 - 0;\
        3 server 167772161:7000 1 1024,64,2048,32 - 0;",
    ),
    ("connect c1", "1 connect 1 1;"),
    (
        "connect c4294967295 first=4294967295",
        "1 connect 4294967295 4294967295;",
    ),
    ("connect c0001 first=1", "1 connect 1 1;"),
    ("call c1 0", "1 call 1 0;"),
    ("call c2 4294967295", "1 call 2 4294967295;"),
    ("write #1 6f6b", "1 write #1 6f6b;"),
    ("write #1 -", "1 write #1 ;"),
    ("write #4294967295 0*5a", "1 write #4294967295 ;"),
    ("write @1 3*5a", "1 write @1 5a5a5a;"),
    ("write @1 0003*00", "1 write @1 000000;"),
    ("shut #2", "1 shut #2;"),
    ("read #1 1", "1 read #1 1;"),
    ("read @1 16777216", "1 read @1 16777216;"),
    (
        "ask #1\ncancel #1 7\ncancel #1 -2147483648",
        "1 ask #1;2 cancel #1 7;3 cancel #1 -2147483648;",
    ),
    ("accept\n", "1 accept;"),
    (
        "finish @1 0\nfinish @2 2147483647",
        "1 finish @1 0;2 finish @2 2147483647;",
    ),
    (
        "finish @1 -1\nfinish @1 0000",
        "1 finish @1 -1;2 finish @1 0;",
    ),
    ("poll s\npoll c1", "1 poll 0;2 poll 1;"),
    ("deliver %1", "1 deliver %1;"),
    ("jumbo %1 %2\njumbo %2 %1", "1 jumbo %1 %2;2 jumbo %2 %1;"),
    (
        "forge s 10.0.0.2:7001 00ff",
        "1 forge 0 167772162:7001 00ff;",
    ),
    ("forge c3 10.0.0.2:7001 -", "1 forge 3 167772162:7001 ;"),
    (
        "clock s 0\nclock c1 00012\nclock all 4611686018427387903",
        "1 clock Some(0) 0;2 clock Some(1) 12;3 clock None 4611686018427387903;",
    ),
    ("turn s\nturn c2", "1 turn 0;2 turn 2;"),
    (
        "round\nrounds 1\nrounds 1000000",
        "1 rounds 1;2 rounds 1;3 rounds 1000000;",
    ),
    (
        "lossy 0 1\nlossy 18446744073709551615 1000000",
        "1 lossy 0 1;2 lossy 18446744073709551615 1000000;",
    ),
    (
        "invoke c1 4 FetchStatus [{\"Volume\":1,\"Vnode\":2,\"Unique\":3},\"a\\u0020b\",420]",
        "1 invoke 1 4 FetchStatus - false [[1,2,3],612062,420];",
    ),
    (
        "invoke c1 4 FetchData up=616263 down [{\"Volume\":1,\"Vnode\":2,\"Unique\":3},0,3]",
        "1 invoke 1 4 FetchData up=616263 true [[1,2,3],0,3];",
    ),
    (
        "invoke c1 4 FetchData down up=- [{\"Volume\":1,\"Vnode\":2,\"Unique\":3},-1,3]",
        "1 invoke 1 4 FetchData up= true [[1,2,3],-1,3];",
    ),
    (
        "invoke c1 4 FetchStatus [{\"\\u0056olume\":1,\"Vnode\":2,\"Unique\":3},\"\\u0020\",0]",
        "1 invoke 1 4 FetchStatus - false [[1,2,3],20,0];",
    ),
    (
        "invoke c1 4 FetchData up=3*5a [{\"Volume\":1,\"Vnode\":2,\"Unique\":3},0,3]",
        "1 invoke 1 4 FetchData up=5a5a5a false [[1,2,3],0,3];",
    ),
];

#[test]
fn plans_are_read(rt: HostRuntime) -> Result<(), Fail> {
    for (text, lines) in &PLANS {
        let given = plan(rt.alloc(), text)?;
        assert!(rt; given.as_str() == *lines, "{text:?} gives {given}");
    }
    Ok(())
}
