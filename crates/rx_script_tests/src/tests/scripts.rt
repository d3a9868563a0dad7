//! Scripts that are read, with their blocks.

use super::shown::script;
use std::process::Abort;
use std::test::Fail;

/// Scripts, and their blocks.
static SCRIPTS: [(&str, &str); 25] = [
    ("", ""),
    ("# c\n\n", ""),
    ("on FetchStatus", "FetchStatus{}"),
    (
        "on FetchStatus\n\n# c\non FetchData\n",
        "FetchStatus{}FetchData{}",
    ),
    ("on FetchStatus\nwait 0", "FetchStatus{wait 0;}"),
    (
        "on FetchStatus\nwait 1000\nfail -5",
        "FetchStatus{wait 1000;fail -5;}",
    ),
    (
        "on FetchStatus\nfail 13\nfail 14\nwait 0007",
        "FetchStatus{fail 13;fail 14;wait 7;}",
    ),
    (
        "on FetchStatus\nfail 2147483647\nfail -2147483648",
        "FetchStatus{fail 2147483647;fail -2147483648;}",
    ),
    (
        "on FetchStatus\nwhen Name \"a\\u0020b\" 7",
        "FetchStatus{when Name 612062 7;}",
    ),
    (
        "on FetchStatus\nwhen Mode 420 -7\nwhen Mode 420 8",
        "FetchStatus{when Mode 420 -7;when Mode 420 8;}",
    ),
    (
        "on FetchStatus\nset Kin [{\"Volume\":1,\"Vnode\":2,\"Unique\":3}]\nset Mode 5",
        "FetchStatus{set Kin [[1,2,3]];set Mode 5;}",
    ),
    (
        "on FetchStatus\nwhen Fid {\"Vnode\":2,\"Unique\":3,\"Volume\":1} 1",
        "FetchStatus{when Fid [1,2,3] 1;}",
    ),
    (
        "on FetchStatus\nwhen Fid {\"\\u0056olume\":1,\"Vnode\":2,\"Unique\":3} 1",
        "FetchStatus{when Fid [1,2,3] 1;}",
    ),
    (
        "on FetchData\ncopy Left Pos\ncopy Left Length",
        "FetchData{copy Left Pos;copy Left Length;}",
    ),
    ("on FetchData\nsend 0*5a\ndown", "FetchData{send ;down;}"),
    (
        "on FetchStatus\nsize Mode Name",
        "FetchStatus{size Mode Name;}",
    ),
    (
        "on Store\ncopy Data Data\ncopy Data Data",
        "Store{copy Data Data;copy Data Data;}",
    ),
    (
        "on Link\nset Chain {\"v\":1,\"next\":[{\"v\":2,\"next\":[]}]}",
        "Link{set Chain [1,some [2,none]];}",
    ),
    (
        "on FetchData\nup\ndown\necho\ncount Left",
        "FetchData{up;down;echo;count Left;}",
    ),
    // what a line needs may stand behind it
    (
        "on FetchData\necho\ncount Left\ndown\nup",
        "FetchData{echo;count Left;down;up;}",
    ),
    (
        "on FetchData\ndown\nsend 3*5a\nsend -",
        "FetchData{down;send 5a5a5a;send ;}",
    ),
    ("on FetchData\ndown", "FetchData{down;}"),
    (
        "on Give\ncopy Same Body\nset Note {\"hex\":\"Ff\"}\ncopy Code Code",
        "Give{copy Same Body;set Note ff;copy Code Code;}",
    ),
    // names of types are looked through
    (
        "on Give\nsize Size Body\nsize Code Note\nup\ncount Size",
        "Give{size Size Body;size Code Note;up;count Size;}",
    ),
    (
        "on Give\nset Big -9223372036854775808\nset Plain \"00fF\"",
        "Give{set Big -9223372036854775808;set Plain 00ff;}",
    ),
];

#[test]
fn scripts_are_read(rt: HostRuntime) -> Result<(), Fail> {
    for (text, blocks) in &SCRIPTS {
        let given = script(rt.alloc(), text)?;
        assert!(rt; given.as_str() == *blocks, "{text:?} gives {given}");
    }
    Ok(())
}
