//! Scripts that aren't taken: the first line, and why.

use super::shown::script;
use std::process::Abort;
use std::test::Fail;

/// Texts, and the fault of each.
static FAULTS: [(&str, &str); 126] = [
    // words
    ("bogus", "1 word"),
    ("wait 1", "1 word"),
    ("up", "1 word"),
    ("# c\n\nsend 00", "3 word"),
    ("#on FetchData", "1 word"),
    ("on", "1 word"),
    ("on ", "1 word"),
    ("on  FetchData", "1 word"),
    ("on FetchData x", "1 word"),
    ("on FetchData ", "1 word"),
    ("On FetchData", "1 word"),
    ("on FetchData\n ", "2 word"),
    ("on FetchData\nwait", "2 word"),
    ("on FetchData\nwait 1 2", "2 word"),
    ("on FetchData\nup 1", "2 word"),
    ("on FetchData\nwhen", "2 word"),
    ("on FetchData\nwhen ", "2 word"),
    ("on FetchData\nwhen Pos", "2 word"),
    ("on FetchData\nwhen Pos ", "2 word"),
    ("on FetchData\nwhen Pos 1", "2 word"),
    ("on FetchData\nwhen Pos 1 2 3", "2 word"),
    ("on FetchData\nset Left", "2 word"),
    ("on FetchData\naccept", "2 word"),
    ("on FetchData\nround", "2 word"),
    ("on FetchData\nserver 10.0.0.1:7000", "2 word"),
    ("on FetchData\nwait ", "2 word"),
    ("on FetchData\nfail", "2 word"),
    ("on FetchData\nfail ", "2 word"),
    ("on FetchData\nfail 1 2", "2 word"),
    ("on FetchData\nwhen Pos 1 ", "2 word"),
    ("on FetchData\nset", "2 word"),
    ("on FetchData\nset ", "2 word"),
    ("on FetchData\nset Left ", "2 word"),
    ("on FetchData\nset Left 1 2", "2 word"),
    ("on FetchData\ncopy", "2 word"),
    ("on FetchData\ncopy ", "2 word"),
    ("on FetchData\ncopy Left", "2 word"),
    ("on FetchData\ncopy Left ", "2 word"),
    ("on FetchData\ncopy Left Pos x", "2 word"),
    ("on FetchData\nsize", "2 word"),
    ("on FetchData\nsize Left", "2 word"),
    ("on FetchData\ncount", "2 word"),
    ("on FetchData\ncount ", "2 word"),
    ("on FetchData\ncount Left x", "2 word"),
    ("on FetchData\necho x", "2 word"),
    ("on FetchData\nsend", "2 word"),
    ("on FetchData\nsend ", "2 word"),
    ("on FetchData\nsend 00 00", "2 word"),
    ("on FetchData\ndown x", "2 word"),
    // procedures
    ("on Nothing", "1 proc"),
    ("on fetchdata", "1 proc"),
    ("on Nothing x", "1 proc"),
    ("on FetchData\non Nothing", "2 proc"),
    // numbers
    ("on FetchData\nwait x", "2 number"),
    ("on FetchData\nwait 1001", "2 number"),
    ("on FetchData\nwait -0", "2 number"),
    ("on FetchData\nfail 0", "2 number"),
    ("on FetchData\nfail -0", "2 number"),
    ("on FetchData\nfail 2147483648", "2 number"),
    ("on FetchData\nwhen Pos 1 0", "2 number"),
    ("on FetchData\nsend 0F", "2 number"),
    ("on FetchData\nsend 16777217*00", "2 number"),
    ("on FetchData\nwait 4294967296", "2 number"),
    ("on FetchData\nfail x", "2 number"),
    ("on FetchData\nfail -2147483649", "2 number"),
    ("on FetchData\nwhen Pos 1 x", "2 number"),
    ("on FetchData\nsend x", "2 number"),
    ("on FetchData\nsend 1*5A", "2 number"),
    ("on FetchData\nsend 00*", "2 number"),
    // arguments
    ("on FetchData\nset Nothing 1", "2 arg"),
    ("on FetchData\nset Pos 1", "2 arg"),
    ("on FetchData\nwhen Left 1 2", "2 arg"),
    ("on FetchStatus\ncopy Kin Kin", "2 arg"),
    ("on FetchStatus\ncopy Mode Name", "2 arg"),
    ("on FetchStatus\nsize Kin Name", "2 arg"),
    ("on FetchStatus\nsize Mode Fid", "2 arg"),
    ("on FetchStatus\nsize Name Name", "2 arg"),
    ("on Give\ncopy Plain Body", "2 arg"),
    ("on Give\nsize Big Body", "2 arg"),
    ("on Give\ncount Big", "2 arg"),
    ("on Give\nsize Size Code", "2 arg"),
    ("on Give\ncount Note", "2 arg"),
    // an argument is judged before what stands to its right
    ("on FetchData\nset Pos x 1", "2 arg"),
    ("on FetchData\ncount Nothing", "2 arg"),
    ("on FetchData\ncount Pos", "2 arg"),
    ("on FetchData\ncopy Nothing Pos", "2 arg"),
    ("on FetchData\ncopy Left Nothing", "2 arg"),
    ("on FetchData\ncopy Left Left", "2 arg"),
    ("on FetchData\ncopy Left Fid", "2 arg"),
    ("on FetchData\nsize Left Nothing", "2 arg"),
    ("on FetchData\nsize Left Pos", "2 arg"),
    ("on FetchData\nwhen Nothing 1 1", "2 arg"),
    // JSON
    ("on FetchData\nset Left 1.0", "2 json"),
    ("on FetchData\nset Left 2147483648", "2 json"),
    ("on FetchData\nset Left {", "2 json"),
    ("on FetchData\nwhen Fid {\"Volume\":1} 0", "2 json"),
    ("on FetchStatus\nset Kin [1]", "2 json"),
    ("on FetchData\nwhen Pos true 1", "2 json"),
    ("on FetchData\nwhen Pos x 0", "2 json"),
    ("on FetchData\nset Left \"1\"", "2 json"),
    ("on FetchData\nset Left x y", "2 json"),
    ("on FetchData\nset Left [1]", "2 json"),
    ("on FetchStatus\nwhen Name \"a b\" 1", "2 json"),
    (
        "on FetchStatus\nwhen Fid {\"\\u0020Volume\":1,\"Vnode\":2,\"Unique\":3} 1",
        "2 json",
    ),
    (
        "on FetchStatus\nwhen Fid {\"Volume\":1,\"Vnode\":2,\"Unique\":3,\"\\u0020\":4} 1",
        "2 json",
    ),
    // streams
    ("on FetchStatus\nup", "2 kind"),
    ("on FetchStatus\ndown\nfail 1", "2 kind"),
    ("on FetchData\nfail 1\ncount Left\nwait 3", "3 kind"),
    ("on FetchData\nup\necho", "3 kind"),
    ("on FetchData\ndown\necho", "3 kind"),
    ("on FetchData\nup\nsend 00", "3 kind"),
    // a block's checks come where it ends, before the line that ends it; its lowest line counts
    ("on FetchStatus\nup\nwait x", "3 number"),
    (
        "on FetchStatus\nfail 1\nsend 00\ndown\non Nothing",
        "3 kind",
    ),
    // twice
    ("on FetchData\nwait 1\nwait x", "3 twice"),
    ("on FetchData\nup\nup x", "3 twice"),
    ("on FetchData\ndown\nup\ndown", "4 twice"),
    (
        "on FetchData\non FetchStatus\nwait 1\non FetchData x",
        "4 twice",
    ),
    ("on FetchStatus\nup\non FetchStatus", "2 kind"),
    ("on FetchStatus\ncount Mode", "2 kind"),
    ("on FetchStatus\necho", "2 kind"),
    ("on FetchStatus\nsend -", "2 kind"),
    ("on FetchStatus\nup\nbogus", "3 word"),
    ("on FetchStatus\nup\n\n# c\non FetchData x", "2 kind"),
    ("on FetchData\necho\ndown\non FetchStatus\nup", "2 kind"),
    ("on FetchData\nup\ndown\non FetchStatus\ndown", "5 kind"),
    ("on FetchData\nwait 1\nup\nwait 1\nup", "4 twice"),
];

#[test]
fn scripts_are_refused(rt: HostRuntime) -> Result<(), Fail> {
    for (text, fault) in &FAULTS {
        let given = script(rt.alloc(), text)?;
        assert!(rt; given.as_str() == *fault, "{text:?} gives {given}");
    }
    Ok(())
}

#[test]
fn a_stream_line_is_refused(rt: HostRuntime) -> Result<(), Fail> {
    let given = script(rt.alloc(), "on FetchStatus\nup")?;
    assert_eq!(rt; given.as_str(), "2 kind");
    Ok(())
}
