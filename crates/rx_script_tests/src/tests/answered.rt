//! What scripts answer and serve.

ghost use Rattle.std.specs.Prelude.{IfSome};
ghost use Rattle.std.specs.List.{Contains};
ghost use Rattle.xdr_value.specs.View.{proc_of, procs_of};

use super::afs::interface;
use super::shown::values;
use rx_script::{Answer, PlanLine, Served, read_plan, read_script};
use std::alloc::{AllocError, Global};
use std::borrow::CowSlice;
use std::process::Abort;
use std::test::Fail;
use xdr_value::Proc;

fn told(alloc: Global, answer: Answer<'_>) -> Result<String, AllocError> {
    match answer {
        Answer::Code(code) => format!(in alloc; "{code}"),
        Answer::Reply {
            values: all,
            download,
        } => format!(in alloc;
            "{} {}",
            values(alloc, &all)?,
            hex::encode(alloc, download)?
        ),
    }
}

/// The procedure of a name.
fn named<'a>(procs: &'a [Proc], name: &str) -> Option<&'a Proc>
    ensures { IfSome result (λ p. Contains (procs_of procs.now) (proc_of p.now)) }
{
    for p in procs {
        if p.name.as_str() == name {
            return Some(p);
        }
    }
    None
}

/// What a script answers the call of a line `invoke`, with the upload of that line.
fn answered(alloc: Global, script: &str, call: &str) -> Result<String, AllocError> {
    let iface = interface(alloc)?;
    let Ok(script) = read_script(alloc, &iface, script) else {
        return Err(AllocError);
    };
    let Ok(plan) = read_plan(alloc, &iface, call) else {
        return Err(AllocError);
    };
    for line in &plan.lines {
        if let PlanLine::Invoke { proc, up, args, .. } = &line.what {
            let Some(p) = named(&iface.procs, proc.as_str()) else {
                return Err(AllocError);
            };
            let sent = match up {
                None => CowSlice::Borrowed(&[]),
                Some(bytes) => bytes.spell_out(alloc)?,
            };
            let answer = script.answer(alloc, &iface, p, args, sent.as_slice())?;
            return told(alloc, answer);
        }
    }
    Err(AllocError)
}

const STATUS: &str = "invoke c1 4 FetchStatus [{\"Volume\":1,\"Vnode\":2,\"Unique\":3},\"a\",420]";

const DATA: &str =
    "invoke c1 4 FetchData up=616263 down [{\"Volume\":1,\"Vnode\":2,\"Unique\":3},0,3]";

const GIVE: &str = "invoke c1 4 Give up=0102 down [\"aabbcc\",\"note\",7]";

/// Scripts, calls, and the code or the values with the download.
static ANSWERS: [(&str, &str, &str); 22] = [
    // without a block all values are zero, with an empty one INOUT is as it came
    ("", STATUS, "[0,[]] "),
    ("on FetchStatus", STATUS, "[420,[]] "),
    (
        "on FetchStatus\nset Kin [{\"Volume\":1,\"Vnode\":2,\"Unique\":3}]",
        STATUS,
        "[420,[[1,2,3]]] ",
    ),
    ("on FetchStatus\nfail 13", STATUS, "13"),
    (
        "on FetchStatus\nfail 13\nwhen Mode 420 7\nwhen Mode 420 8\nfail 14",
        STATUS,
        "7",
    ),
    (
        "on FetchStatus\nwhen Mode 421 7\nwhen Name \"b\" 8",
        STATUS,
        "[420,[]] ",
    ),
    (
        "on FetchStatus\nwhen Fid {\"Volume\":1,\"Vnode\":2,\"Unique\":3} 9",
        STATUS,
        "9",
    ),
    // `when` looks at the arguments as they came
    (
        "on FetchStatus\nset Mode 5\nwhen Mode 5 7",
        STATUS,
        "[5,[]] ",
    ),
    ("on FetchStatus\nset Mode 5\nwhen Mode 420 7", STATUS, "7"),
    // the last line about an argument counts
    (
        "on FetchStatus\nset Mode 5\ncopy Mode Mode",
        STATUS,
        "[420,[]] ",
    ),
    (
        "on FetchStatus\ncopy Mode Mode\nset Mode 5",
        STATUS,
        "[5,[]] ",
    ),
    (
        "on FetchStatus\nset Mode 5\nsize Mode Name",
        STATUS,
        "[1,[]] ",
    ),
    (
        "on FetchData\nup\ndown\necho\ncount Left",
        DATA,
        "[3] 616263",
    ),
    ("on FetchData\nup\ndown\necho\nsend 00", DATA, "[0] 00"),
    (
        "on FetchData\nup\ndown\nsend 00\nsend 0102\nset Left -4",
        DATA,
        "[-4] 0102",
    ),
    (
        "on FetchData\nup\ndown\nsend 00\necho\nset Left 9\ncount Left",
        DATA,
        "[3] 616263",
    ),
    ("on FetchData\ndown", DATA, "[0] "),
    ("on Give\nup", GIVE, "[6e6f7465,7,0,,,0] "),
    (
        "on Give\nup\ncopy Same Body\nsize Size Body\nsize Code Note",
        GIVE,
        "[6e6f7465,4,3,aabbcc,,0] ",
    ),
    (
        "on Give\nup\ncount Size\nset Big 5\nset Plain \"0f\"",
        GIVE,
        "[6e6f7465,7,2,,0f,5] ",
    ),
    ("on Give\nup\nwhen Body \"aabbcc\" -9\nfail 1", GIVE, "-9"),
    ("on Give\nup\nwhen Body \"aabbcd\" -9\nfail 1", GIVE, "1"),
];

#[test]
fn scripts_answer(rt: HostRuntime) -> Result<(), Fail> {
    for (script, call, wanted) in &ANSWERS {
        let given = answered(rt.alloc(), script, call)?;
        assert!(rt; given.as_str() == *wanted, "{script:?} answers {given}");
    }
    Ok(())
}

/// What a script serves for a request in hex.
fn served(alloc: Global, script: &str, request: &str) -> Result<String, AllocError> {
    let iface = interface(alloc)?;
    let Ok(script) = read_script(alloc, &iface, script) else {
        return Err(AllocError);
    };
    let Ok(request) = hex::decode(alloc, request.as_bytes()) else {
        return Err(AllocError);
    };
    match script.serve(alloc, &iface, &request)? {
        Served::Code(code) => format!(in alloc; "{code}"),
        Served::Reply(bytes) => hex::encode(alloc, bytes.as_slice()),
    }
}

/// Scripts, requests, and the code or the reply.
static SERVED: [(&str, &str, &str); 16] = [
    (
        "on FetchStatus\nset Kin [{\"Volume\":1,\"Vnode\":2,\"Unique\":3}]",
        "000000840000000100000002000000030000000161000000000001a4",
        "000001a400000001000000010000000200000003",
    ),
    (
        "on FetchStatus\nfail 13",
        "000000840000000100000002000000030000000161000000000001a4",
        "13",
    ),
    (
        "",
        "000000840000000100000002000000030000000161000000000001a4",
        "0000000000000000",
    ),
    (
        "on FetchStatus",
        "000000840000000100000002000000030000000161000000000001a400",
        "000001a400000000",
    ),
    ("", "", "-454"),
    ("", "000000", "-454"),
    ("", "00000001", "-455"),
    (
        "",
        "000000840000000100000002000000030000000161000000000001",
        "-453",
    ),
    (
        "",
        "000000840000000100000002000000030000000161000100000001a4",
        "-453",
    ),
    (
        "on FetchData\nup\ndown\necho\ncount Left",
        "00000082000000010000000200000003000000000000000300000003616263",
        "0000000361626300000003",
    ),
    (
        "on FetchData\nup\ncount Left",
        "00000082000000010000000200000003000000000000000300000000",
        "00000000",
    ),
    (
        "on FetchData\nup\ncount Left",
        "00000082000000010000000200000003000000000000000300000001ffff",
        "00000001",
    ),
    (
        "on FetchData\nup\ncount Left",
        "000000820000000100000002000000030000000000000003000000",
        "-453",
    ),
    (
        "on FetchData\nup\ncount Left",
        "000000820000000100000002000000030000000000000003000000036162",
        "-453",
    ),
    (
        "on FetchData\nup\ncount Left",
        "00000082000000010000000200000003000000000000000301000001",
        "-453",
    ),
    (
        "on FetchData\ndown\nset Left -1\nsend 3*5a",
        "000000820000000100000002000000030000000000000003",
        "000000035a5a5affffffff",
    ),
];

#[test]
fn whole_requests_are_served(rt: HostRuntime) -> Result<(), Fail> {
    for (script, request, wanted) in &SERVED {
        let given = served(rt.alloc(), script, request)?;
        assert!(rt; given.as_str() == *wanted, "{script:?} serves {given}");
    }
    Ok(())
}

#[test]
fn a_value_too_deep_is_no_reply(rt: HostRuntime) -> Result<(), Fail> {
    let alloc = rt.alloc();
    let mut script = String::from_str(alloc, "on Link\nset Chain ")?;
    for _ in 1..33 {
        script.push_str("{\"v\":1,\"next\":[")?;
    }
    script.push_str("{\"v\":1,\"next\":[]}")?;
    for _ in 1..33 {
        script.push_str("]}")?;
    }
    let given = served(alloc, script.as_str(), "000000080000000100000000")?;
    assert_eq!(rt; given.as_str(), "-452");
    Ok(())
}
