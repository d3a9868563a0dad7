//! Command lines, and what each is read as.

use crate::{CallOptions, Command, ServeOptions, WordsFault, read_words};
use rx_model::{Host, Limits};
use std::alloc::{AllocError, Global};
use std::test::Fail;
use xg_lex::Text;

/// The words of a line, which stand between single spaces.
fn words_of(alloc: Global, line: &str) -> Result<Vec<String>, AllocError> {
    let mut words = Vec::new(alloc);
    for word in line.split(' ') {
        words.push(String::from_str(alloc, word)?)?;
    }
    Ok(words)
}

fn given(text: &Option<Text>) -> &str {
    match text {
        Some(text) => text.as_str(),
        None => "none",
    }
}

fn host(alloc: Global, host: Host) -> Result<String, AllocError> {
    let addr = host.addr;
    let port = host.port;
    format!(in alloc; "{addr:08x}:{port}")
}

fn limits(alloc: Global, limits: Limits) -> Result<String, AllocError> {
    let conns = limits.conns;
    let calls = limits.calls;
    let slots = limits.slots;
    let window = limits.window;
    format!(in alloc; "{conns}/{calls}/{slots}/{window}")
}

/// A command in one line, or the fault.
fn shown(alloc: Global, read: Result<Command, WordsFault>) -> Result<String, AllocError> {
    match read {
        Err(fault) => format!(in alloc; "{fault}"),
        Ok(Command::Sim(names)) => {
            let plan = names.plan.as_str();
            let xg = given(&names.xg);
            let script = given(&names.script);
            format!(in alloc; "Sim {plan} {xg} {script}")
        }
        Ok(Command::Serve(names, options)) => {
            let xg = names.xg.as_str();
            let script = names.script.as_str();
            let key = given(&names.key);
            let at = host(alloc, options.at)?;
            let most = limits(alloc, options.limits)?;
            let ServeOptions {
                service,
                span,
                turns,
                nonce,
                jumbo,
                ..
            } = options;
            format!(in alloc;
                "Serve {xg} {script} {at} {service} {span} {turns} {most} {key} {nonce} {jumbo}"
            )
        }
        Ok(Command::Call(asked, options)) => {
            let xg = asked.xg.as_str();
            let proc = asked.proc.as_str();
            let args = asked.args.as_str();
            let up = given(&asked.up);
            let down = asked.down;
            let key = given(&asked.key);
            let to = host(alloc, options.to)?;
            let from = host(alloc, options.from)?;
            let CallOptions {
                epoch,
                service,
                turns,
                window,
                jumbo,
                ..
            } = options;
            format!(in alloc;
                "Call {xg} {proc} {args} {to} {epoch} {from} {service} {turns} {up} {down} {window} {key} {jumbo}"
            )
        }
        Ok(Command::Compile(xg)) => {
            let xg = xg.as_str();
            format!(in alloc; "Compile {xg}")
        }
        Ok(Command::Load { number, calls }) => format!(in alloc; "Load {number} {calls}"),
        Ok(Command::Peers { xg, script, plan }) => {
            let xg = xg.as_str();
            let script = script.as_str();
            let plan = plan.as_str();
            format!(in alloc; "Peers {xg} {script} {plan}")
        }
    }
}

/// Lines, and what each is read as.
static TAKEN: [(&str, &str); 49] = [
    ("sim p", "Sim p none none"),
    ("sim p --xg a.xg", "Sim p a.xg none"),
    ("sim p --xg=a.xg --script=s", "Sim p a.xg s"),
    ("sim --script s --xg a.xg p", "Sim p a.xg s"),
    ("sim --xg a.xg p --script s", "Sim p a.xg s"),
    ("sim --xg a.xg -- p", "Sim p a.xg none"),
    ("sim p --", "Sim p none none"),
    ("sim -- -p", "Sim -p none none"),
    ("sim -- --", "Sim -- none none"),
    ("sim -- --xg", "Sim --xg none none"),
    ("sim -- --help", "Sim --help none none"),
    ("sim p --xg=-a", "Sim p -a none"),
    ("sim p --xg=--", "Sim p -- none"),
    ("sim p --xg=a=b", "Sim p a=b none"),
    ("sim p --xg a=b", "Sim p a=b none"),
    ("sim p --xg=", "Sim p  none"),
    ("sim ", "Sim  none none"),
    ("sim help", "Sim help none none"),
    ("compile a.xg", "Compile a.xg"),
    ("compile -- a.xg", "Compile a.xg"),
    ("load 1 40", "Load 1 40"),
    ("load 0 1", "Load 0 1"),
    (
        "load 18446744073709551615 10000",
        "Load 18446744073709551615 10000",
    ),
    ("load 007 0040", "Load 7 40"),
    ("peers a.xg s p", "Peers a.xg s p"),
    ("peers -- -a -s -p", "Peers -a -s -p"),
    (
        "serve a.xg s --at 10.0.0.1:7000",
        "Serve a.xg s 0a000001:7000 1 60000 1000000 16384/64/2048/32 none 0 1",
    ),
    (
        "serve --at=10.0.0.1:7000 a.xg s",
        "Serve a.xg s 0a000001:7000 1 60000 1000000 16384/64/2048/32 none 0 1",
    ),
    (
        "serve a.xg s --at 010.000.0.1:07000 --window 0032",
        "Serve a.xg s 0a000001:7000 1 60000 1000000 16384/64/2048/32 none 0 1",
    ),
    (
        "serve AFS.xg S.txt --at 10.0.0.1:7000 --for 5000",
        "Serve AFS.xg S.txt 0a000001:7000 1 5000 1000000 16384/64/2048/32 none 0 1",
    ),
    (
        "serve a.xg s --at 255.255.255.255:65535 --key k",
        "Serve a.xg s ffffffff:65535 1 60000 1000000 16384/64/2048/32 k 0 1",
    ),
    (
        "serve a.xg s --at 0.0.0.0:0 --key k --nonce 9",
        "Serve a.xg s 00000000:0 1 60000 1000000 16384/64/2048/32 k 9 1",
    ),
    (
        "serve a.xg s --nonce 9 --at 10.0.0.1:7000 --key k",
        "Serve a.xg s 0a000001:7000 1 60000 1000000 16384/64/2048/32 k 9 1",
    ),
    (
        "serve a.xg s --at 10.0.0.1:7000 --slots 65",
        "Serve a.xg s 0a000001:7000 1 60000 1000000 16384/64/65/32 none 0 1",
    ),
    (
        "serve a.xg s --at 10.0.0.1:7000 --calls 2047",
        "Serve a.xg s 0a000001:7000 1 60000 1000000 16384/2047/2048/32 none 0 1",
    ),
    (
        "serve a.xg s --at 10.0.0.1:7000 --service 0 --for 1 --turns 1 --jumbo 1",
        "Serve a.xg s 0a000001:7000 0 1 1 16384/64/2048/32 none 0 1",
    ),
    (
        "serve a.xg s --at 10.0.0.1:7000 --service 65535 --for 1099511627776 --turns 1000000000",
        "Serve a.xg s 0a000001:7000 65535 1099511627776 1000000000 16384/64/2048/32 none 0 1",
    ),
    (
        "serve a.xg s --at 10.0.0.1:7000 --conns 1 --calls 1 --slots 2 --window 32",
        "Serve a.xg s 0a000001:7000 1 60000 1000000 1/1/2/32 none 0 1",
    ),
    (
        "serve a.xg s --at 10.0.0.1:7000 --conns 65536 --calls 4096 --slots 65536 --window 255",
        "Serve a.xg s 0a000001:7000 1 60000 1000000 65536/4096/65536/255 none 0 1",
    ),
    (
        "serve a.xg s --at 10.0.0.1:7000 --jumbo=16 --nonce=18446744073709551615 --key=k",
        "Serve a.xg s 0a000001:7000 1 60000 1000000 16384/64/2048/32 k 18446744073709551615 16",
    ),
    (
        "call a.xg P [1] --to 10.0.0.1:7000 --epoch 1",
        "Call a.xg P [1] 0a000001:7000 1 7f000001:0 1 1000000 none false 32 none 1",
    ),
    (
        "call AFS.xg FetchStatus [1] --to 10.0.0.1:7000 --epoch 1",
        "Call AFS.xg FetchStatus [1] 0a000001:7000 1 7f000001:0 1 1000000 none false 32 none 1",
    ),
    (
        "call --epoch=1 --to=10.0.0.1:7000 -- a.xg P [1]",
        "Call a.xg P [1] 0a000001:7000 1 7f000001:0 1 1000000 none false 32 none 1",
    ),
    (
        "call a.xg P [{\"Volume\":1,\"Vnode\":2},-5] --to 10.0.0.1:7000 --epoch 1",
        "Call a.xg P [{\"Volume\":1,\"Vnode\":2},-5] 0a000001:7000 1 7f000001:0 1 1000000 none false 32 none 1",
    ),
    (
        "call a.xg P [1] --to 10.0.0.1:7000 --epoch 0 --down yes",
        "Call a.xg P [1] 0a000001:7000 0 7f000001:0 1 1000000 none true 32 none 1",
    ),
    (
        "call a.xg P [1] --to 10.0.0.1:7000 --epoch 4294967295 --down=yes",
        "Call a.xg P [1] 0a000001:7000 4294967295 7f000001:0 1 1000000 none true 32 none 1",
    ),
    (
        "call a.xg P [1] --to 10.0.0.1:7000 --epoch 1 --up u --key k",
        "Call a.xg P [1] 0a000001:7000 1 7f000001:0 1 1000000 u false 32 k 1",
    ),
    (
        "call a.xg P [1] --to 10.0.0.1:7000 --epoch 1 --from 10.0.0.2:7001 --service 52 --turns 5",
        "Call a.xg P [1] 0a000001:7000 1 0a000002:7001 52 5 none false 32 none 1",
    ),
    (
        "call a.xg P [1] --to 10.0.0.1:7000 --epoch 1 --window 255 --jumbo 4",
        "Call a.xg P [1] 0a000001:7000 1 7f000001:0 1 1000000 none false 255 none 4",
    ),
];

/// Lines that are no command.
static REFUSED: [&str; 123] = [
    // no command
    "",
    "help",
    "--help",
    "-h",
    "--version",
    "version",
    "Sim p",
    "sims p",
    " sim p",
    "-- sim p",
    "--xg a.xg sim p",
    "sim=p",
    // missing and surplus words
    "sim",
    "sim p q",
    "sim p ",
    "sim p -- q",
    "sim --xg a.xg",
    "compile",
    "compile a.xg b",
    "load 1",
    "load 1 40 2",
    "peers a.xg s",
    "peers a.xg s p q",
    "serve a.xg --at 10.0.0.1:7000",
    "serve a.xg s t --at 10.0.0.1:7000",
    "call a.xg P --to 10.0.0.1:7000 --epoch 1",
    "serve a.xg s",
    "call a.xg P [1] --epoch 1",
    "call a.xg P [1] --to 10.0.0.1:7000",
    // a single dash
    "sim -p",
    "sim -",
    "sim p -",
    "sim p -x",
    "sim p -xg a.xg",
    "sim p -xg=a.xg",
    "load -1 40",
    "compile -",
    // options without a value, or with one that begins with a dash
    "sim p --xg",
    "sim p --xg -a",
    "sim p --xg -",
    "sim p --xg --",
    "sim p --xg -- a.xg",
    "sim p --xg --script s",
    "call a.xg P [1] --to 10.0.0.1:7000 --epoch 1 --down",
    // an option twice
    "sim p --xg a.xg --xg b.xg",
    "sim p --xg a.xg --xg=a.xg",
    "sim --xg=a.xg p --xg a.xg",
    "serve a.xg s --at 10.0.0.1:7000 --at 10.0.0.1:7000",
    "serve a.xg s --at 10.0.0.1:7000 --for 1 --for 2",
    "call a.xg P [1] --to 10.0.0.1:7000 --epoch 1 --epoch 1",
    // unknown options
    "sim p --help",
    "sim --help",
    "sim help --help",
    "sim p --version",
    "sim p --Xg a.xg",
    "sim p --x a.xg",
    "sim p --xgs a.xg",
    "sim p --=a.xg",
    "sim p ---xg a.xg",
    "sim p --at 10.0.0.1:7000",
    "compile a.xg --xg b.xg",
    "load 1 40 --seed 1",
    "peers a.xg s p --key k",
    "serve a.xg s --at 10.0.0.1:7000 --epoch 1",
    "serve a.xg s --at 10.0.0.1:7000 --to 10.0.0.1:7000",
    "call a.xg P [1] --to 10.0.0.1:7000 --epoch 1 --at 10.0.0.1:7000",
    "call a.xg P [1] --to 10.0.0.1:7000 --epoch 1 --conns 1",
    "call a.xg P [1] --to 10.0.0.1:7000 --epoch 1 --key k --nonce 1",
    "call a.xg P [1] --to 10.0.0.1:7000 --epoch 1 --for 1",
    // one option without the other
    "sim p --script s",
    "sim p --script=s",
    "serve a.xg s --at 10.0.0.1:7000 --nonce 1",
    "serve a.xg s --at 10.0.0.1:7000 --nonce=0",
    // hosts
    "serve a.xg s --at 10.0.0.1",
    "serve a.xg s --at 10.0.0.256:1",
    "serve a.xg s --at 10.0.0.1:65536",
    "serve a.xg s --at 10.0.0:1",
    "serve a.xg s --at 10.0.0.1.2:1",
    "serve a.xg s --at 10.0.0.1:",
    "serve a.xg s --at 10.0.0.1:1:",
    "serve a.xg s --at 10..0.1:1",
    "serve a.xg s --at +10.0.0.1:1",
    "serve a.xg s --at localhost:1",
    "serve a.xg s --at :1",
    "serve a.xg s --at=",
    "call a.xg P [1] --to 10.0.0.1:7000 --epoch 1 --from 10.0.0.1",
    // numbers
    "load 1 0",
    "load 1 10001",
    "load 18446744073709551616 1",
    "load +1 40",
    "load 0x1 40",
    "load  40",
    "load 1 4a",
    "serve a.xg s --at 10.0.0.1:7000 --service 65536",
    "serve a.xg s --at 10.0.0.1:7000 --service=",
    "serve a.xg s --at 10.0.0.1:7000 --service +1",
    "serve a.xg s --at 10.0.0.1:7000 --for 0",
    "serve a.xg s --at 10.0.0.1:7000 --for 1099511627777",
    "serve a.xg s --at 10.0.0.1:7000 --turns 0",
    "serve a.xg s --at 10.0.0.1:7000 --turns 1000000001",
    "serve a.xg s --at 10.0.0.1:7000 --conns 0",
    "serve a.xg s --at 10.0.0.1:7000 --conns 65537",
    "serve a.xg s --at 10.0.0.1:7000 --calls 0",
    "serve a.xg s --at 10.0.0.1:7000 --calls 4097 --slots 65536",
    "serve a.xg s --at 10.0.0.1:7000 --slots 65537",
    "serve a.xg s --at 10.0.0.1:7000 --slots 64",
    "serve a.xg s --at 10.0.0.1:7000 --calls 2048",
    "serve a.xg s --at 10.0.0.1:7000 --calls 5 --slots 5",
    "serve a.xg s --at 10.0.0.1:7000 --window 31",
    "serve a.xg s --at 10.0.0.1:7000 --window 256",
    "serve a.xg s --at 10.0.0.1:7000 --jumbo 0",
    "serve a.xg s --at 10.0.0.1:7000 --jumbo 17",
    "serve a.xg s --at 10.0.0.1:7000 --key k --nonce 18446744073709551616",
    "serve a.xg s --at 10.0.0.1:7000 --key k --nonce=-1",
    "call a.xg P [1] --to 10.0.0.1:7000 --epoch 4294967296",
    "call a.xg P [1] --to 10.0.0.1:7000 --epoch=-1",
    "call a.xg P [1] --to 10.0.0.1:7000 --epoch 1 --down no",
    "call a.xg P [1] --to 10.0.0.1:7000 --epoch 1 --down Yes",
    "call a.xg P [1] --to 10.0.0.1:7000 --epoch 1 --down=",
    "call a.xg P [1] --to 10.0.0.1:7000 --epoch 1 --window 31",
    "call a.xg P [1] --to 10.0.0.1:7000 --epoch 1 --jumbo 17",
    "call a.xg P [1] --to 10.0.0.1:7000 --epoch 1 --turns 0",
    "call a.xg P [1] --to 10.0.0.1:7000 --epoch 1 --service 65536",
];

/// Reads a line.
fn read(alloc: Global, line: &str) -> Result<String, AllocError> {
    let words = words_of(alloc, line)?;
    let read = read_words(alloc, words.as_slice());
    shown(alloc, read)
}

#[test]
fn commands_are_read(rt: HostRuntime) -> Result<(), Fail> {
    let alloc = rt.alloc();
    for (line, command) in TAKEN.as_slice() {
        let text = read(alloc, line)?;
        assert_eq!(rt; text.as_str(), *command, "{line}");
    }
    Ok(())
}

#[test]
fn other_words_are_usage(rt: HostRuntime) -> Result<(), Fail> {
    let alloc = rt.alloc();
    for line in REFUSED.as_slice() {
        let text = read(alloc, line)?;
        assert_eq!(rt; text.as_str(), "usage", "{line}");
    }
    let none: Vec<String> = Vec::new(alloc);
    let text = shown(alloc, read_words(alloc, none.as_slice()))?;
    assert_eq!(rt; text.as_str(), "usage", "no words");
    Ok(())
}
