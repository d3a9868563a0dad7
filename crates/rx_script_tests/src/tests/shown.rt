//! What a text gives, as a text.

use super::afs::interface;
use rx_model::{Host, Limits};
use rx_script::{
    Block, LineFault, Numbered, PeerLine, PeerNumbered, PlanLine, ScriptLine, Spelled,
    read_peer_plan, read_plan, read_script,
};
use std::alloc::{AllocError, Global};
use xdr_value::Value;

// ---- values

/// A value: numbers, `true`, content in hex, `[..]` of a list, `(TAG ARM)`, `none`, `some`, `void`.
#[cycle(shown)]
pub fn put_value(alloc: Global, out: &mut String, value: &Value) -> Result<(), AllocError> {
    match value {
        Value::Number(n) => out.push_str(format!(in alloc; "{n}")?.as_str()),
        Value::Flag(b) => out.push_str(format!(in alloc; "{b}")?.as_str()),
        Value::Octets(bytes) => out.push_str(hex::encode(alloc, bytes.as_slice())?.as_str()),
        Value::List(items) => put_values(alloc, out, items),
        Value::Union(tag, arm) => {
            out.push_str("(")?;
            put_value(alloc, out, tag)?;
            out.push_str(" ")?;
            put_value(alloc, out, arm)?;
            out.push_str(")")
        }
        Value::Maybe(inner) => match inner {
            None => out.push_str("none"),
            Some(inner) => {
                out.push_str("some ")?;
                put_value(alloc, out, inner)
            }
        },
        Value::Void => out.push_str("void"),
    }
}

#[cycle(shown)]
pub fn put_values(alloc: Global, out: &mut String, items: &Vec<Value>) -> Result<(), AllocError> {
    out.push_str("[")?;
    let mut is_first = true;
    for item in items {
        if !is_first {
            out.push_str(",")?;
        }
        is_first = false;
        put_value(alloc, out, item)?;
    }
    out.push_str("]")
}

fn value(alloc: Global, value: &Value) -> Result<String, AllocError> {
    let mut out = String::new(alloc);
    put_value(alloc, &mut out, value)?;
    Ok(out)
}

pub fn values(alloc: Global, items: &Vec<Value>) -> Result<String, AllocError> {
    let mut out = String::new(alloc);
    put_values(alloc, &mut out, items)?;
    Ok(out)
}

fn bytes(alloc: Global, bytes: &Spelled) -> Result<String, AllocError> {
    hex::encode(alloc, bytes.spell_out(alloc)?.as_slice())
}

fn host(alloc: Global, host: &Host) -> Result<String, AllocError> {
    format!(in alloc; "{}:{}", host.addr, host.port)
}

fn limits(alloc: Global, limits: &Limits) -> Result<String, AllocError> {
    format!(in alloc;
        "{},{},{},{}",
        limits.conns, limits.calls, limits.slots, limits.window
    )
}

fn key(alloc: Global, key: &Option<[u8; 32]>) -> Result<String, AllocError> {
    match key {
        None => String::from_str(alloc, "-"),
        Some(key) => hex::encode(alloc, key.as_slice()),
    }
}

fn up(alloc: Global, up: &Option<Spelled>) -> Result<String, AllocError> {
    match up {
        None => String::from_str(alloc, "-"),
        Some(sent) => format!(in alloc; "up={}", bytes(alloc, sent)?),
    }
}

// ---- plans

fn node_line(alloc: Global, line: &PlanLine) -> Result<String, AllocError> {
    match line {
        PlanLine::Server {
            host: at,
            service,
            limits: most,
            key: with,
            nonce,
        } => {
            let at = host(alloc, at)?;
            let most = limits(alloc, most)?;
            let with = key(alloc, with)?;
            format!(in alloc; "server {at} {service} {most} {with} {nonce}")
        }
        PlanLine::Client {
            host: at,
            epoch,
            limits: most,
            key: with,
        } => {
            let at = host(alloc, at)?;
            let most = limits(alloc, most)?;
            let with = key(alloc, with)?;
            format!(in alloc; "client {at} {epoch} {most} {with}")
        }
        PlanLine::Connect { client, first } => format!(in alloc; "connect {client} {first}"),
        PlanLine::Call { client, cid } => format!(in alloc; "call {client} {cid}"),
        other => call_line(alloc, other),
    }
}

fn call_line(alloc: Global, line: &PlanLine) -> Result<String, AllocError> {
    match line {
        PlanLine::Write { call, bytes: sent } => {
            format!(in alloc; "write #{call} {}", bytes(alloc, sent)?)
        }
        PlanLine::Shut { call } => format!(in alloc; "shut #{call}"),
        PlanLine::Read { call, max } => format!(in alloc; "read #{call} {max}"),
        PlanLine::Ask { call } => format!(in alloc; "ask #{call}"),
        PlanLine::Cancel { call, code } => format!(in alloc; "cancel #{call} {code}"),
        PlanLine::Accept => String::from_str(alloc, "accept"),
        PlanLine::HandlerRead { call, max } => format!(in alloc; "read @{call} {max}"),
        PlanLine::HandlerWrite { call, bytes: sent } => {
            format!(in alloc; "write @{call} {}", bytes(alloc, sent)?)
        }
        PlanLine::Finish { call, code } => format!(in alloc; "finish @{call} {code}"),
        other => net_line(alloc, other),
    }
}

fn net_line(alloc: Global, line: &PlanLine) -> Result<String, AllocError> {
    match line {
        PlanLine::Poll { node } => format!(in alloc; "poll {node}"),
        PlanLine::Deliver { packet } => format!(in alloc; "deliver %{packet}"),
        PlanLine::Jumbo { first, last } => format!(in alloc; "jumbo %{first} %{last}"),
        PlanLine::Forge {
            node,
            host: at,
            bytes: sent,
        } => {
            let at = host(alloc, at)?;
            let sent = bytes(alloc, sent)?;
            format!(in alloc; "forge {node} {at} {sent}")
        }
        PlanLine::Clock { node, now } => format!(in alloc; "clock {node:?} {now}"),
        PlanLine::Turn { node } => format!(in alloc; "turn {node}"),
        PlanLine::Rounds { rounds } => format!(in alloc; "rounds {rounds}"),
        PlanLine::Lossy { number, rounds } => format!(in alloc; "lossy {number} {rounds}"),
        PlanLine::Invoke {
            client,
            cid,
            proc,
            up: sent,
            down,
            args,
        } => {
            let sent = up(alloc, sent)?;
            let args = values(alloc, args)?;
            format!(in alloc;
                "invoke {client} {cid} {} {sent} {down} {args}",
                proc.as_str()
            )
        }
        _ => String::from_str(alloc, "?"),
    }
}

fn numbered(alloc: Global, line: &Numbered) -> Result<String, AllocError> {
    let said = node_line(alloc, &line.what)?;
    format!(in alloc; "{} {said};", line.line)
}

fn fault(alloc: Global, fault: LineFault) -> Result<String, AllocError> {
    match fault {
        LineFault::BadLine { line, why } => format!(in alloc; "{line} {why}"),
        LineFault::OutOfMemory => Err(AllocError),
    }
}

/// The lines of the plan that a text is, or its fault.
pub fn plan(alloc: Global, text: &str) -> Result<String, AllocError> {
    let iface = interface(alloc)?;
    match read_plan(alloc, &iface, text) {
        Ok(plan) => {
            let mut all = String::new(alloc);
            for line in &plan.lines {
                all.push_str(numbered(alloc, line)?.as_str())?;
            }
            Ok(all)
        }
        Err(why) => fault(alloc, why),
    }
}

// ---- plans of peers

fn peer_line(alloc: Global, line: &PeerLine) -> Result<String, AllocError> {
    match line {
        PeerLine::Peer {
            host: at,
            epoch,
            service,
            limits: most,
        } => {
            let at = host(alloc, at)?;
            let most = limits(alloc, most)?;
            format!(in alloc; "peer {at} {epoch} {service} {most}")
        }
        PeerLine::Connect { peer, to } => format!(in alloc; "connect {peer} {to}"),
        PeerLine::Invoke {
            peer,
            cid,
            proc,
            up: sent,
            down,
            args,
        } => {
            let sent = up(alloc, sent)?;
            let args = values(alloc, args)?;
            format!(in alloc;
                "invoke {peer} {cid} {} {sent} {down} {args}",
                proc.as_str()
            )
        }
        other => peer_net_line(alloc, other),
    }
}

fn peer_net_line(alloc: Global, line: &PeerLine) -> Result<String, AllocError> {
    match line {
        PeerLine::Cancel { call, code } => format!(in alloc; "cancel #{call} {code}"),
        PeerLine::Ask { call } => format!(in alloc; "ask #{call}"),
        PeerLine::Poll { peer } => format!(in alloc; "poll {peer}"),
        PeerLine::Deliver { packet } => format!(in alloc; "deliver %{packet}"),
        PeerLine::Clock { peer, now } => format!(in alloc; "clock {peer:?} {now}"),
        PeerLine::Turn { peer } => format!(in alloc; "turn {peer}"),
        PeerLine::Rounds { rounds } => format!(in alloc; "rounds {rounds}"),
        PeerLine::Lossy { number, rounds } => format!(in alloc; "lossy {number} {rounds}"),
        _ => String::from_str(alloc, "?"),
    }
}

fn peer_numbered(alloc: Global, line: &PeerNumbered) -> Result<String, AllocError> {
    let said = peer_line(alloc, &line.what)?;
    format!(in alloc; "{} {said};", line.line)
}

/// The lines of the plan of peers that a text is, or its fault.
pub fn peer_plan(alloc: Global, text: &str) -> Result<String, AllocError> {
    let iface = interface(alloc)?;
    match read_peer_plan(alloc, &iface, text) {
        Ok(plan) => {
            let mut all = String::new(alloc);
            for line in &plan.lines {
                all.push_str(peer_numbered(alloc, line)?.as_str())?;
            }
            Ok(all)
        }
        Err(why) => fault(alloc, why),
    }
}

// ---- scripts

fn script_line(alloc: Global, line: &ScriptLine) -> Result<String, AllocError> {
    match line {
        ScriptLine::Wait(turns) => format!(in alloc; "wait {turns};"),
        ScriptLine::Up => String::from_str(alloc, "up;"),
        ScriptLine::Down => String::from_str(alloc, "down;"),
        ScriptLine::When {
            arg,
            value: is,
            code,
        } => {
            let is = value(alloc, is)?;
            format!(in alloc; "when {} {is} {code};", arg.as_str())
        }
        ScriptLine::Fail(code) => format!(in alloc; "fail {code};"),
        ScriptLine::Set { arg, value: to } => {
            let to = value(alloc, to)?;
            format!(in alloc; "set {} {to};", arg.as_str())
        }
        ScriptLine::Copy { arg, from } => {
            format!(in alloc; "copy {} {};", arg.as_str(), from.as_str())
        }
        ScriptLine::Size { arg, from } => {
            format!(in alloc; "size {} {};", arg.as_str(), from.as_str())
        }
        ScriptLine::Count(arg) => format!(in alloc; "count {};", arg.as_str()),
        ScriptLine::Echo => String::from_str(alloc, "echo;"),
        ScriptLine::Send(sent) => {
            let sent = hex::encode(alloc, sent.as_slice())?;
            format!(in alloc; "send {sent};")
        }
    }
}

fn block(alloc: Global, block: &Block) -> Result<String, AllocError> {
    let mut all = String::from_str(alloc, block.proc.as_str())?;
    all.push_str("{")?;
    for line in &block.lines {
        all.push_str(script_line(alloc, line)?.as_str())?;
    }
    all.push_str("}")?;
    Ok(all)
}

/// The blocks of the script that a text is, or its fault.
pub fn script(alloc: Global, text: &str) -> Result<String, AllocError> {
    let iface = interface(alloc)?;
    match read_script(alloc, &iface, text) {
        Ok(script) => {
            let mut all = String::new(alloc);
            for one in &script.blocks {
                all.push_str(block(alloc, one)?.as_str())?;
            }
            Ok(all)
        }
        Err(why) => fault(alloc, why),
    }
}
