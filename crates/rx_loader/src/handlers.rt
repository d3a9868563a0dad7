//! What the server of a load serves: `Take(IN opaque Body<4096>, OUT afs_uint32 Size) = 1`, which answers how long its
//! Body is.
ghost use Rattle.std.specs.Prelude.{◌≡◌, ◌∷◌, ◌≤◌, [], IfOk, None};
ghost use Rattle.rx_jobs.specs.Handlers.{handlers_of};
ghost use Rattle.rx_load.specs.Loads.{load_handlers, load_request, take_proc};
ghost use Rattle.rx_script.specs.Saying.{blocks_of};
ghost use Rattle.xdr_value.specs.View.{proc_of};

use rx_load::{BODY, BODY_BYTES, OPCODE, PROC, SIZE};
use rx_reply::request_bytes;
use rx_script::{Block, Script, ScriptLine};
use std::alloc::{AllocError, Global};
use xdr_value::{Arg, Interface, Mode, Proc, Ty, Value};

/// The interface of a load.
pub fn interface(alloc: Global) -> Result<Interface, AllocError>
    ensures { IfOk result (λ iface. handlers_of iface load_handlers.script ≡ load_handlers) }
{
    let mut procs = Vec::new(alloc);
    procs.push(take(alloc)?)?;
    Ok(Interface::make(
        Some(String::from_str(alloc, "LOAD_")?),
        None,
        Vec::new(alloc),
        procs,
    ))
}

/// The procedure that is called.
fn take(alloc: Global) -> Result<Proc, AllocError>
    ensures { IfOk result (λ proc. proc_of proc ≡ take_proc) }
{
    let mut args = Vec::new(alloc);
    args.push(Arg::make(alloc, Mode::In, BODY, Ty::OpaqueUpTo(BODY_BYTES))?)?;
    args.push(Arg::make(alloc, Mode::Out, SIZE, Ty::Uint)?)?;
    Ok(Proc {
        name: String::from_str(alloc, PROC)?,
        opcode: OPCODE,
        split: false,
        multi: false,
        args,
    })
}

/// The script of a load.
pub fn script(alloc: Global) -> Result<Script, AllocError>
    ensures { IfOk result (λ script. blocks_of script.blocks.items ≡ load_handlers.script) }
{
    let mut lines = Vec::new(alloc);
    lines.push(ScriptLine::Size {
        arg: String::from_str(alloc, SIZE)?,
        from: String::from_str(alloc, BODY)?,
    })?;
    let mut blocks = Vec::new(alloc);
    blocks.push(Block {
        proc: String::from_str(alloc, PROC)?,
        lines,
    })?;
    Ok(Script { blocks })
}

/// The bytes of the request of a call by its number, whose Body is so long.
pub fn request(
    alloc: Global,
    iface: &Interface,
    number: u32,
    length: u32,
) -> Result<Vec<u8>, AllocError>
    requires iface { handlers_of iface.now load_handlers.script ≡ load_handlers }
    requires few { length ≤ BODY_BYTES }
    ensures { IfOk result (λ bytes. bytes.items ≡ load_request number length) }
{
    let body = vec![in alloc; (number % 256) as u8; length as usize]?;
    let args = [Value::Octets(body)];
    let Some(take) = iface.procs.first() else {
        return Err(AllocError);
    };
    match request_bytes(alloc, iface, take, &args, None) {
        Ok(bytes) => Ok(bytes),
        Err(_) => Err(AllocError),
    }
}
