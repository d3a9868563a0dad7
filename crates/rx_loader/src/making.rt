//! The whole of a load.
ghost use Rattle.std.specs.Prelude.{◌≡◌, ◌≤◌, None};
ghost use Rattle.rx_loader.specs.Loaded.{LoadIs, LoadKeeps, loaded_of};
ghost use Rattle.rx_stage.specs.Tells.{told};

use crate::handlers::interface;
use crate::loading::Loading;
use rx_base::Sink;
use rx_load::{Loaded, MAX_CALLS, Summary, loads_keep_promises};
use rx_stage::Stop;
use rx_wire::Journal;
use std::alloc::Global;

/// Four clients call a server over a network that loses, repeats and holds datagrams as words of a generator say, which
/// begins with this number; so many calls are made, each with a Body of up to 4,096 bytes, as many as words say. Each
/// event is noted. It ends where every call ended at its client, or 1,000,000 rounds were made; or it is out of memory
/// where memory was wanted, or where one polling or turn went on for 2^64 - 1 events. How far it is is shown on `err`.
pub fn load<E: Sink, J: Journal>(
    alloc: Global,
    number: u64,
    calls: u32,
    err: &mut E,
    book: &mut J,
) -> Loaded
    requires { (1 ≤ calls) × (calls ≤ MAX_CALLS) }
    ensures load { LoadIs number calls result (told (J.told book.old) None 0) (told (J.told book.new) None 0) }
    ensures promises { LoadKeeps number calls result (told (J.told book.old) None 0) (told (J.told book.new) None 0) }
    ensures err_told { E.told err.new ≡ E.told err.old }
    ensures err_faults { E.faults err.new ≡ E.faults err.old }
{
    loads_keep_promises();
    let ran = run(alloc, number, calls, err, book);
    err.show("");
    loaded_of(ran)
}

/// How a load ended.
fn loaded_of(ran: Result<Summary, Stop>) -> Loaded
    ensures { result ≡ loaded_of ran }
{
    match ran {
        Ok(summary) => Loaded::Ran(summary),
        Err(_) => Loaded::OutOfMemory,
    }
}

/// Makes a load, and answers what became of it, or why it stopped.
fn run<E: Sink, J: Journal>(
    alloc: Global,
    number: u64,
    calls: u32,
    err: &mut E,
    book: &mut J,
) -> Result<Summary, Stop>
    requires { calls ≤ MAX_CALLS }
    ensures load { LoadIs number calls (loaded_of result)
        (told (J.told book.old) None 0) (told (J.told book.new) None 0) }
    ensures err_told { E.told err.new ≡ E.told err.old }
    ensures err_faults { E.faults err.new ≡ E.faults err.old }
{
    let iface = interface(alloc)?;
    let mut loading = Loading::begin(alloc, number, calls)?;
    loading.connect_all(book)?;
    loading.make_rounds(&iface, calls, err, book)?;
    Ok(loading.summary(calls))
}
