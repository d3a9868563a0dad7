//! Laws over what the handlers' contracts cite, and the numbers of this crate.

ghost use Rattle.std.specs.Prelude.{◌≡◌, ◌++◌, ◌≤◌, false, length, true, Bool, ℕ, ℤ, List, Some};
ghost use Rattle.hex.specs.Hex.{IsBytes};
ghost use Rattle.rx_model.specs.declared.event.Event.{Event};
ghost use Rattle.rx_model.specs.declared.names.CallName.{CallName as Name};
ghost use Rattle.rx_script.specs.Served.{refusal};
ghost use Rattle.rx_jobs.specs.Dispatching.{Turning};
ghost use Rattle.rx_jobs.specs.Handlers.{Handlers, early_code, served_for, wait_of};
ghost use Rattle.rx_jobs.specs.History.{Drives, HaveKept, IsExactTurn};
ghost use Rattle.rx_jobs.specs.Jobs.{Moving};
ghost use Rattle.rx_jobs.specs.Keeping.{has_upload, kept_of};
ghost use Rattle.rx_jobs.specs.Lives.{IsExact, Lives, bytes_read};

use crate::job::OFFER_BYTES;

/// At most so many bytes are read or offered at a time.
pub fn numbers()
    ensures { OFFER_BYTES ≡ 4096 }
{}

/// A code that is decided while a request is read is the one that is served for each request that begins so, and one
/// that is decided behind its end that of the request.
pub fn early_codes_are_served()
    ensures begun { (g : Handlers) (request more : List ℕ) (code : ℤ) → IsBytes more
        → early_code g request false ≡ Some code
        → served_for g (request ++ more) ≡ refusal code }
    ensures ended { (g : Handlers) (request : List ℕ) (code : ℤ) → early_code g request true ≡ Some code
        → served_for g request ≡ refusal code }
{}

/// What is kept of a request while it is read serves as the whole: it has the same codes, the same wait and the same
/// answer; what is kept of it and of the bytes that follow is what is kept of them all; and it is at most 65,536 bytes,
/// or 16,842,756 where an upload stands behind the arguments.
pub fn kept_requests_serve()
    ensures served { (g : Handlers) (request : List ℕ) → served_for g (kept_of g request) ≡ served_for g request }
    ensures early { (g : Handlers) (request : List ℕ) (ended : Bool)
        → early_code g (kept_of g request) ended ≡ early_code g request ended }
    ensures waits { (g : Handlers) (request : List ℕ) → wait_of g (kept_of g request) ≡ wait_of g request }
    ensures joins { (g : Handlers) (request more : List ℕ)
        → kept_of g (kept_of g request ++ more) ≡ kept_of g (request ++ more) }
    ensures most { (g : Handlers) (request : List ℕ) → length (kept_of g request) ≤ 16842756 }
    ensures least { (g : Handlers) (request : List ℕ) → has_upload g request ≡ false
        → length (kept_of g request) ≤ 65536 }
{}

/// A job has of its request, wherever it is in its life, what is kept of the bytes that were read.
pub fn lives_keep_what_counts()
    ensures { (g : Handlers) (c : Name) (h : List Event) (m : Moving) → Lives g c h m
        → m.job.request ≡ kept_of g (bytes_read h) }
{}

/// In each history of a server that a dispatcher drives each of its jobs, in its step or not, has of its request what
/// is kept of the bytes that were read for its call.
pub fn turns_keep_what_counts()
    ensures { (g : Handlers) (t : Turning) (h : List Event) → Drives g t h → HaveKept g h t }
{}

/// Whatever a server answers a job, what the job writes begins the reply of its request, and it finishes with that
/// request's code, with 0 behind all of the reply, or with 0 where it was told that its call broke.
pub fn lives_are_exact()
    ensures { (g : Handlers) (c : Name) (h : List Event) (m : Moving) → Lives g c h m → IsExact g c h m }
{}

/// In each history of a server that a dispatcher drives, so are the lives of the calls of all its jobs, told by the
/// events of these calls: a job that is in its step, and one that waits for its next.
pub fn turns_are_exact()
    ensures { (g : Handlers) (t : Turning) (h : List Event) → Drives g t h → IsExactTurn g h t }
{}
