//! The files that commands read.

use super::row::bytes_of;
use rx_base::MemFiles;
use std::alloc::{AllocError, Global};

/// The interface of the worked examples.
const AFS: &str = "package RXAFS_\n\
    prefix S\n\
    struct AFSFid {\n  afs_uint32 Volume;\n  afs_uint32 Vnode;\n  afs_uint32 Unique;\n};\n\
    typedef AFSFid AFSCBFids<50>;\n\
    proc FetchData(IN AFSFid *Fid, afs_int32 Pos, afs_int32 Length,\n  OUT afs_int32 *Left) split = 130;\n\
    FetchStatus(IN AFSFid *Fid, IN string Name<256>,\n  INOUT afs_uint32 *Mode, OUT AFSCBFids *Kin) = 132;\n";

/// The plan one-call: a request, its handler, its reply, and the request again.
const ONE_CALL: &str = "server 10.0.0.1:7000\n\
    forge s 10.0.0.2:7001 0000000100000004000000010000000100000001010500000000000168690a\n\
    accept\nread @1 16\nread @1 16\nwrite @1 6f6b\nfinish @1 0\npoll s\npoll s\n\
    forge s 10.0.0.2:7001 0000000100000004000000010000000100000001010500000000000168690a\n\
    accept\n";

/// Texts by their names: interfaces with and without procedures, a script for each, and two plans.
static TEXTS: [(&str, &str); 6] = [
    ("AFS.xg", AFS),
    ("S.txt", "on FetchStatus\nset Kin []\n"),
    ("none.xg", ""),
    ("none.txt", ""),
    ("plan", "server 10.0.0.1:7000\naccept\naccept\naccept\n"),
    ("p", ONE_CALL),
];

/// These files, and `up`, which is 2,972 bytes. The reads with these numbers fail.
pub fn files(alloc: Global, failing: &[u64]) -> Result<MemFiles, AllocError> {
    let mut files = Vec::new(alloc);
    for (name, text) in &TEXTS {
        let bytes = Vec::from_slice(alloc, text.as_bytes())?;
        files.push((String::from_str(alloc, name)?, bytes))?;
    }
    let name = String::from_str(alloc, "up")?;
    files.push((name, bytes_of(alloc, "2972*5a")?))?;
    Ok(MemFiles::make(files, Vec::from_slice(alloc, failing)?))
}
