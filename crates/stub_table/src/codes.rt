//! The codes that a stub answers (`rxgen_consts.h`, without `RXGEN_`), and the greatest stream.

/// The client can't write the request.
pub const CC_MARSHAL: i32 = -450;
/// The client can't read the reply.
pub const CC_UNMARSHAL: i32 = -451;
/// The server can't write the reply.
pub const SS_MARSHAL: i32 = -452;
/// The server can't read the request's arguments.
pub const SS_UNMARSHAL: i32 = -453;
/// The request ends before its opcode does.
pub const DECODE: i32 = -454;
/// No procedure has the request's opcode.
pub const OPCODE: i32 = -455;

/// How many bytes a request may have, its opcode counted, and a reply, without what is downloaded.
pub const MAX_STREAM_BYTES: usize = 65_536;
