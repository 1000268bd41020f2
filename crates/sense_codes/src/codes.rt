//! The sense keys and the additional sense codes that are used here (SPC-4, 4.5.6).

/// The sense key MEDIUM ERROR.
pub const MEDIUM_ERROR: u8 = 0x03;
/// The sense key ILLEGAL REQUEST.
pub const ILLEGAL_REQUEST: u8 = 0x05;
/// The sense key ABORTED COMMAND.
pub const ABORTED_COMMAND: u8 = 0x0B;

/// WRITE ERROR.
pub const WRITE_ERROR: u8 = 0x0C;
/// A check of protection information failed; the qualifier says which.
pub const PROTECTION: u8 = 0x10;
/// UNRECOVERED READ ERROR.
pub const UNRECOVERED_READ: u8 = 0x11;
/// INVALID COMMAND OPERATION CODE.
pub const INVALID_OPCODE: u8 = 0x20;
/// LOGICAL BLOCK ADDRESS OUT OF RANGE.
pub const OUT_OF_RANGE: u8 = 0x21;
/// INVALID FIELD IN CDB.
pub const INVALID_FIELD: u8 = 0x24;
