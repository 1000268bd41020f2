//! Command descriptor blocks: READ, WRITE and VERIFY in their forms of 10, 16 and 32 bytes, and
//! READ CAPACITY(16) (SBC-3, 5.11 to 5.35).
#![tactic(auto)]

mod choice;
mod command;
mod decode;
mod encode;

pub use choice::{Dir2, choose};
pub use command::{Cdb, CdbFault, Rw};
