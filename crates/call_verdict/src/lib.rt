//! What both programs have in common: the words that name images and order units; and what a call
//! comes to, its verdict, by the command, with its status, and the text that it writes.
#![tactic(auto)]

mod ending;
mod reason;
mod status;
mod unit;
mod unit_list;
mod words;

pub use ending::{finish, refuse, status_for};
pub use reason::Reason;
pub use status::Status;
pub use unit::{type_of, unit_of};
pub use unit_list::UnitList;
pub use words::{image_of, is_name, laid_out};
