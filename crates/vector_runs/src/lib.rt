//! The commands of a list done on a rig, and the lines of what came of them; and which scripts have such lines.
#![tactic(auto)]

mod answering;
mod doing;
mod playing;
mod printing;
mod range;
mod records;
mod scripts;
mod wanted;

pub use answering::answer_list;
pub use doing::do_list;
pub use playing::{Played, play_source, print_played};
pub use printing::{has_sense, print_list};
pub use range::out_of_range;
pub use records::print_records;
pub use scripts::unplayed;
