//! What the run of a script means: the commands of its call in words, whose blocks each of them
//! carried, and where the blocks that its report lists stand in the script and lie on the devices. And
//! the run of a script that a source holds, which says of a script at fault what is wrong, and where.
#![tactic(auto)]

mod asked;
mod command;
mod explain;
mod guide;
mod labels;
mod laws;
mod ledger;
mod lies;
mod listed;
mod place;
mod records;
mod sense;
mod text;
mod unseen;
mod vectors;

pub use asked::Asked;
pub use explain::{Explained, Unexplained, explain_source};
pub use guide::{Guide, OpSite};
pub use laws::{
    a_lie_is_told_exactly_where_the_newest_write_brought_other_data,
    the_judged_data_are_those_in_the_pages, the_judged_data_are_those_of_the_walk,
    the_judged_frame_of_a_block_is_that_of_its_entry,
};
pub use ledger::{Ledger, Spot};
pub use lies::Lie;
pub use text::print_explained;
pub use vectors::vectors_text;
