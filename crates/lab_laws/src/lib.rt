//! Laws of `dixlab` that stand on those of `dix`: nothing here runs.
#![tactic(auto)]

mod again;
mod flips;
mod passing;
mod plain;

pub use again::{
    one_command_is_an_answer, one_exchange_is_an_answer, vectors_are_a_list_again,
    vectors_done_again_are_the_same_text, vectors_of_a_run_done_again_are_the_same_text,
};
pub use flips::no_flip_but_of_an_application_tag_is_unseen;
pub use passing::what_the_adapter_passes_the_target_takes;
pub use plain::a_plain_import_is_clean;
