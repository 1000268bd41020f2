//! Blocks that lie in memory with their protection information (SBC-3, 4.22), checked, made and remapped in place: one
//! after another, each with its metadata behind its data, or data and metadata in buffers of their own.
//!
//! The structs are plain numbers in the layout of C. Each number has a meaning or is refused, so no call asks anything
//! of its caller. No call allocates.
#![tactic(auto)]

mod apart;
mod block;
mod checking;
mod commands;
mod inserting;
mod laws;
mod layout;
mod making;
mod mapping;
mod marks;
mod over_parts;
mod parts;
mod run;
mod seen;
mod sensing;
mod single;
mod spread;
mod stripping;
mod texts;
mod writing;

pub use apart::{dix_generate, dix_verify};
pub use block::{Found, Want};
pub use checking::verify;
pub use commands::CdbFields;
pub use inserting::insert;
pub use laws::{
    a_check_has_one_answer, a_described_sense_is_found, a_written_sense_is_found,
    commands_that_are_read_are_written, made_blocks_are_fine, making_writes_tuples_alone,
    mapped_blocks_stay_fine, mapping_back_undoes_mapping, mapping_changes_tags_alone,
    plain_commands_are_the_codecs, unread_bytes_tell_nothing,
};
pub use layout::{Layout, Refusal, Unchecked};
pub use making::generate;
pub use mapping::remap;
pub use over_parts::{generate_spread, remap_spread};
pub use parts::{Part, PartMut, crc16v, ip_sumv};
pub use run::Run;
pub use seen::Seen;
pub use sensing::SenseFields;
pub use single::{TupleFields, check};
pub use spread::verify_spread;
pub use stripping::{strip, strip_all};
pub use texts::{check_name, found_text, write_ended};
