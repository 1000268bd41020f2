//! Protection information for callers in C, C++, Rust and Python: what `lib/dixpi.h` declares. Each export calls a
//! function of `pi_blocks`, `wide_blocks`, `wide_guard`, `device_commands` or `pi_guard` and states its clauses again, with a status in place
//! of a result. A slice is a pointer and a length in C.
//!
//! No export asks anything of its caller but that the memory is as `dixpi.h` says, which is outside of every proof.
#![tactic(auto)]

mod apart;
mod blocks;
mod commands;
mod device;
mod guards;
mod moves;
mod nvme;
mod runs;
mod senses;
mod single;
mod status;
mod texts;

pub use apart::{dixpi_dix_generate, dixpi_dix_verify, dixpi_dix_verify_from};
pub use blocks::{dixpi_generate, dixpi_remap, dixpi_verify, dixpi_verify_from};
pub use commands::{dixpi_cdb_decode, dixpi_cdb_encode};
pub use device::{dixpi_cdb_len, dixpi_command_decode, dixpi_command_encode, dixpi_protect_checks};
pub use guards::{dixpi_crc16, dixpi_crc16_after, dixpi_crc16v, dixpi_ip_sum, dixpi_ip_sumv};
pub use moves::{
    dixpi_generatev, dixpi_insert, dixpi_remapv, dixpi_strip, dixpi_strip_all, dixpi_verifyv,
};
pub use nvme::{
    dixpi_crc32c, dixpi_crc32c_after, dixpi_crc64_nvme, dixpi_crc64_nvme_after,
    dixpi_nvme_dix_generate, dixpi_nvme_dix_verify, dixpi_nvme_generate, dixpi_nvme_insert,
    dixpi_nvme_remap, dixpi_nvme_strip, dixpi_nvme_verify,
};
pub use runs::{dixpi_run_begin, dixpi_run_finish, dixpi_run_update};
pub use senses::{
    dixpi_sense_check, dixpi_sense_decode, dixpi_sense_describe, dixpi_sense_encode,
    dixpi_sense_find,
};
pub use single::{dixpi_check, dixpi_tuple_read, dixpi_tuple_write};
pub use status::dixpi_version;
pub use texts::{dixpi_check_name, dixpi_found_text, dixpi_status_text};
