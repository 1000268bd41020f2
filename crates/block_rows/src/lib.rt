//! The table of calls on blocks and their tuples.
#![tactic(auto)]

mod apart;
mod commands;
mod device;
mod guards;
mod in_line;
mod moves;
mod senses;
mod single;
mod wide;
mod words;

use pi_blocks::Layout;
use std::alloc::{AllocError, Global};
use test_table::{Judge, Words};

/// The layout of the rows from here on, as the table tells it.
#[derive(Drop)]
pub struct Table {
    layout: Layout,
}

impl Table {
    /// Of blocks of 512 bytes with their tuples behind, of type 1, which a CRC guards.
    pub fn new() -> Table {
        Table {
            layout: Layout {
                data_size: 512,
                meta_size: 8,
                tuple_at: 0,
                pi_type: 1,
                guard: 0,
            },
        }
    }
}

impl Judge for Table {
    fn set(&mut self, _alloc: Global, line: &str) -> Result<bool, AllocError> {
        let mut words = Words::of(line);
        if words.word() != "layout" {
            return Ok(false);
        }
        self.layout = Layout {
            data_size: words.small(),
            meta_size: words.small(),
            tuple_at: words.small(),
            pi_type: words.small(),
            guard: words.small(),
        };
        Ok(true)
    }

    fn answer(&mut self, alloc: Global, call: &str) -> Result<String, AllocError> {
        let mut words = Words::of(call);
        let layout = &self.layout;
        let name = words.word();
        match name {
            "verify" => in_line::verified(alloc, layout, &mut words),
            "generate" => in_line::generated(alloc, layout, &mut words),
            "remap" => in_line::remapped(alloc, layout, &mut words),
            "insert" => moves::inserted(alloc, layout, &mut words),
            "strip" => moves::stripped(alloc, layout, &mut words),
            "strip_all" => moves::all_stripped(alloc, layout, &mut words),
            "verifyv" => moves::verified(alloc, layout, &mut words),
            "generatev" => moves::spread_generated(alloc, layout, &mut words),
            "remapv" => moves::spread_remapped(alloc, layout, &mut words),
            "dix_verify" => apart::verified(alloc, layout, &mut words),
            "dix_generate" => apart::generated(alloc, layout, &mut words),
            "crc16v" | "ip_sumv" | "crc16_after" | "run_crc" | "run_ip" => {
                guards::summed(alloc, name, &mut words)
            }
            "check" => single::checked(alloc, &mut words),
            "tuple" => single::read(alloc, words.rest()),
            "cdb_encode" => commands::encoded(alloc, &mut words),
            "cdb_decode" => commands::decoded(alloc, words.rest()),
            "cdb_len" => device::counted(alloc, words.rest()),
            "command_encode" => device::encoded(alloc, &mut words),
            "command_decode" => device::decoded(alloc, words.rest()),
            "protect_checks" => device::asked(alloc, &mut words),
            "sense_encode" => senses::encoded(alloc, &mut words),
            "sense_decode" => senses::decoded(alloc, words.rest()),
            "crc32c" => wide::sum_of_32(alloc, &mut words),
            "crc64" => wide::sum_of_64(alloc, &mut words),
            "nvme_verify" => wide::verified(alloc, &mut words),
            "nvme_generate" => wide::generated(alloc, &mut words),
            "nvme_remap" => wide::remapped(alloc, &mut words),
            "sense_check" => senses::told(alloc, &mut words),
            _ => String::from_str(alloc, "no call"),
        }
    }
}
