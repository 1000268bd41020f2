//! The six lines.

ghost use Rattle.std.specs.Prelude.{◌≡◌, ◌+◌, ◌≤◌, ◌++◌, codes, decimal, length};
ghost use Rattle.std.specs.Int.{w16, to_be_bytes};
ghost use Rattle.hex.specs.Hex.{encode_lower};
ghost use Rattle.big_run.specs.Text.{big_text, counts_text, end_text};

use crate::counting::OpCounts;
use crate::running::BigRun;
use report_text::{Line, add, add_number};

/// A space and the decimal digits of a number.
fn add_count(text: &mut Line, number: u64)
    requires { length text.old.items + 41 ≤ 512 }
    ensures items { text.new.items ≡ text.old.items ++ (codes " " ++ decimal number) }
    ensures bound { length text.new.items ≤ length text.old.items + 41 }
{
    add(text, b" ");
    add_number(text, number);
}

/// The four hexadecimal digits of a guard.
fn add_guard(text: &mut Line, guard: u16)
    requires { length text.old.items + 4 ≤ 512 }
    ensures items { text.new.items ≡ text.old.items ++ encode_lower (to_be_bytes w16 guard) }
    ensures bound { length text.new.items ≤ length text.old.items + 4 }
{
    let mut digits = [0u8; 4];
    match hex::encode_to_slice(&guard.to_be_bytes(), &mut digits) {
        Ok(()) => add(text, &digits),
        Err(_) => unreachable!(),
    }
}

fn add_counts(text: &mut Line, counts: OpCounts)
    requires { length text.old.items ≤ 96 }
    ensures items { text.new.items ≡ text.old.items ++ counts_text counts }
    ensures bound { length text.new.items ≤ length text.old.items + 257 }
{
    add(text, b"\nops");
    add_count(text, u64::from(counts.writes));
    add_count(text, u64::from(counts.reads));
    add_count(text, u64::from(counts.fills));
    add_count(text, u64::from(counts.shows));
    add(text, b"\nblocks");
    add_count(text, u64::from(counts.blocks_written));
    add_count(text, u64::from(counts.blocks_read));
}

fn add_end(text: &mut Line, run: BigRun)
    requires { length text.old.items ≤ 353 }
    ensures { text.new.items ≡ text.old.items ++ end_text run }
{
    add(text, b"\nbad");
    add_count(text, run.bad);
    add(text, b"\nexchanges");
    add_count(text, u64::from(run.exchanges));
    add(text, b"\nsum ");
    add_guard(text, run.sum);
    add(text, b"\n");
}

/// The lines of the run of `n` ops from this seed: its words; its writes, reads, fills and shows; the
/// blocks of the writes and of the reads; the blocks that failed; the commands after those that ask the
/// devices what they are; and the CRC guard of the report.
pub fn big_text(n: u32, seed: u32, run: BigRun) -> Line
    ensures { result.items ≡ big_text n seed run }
{
    let mut text = Line::new();
    add(&mut text, b"big");
    add_count(&mut text, u64::from(n));
    add_count(&mut text, u64::from(seed));
    add_counts(&mut text, run.counts);
    add_end(&mut text, run);
    text
}
