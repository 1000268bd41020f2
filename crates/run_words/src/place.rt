//! Where the blocks of a volume lie, by its entries.

ghost use Rattle.std.specs.Prelude.{◌≡◌, ◌^◌, ◌<◌, IfNone, IfSome, None, Some, true};
ghost use Rattle.volume_table.specs.Entries.{IsInRange, entry_place, is_held};
ghost use Rattle.volume_table.specs.Places.{holder, place_in, volume_len};
ghost use Rattle.volume_table.specs.Tables.{IsTable, Table};

use volume_table::Entry;

/// Whether an entry has this virtual block.
fn is_held(entry: &Entry, v: u64) -> bool
    ensures { result ≡ is_held v entry.now }
{
    let (start, len) = match entry {
        Entry::Linear(linear) => (linear.start, linear.len),
        Entry::Stripe(stripe) => (stripe.start, stripe.len),
    };
    start <= v && v - start < len
}

/// The device and the address of a block of an entry.
fn entry_place(entry: &Entry, v: u64) -> (u32, u64)
    requires ranges { IsInRange entry.now }
    requires holds { is_held v entry.now ≡ true }
    requires fits { (entry_place entry.now v).1 < 2 ^ 64 }
    ensures { result ≡ entry_place entry.now v }
{
    match entry {
        Entry::Linear(linear) => linear.place(v),
        Entry::Stripe(stripe) => stripe.place(v),
    }
}

/// The entry that has a virtual block.
fn entry_of(entries: &[Entry], v: u64) -> Option<&Entry>
    ensures some { IfSome result (λ e. holder entries.now v ≡ Some e.now) }
    ensures none { IfNone result (holder entries.now v ≡ None) }
{
    let mut rest = entries;
    while let Some((entry, more)) = rest.split_first() {
        if is_held(entry, v) {
            return Some(entry);
        }
        rest = more;
    }
    None
}

/// The device and the address of a virtual block of the volume of these entries.
pub(crate) fn place_in(entries: &[Entry], v: u64) -> (u32, u64)
    requires table { (t : Table) × (t.entries ≡ entries.now) × IsTable t }
    requires inside { v < volume_len entries.now }
    ensures { result ≡ place_in entries.now v }
{
    match entry_of(entries, v) {
        Some(entry) => entry_place(entry, v),
        None => (0, 0),
    }
}
