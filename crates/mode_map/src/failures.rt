//! What each failure comes to in a mode: who finds it, at which op.

ghost use Rattle.std.specs.Prelude.{◌≡◌, not, ◌&&◌, ◌||◌};
ghost use Rattle.mode_map.specs.Failures.{adapter_asks_tag, astray_cell, carries, cell_if, failure_cell, flip_cell, found_if, guard_cell, hit_by_wire, is_unseen, read_astray, refused_astray, stored_guard, stored_tag, tag_cell, target_asks_guard, target_asks_tag, written_astray};

use crate::finder::Seen;
use bio_core::Dir;
use block_path::{Mode, host_type};
use fault_schedule::Crossing;
use pi_tuple::{PiType, has_ref_tag};

/// A part of a block's frame.
#[derive(Clone, Copy, Debug, PartialEq, Eq)]
pub enum Field {
    /// The data.
    Data,
    /// The guard of the tuple.
    Guard,
    /// Its application tag.
    App,
    /// Its reference tag.
    Ref,
}

/// Where an address is moved.
#[derive(Clone, Copy, Debug, PartialEq, Eq)]
pub enum Link {
    /// In the command, on its way to the target.
    OnWire,
    /// Behind the target's checks of the address, at the medium.
    OnMedium,
}

/// Which block is read after a misdirected write.
#[derive(Clone, Copy, Debug, PartialEq, Eq)]
pub enum Place {
    /// The one that was meant.
    Home,
    /// The one that was hit.
    Hit,
}

/// One thing that goes wrong, alone.
#[derive(Clone, Copy, Debug, PartialEq, Eq)]
pub enum Failure {
    /// Bits of a field are altered at a crossing: in a write, or in a read of the block as properly stored.
    Flip { field: Field, at: Crossing },
    /// A read fetches another block, as properly stored.
    MisdirectedRead(Link),
    /// A write goes to another block's place, and then this one is read.
    MisdirectedWrite { link: Link, read: Place },
    /// The disk acknowledges a write and stores none of it.
    Lost,
    /// It stores the first part alone.
    Torn,
    /// The medium can't store or send the block.
    Unreadable(Dir),
    /// In the block's place stands another block, under its own tuple.
    OtherBlock,
    /// In its place stands what was stored there earlier.
    OlderFrame,
}

/// What a failure comes to in a mode.
#[derive(Clone, Copy, Debug, PartialEq, Eq)]
pub enum Cell {
    /// A layer finds it, at the write or at the next read.
    Found { layer: Seen, at: Dir },
    /// The medium tells of it, at the write or at the read.
    Medium(Dir),
    /// Nobody finds it: the read delivers.
    Unseen,
    /// It depends on the condition of its row.
    Where,
    /// The crossing carries no tuple.
    NoTuple,
}

fn found_if(asks: bool, layer: Seen, at: Dir, other: Cell) -> Cell
    ensures { result ≡ found_if asks layer at other }
{
    if asks {
        Cell::Found { layer, at }
    } else {
        other
    }
}

/// The target compares the guard of a block's tuple with its data: where there is one, and not under protect field 011b.
fn target_asks_guard(mode: Mode, ty: PiType) -> bool
    ensures { result ≡ target_asks_guard mode ty }
{
    ty != PiType::Zero && mode.field(ty) != 3
}

/// It compares the reference tag: under protect field 001b, and of a stored block of type 1 under 000b.
fn target_asks_tag(mode: Mode, ty: PiType) -> bool
    ensures { result ≡ target_asks_tag mode ty }
{
    has_ref_tag(ty) && (mode.field(ty) == 1 || (mode.field(ty) == 0 && ty == PiType::One))
}

fn adapter_asks_tag(mode: Mode, ty: PiType) -> bool
    ensures { result ≡ adapter_asks_tag mode ty }
{
    mode.passes_tuples(ty) && has_ref_tag(ty)
}

fn carries(mode: Mode, ty: PiType, at: Crossing) -> bool
    ensures { result ≡ carries mode ty at }
{
    match at {
        Crossing::HostToAdapter | Crossing::AdapterToHost => mode.dix,
        Crossing::AdapterToTarget | Crossing::TargetToAdapter => mode.passes_tuples(ty),
        Crossing::TargetToMedium | Crossing::MediumToTarget => ty != PiType::Zero,
    }
}

/// Who finds a stored block whose guard isn't that of its data.
fn stored_guard(mode: Mode, ty: PiType) -> Cell
    ensures { result ≡ stored_guard mode ty }
{
    let behind = found_if(
        mode.passes_tuples(ty),
        Seen::Adapter,
        Dir::Read,
        Cell::Unseen,
    );
    found_if(target_asks_guard(mode, ty), Seen::Target, Dir::Read, behind)
}

/// Who finds one that bears another tag than that of its address.
fn stored_tag(mode: Mode, ty: PiType) -> Cell
    ensures { result ≡ stored_tag mode ty }
{
    let behind = found_if(
        adapter_asks_tag(mode, ty),
        Seen::Adapter,
        Dir::Read,
        Cell::Unseen,
    );
    found_if(target_asks_tag(mode, ty), Seen::Target, Dir::Read, behind)
}

fn guard_cell(mode: Mode, ty: PiType, at: Crossing) -> Cell
    ensures { result ≡ guard_cell mode ty at }
{
    match at {
        Crossing::HostToAdapter => Cell::Found {
            layer: Seen::Adapter,
            at: Dir::Write,
        },
        Crossing::AdapterToTarget => found_if(
            target_asks_guard(mode, ty),
            Seen::Target,
            Dir::Write,
            stored_guard(mode, ty),
        ),
        Crossing::TargetToMedium | Crossing::MediumToTarget => stored_guard(mode, ty),
        Crossing::TargetToAdapter => Cell::Found {
            layer: Seen::Adapter,
            at: Dir::Read,
        },
        Crossing::AdapterToHost => Cell::Found {
            layer: Seen::Owner,
            at: Dir::Read,
        },
    }
}

fn tag_cell(mode: Mode, ty: PiType, at: Crossing, turned: bool) -> Cell
    ensures { result ≡ tag_cell mode ty at turned }
{
    let hosted = has_ref_tag(host_type(ty));
    match at {
        Crossing::HostToAdapter => found_if(hosted, Seen::Adapter, Dir::Write, Cell::Unseen),
        Crossing::AdapterToTarget => found_if(
            target_asks_tag(mode, ty),
            Seen::Target,
            Dir::Write,
            stored_tag(mode, ty),
        ),
        Crossing::TargetToMedium | Crossing::MediumToTarget => stored_tag(mode, ty),
        Crossing::TargetToAdapter => found_if(
            has_ref_tag(ty),
            Seen::Adapter,
            Dir::Read,
            Cell::Unseen,
        ),
        Crossing::AdapterToHost => found_if(
            hosted && !turned,
            Seen::Owner,
            Dir::Read,
            Cell::Unseen,
        ),
    }
}

fn flip_cell(field: Field, at: Crossing, mode: Mode, ty: PiType, turned: bool) -> Cell
    ensures { result ≡ flip_cell field at mode ty turned }
{
    if !carries(mode, ty, at) {
        return match field {
            Field::Data => Cell::Unseen,
            Field::Guard | Field::App | Field::Ref => Cell::NoTuple,
        };
    }
    match field {
        Field::Data | Field::Guard => guard_cell(mode, ty, at),
        Field::App => Cell::Unseen,
        Field::Ref => tag_cell(mode, ty, at, turned),
    }
}

/// A read whose command names another address.
fn astray_cell(mode: Mode, ty: PiType) -> Cell
    ensures { result ≡ astray_cell mode ty }
{
    let behind = found_if(
        adapter_asks_tag(mode, ty),
        Seen::Adapter,
        Dir::Read,
        Cell::Unseen,
    );
    let asks = target_asks_tag(mode, ty) && ty != PiType::One;
    found_if(asks, Seen::Target, Dir::Read, behind)
}

/// A write whose command names another address is refused.
fn refused_astray(mode: Mode, ty: PiType) -> bool
    ensures { result ≡ refused_astray mode ty }
{
    mode.passes_tuples(ty) && target_asks_tag(mode, ty) && ty == PiType::One
}

fn hit_by_wire(mode: Mode, ty: PiType) -> Cell
    ensures { result ≡ hit_by_wire mode ty }
{
    if !mode.passes_tuples(ty) {
        return Cell::Unseen;
    }
    found_if(
        refused_astray(mode, ty),
        Seen::Target,
        Dir::Write,
        stored_tag(mode, ty),
    )
}

fn read_astray(link: Link, mode: Mode, ty: PiType) -> Cell
    ensures { result ≡ read_astray link mode ty }
{
    match link {
        Link::OnWire => astray_cell(mode, ty),
        Link::OnMedium => stored_tag(mode, ty),
    }
}

fn written_astray(link: Link, read: Place, mode: Mode, ty: PiType) -> Cell
    ensures { result ≡ written_astray link read mode ty }
{
    match (link, read) {
        (Link::OnWire, Place::Home) => {
            let refused = refused_astray(mode, ty);
            found_if(refused, Seen::Target, Dir::Write, Cell::Unseen)
        }
        (Link::OnWire, Place::Hit) => hit_by_wire(mode, ty),
        (Link::OnMedium, Place::Home) => Cell::Unseen,
        (Link::OnMedium, Place::Hit) => stored_tag(mode, ty),
    }
}

/// The cell where the failure's condition holds, or where it doesn't.
fn cell_if(failure: Failure, mode: Mode, ty: PiType, holds: bool) -> Cell
    ensures { result ≡ cell_if failure mode ty holds }
{
    match failure {
        Failure::Flip { field, at } => flip_cell(field, at, mode, ty, holds),
        Failure::MisdirectedRead(link) => read_astray(link, mode, ty),
        Failure::MisdirectedWrite { link, read } => written_astray(link, read, mode, ty),
        Failure::Torn => {
            if holds {
                Cell::Unseen
            } else {
                stored_guard(mode, ty)
            }
        }
        Failure::Unreadable(dir) => Cell::Medium(dir),
        Failure::OtherBlock => stored_tag(mode, ty),
        Failure::Lost | Failure::OlderFrame => Cell::Unseen,
    }
}

fn is_unseen(cell: Cell) -> bool
    ensures { result ≡ is_unseen cell }
{
    matches!(cell, Cell::Unseen)
}

/// What a failure comes to: `Where` where it is unseen if its condition holds, and is found else.
pub fn failure_cell(failure: Failure, mode: &Mode, ty: PiType) -> Cell
    ensures { result ≡ failure_cell failure mode.now ty }
{
    let holds = cell_if(failure, *mode, ty, true);
    let other = cell_if(failure, *mode, ty, false);
    if is_unseen(holds) && !is_unseen(other) {
        return Cell::Where;
    }
    other
}
