//! The adapter.

ghost use Rattle.std.specs.Prelude.{◌≡◌, ◌<◌, ◌+◌, ◌^◌, true, false, length};
ghost use Rattle.std.specs.Vec.{vec_capacity};
ghost use Rattle.page_pool.specs.Cells.{flat};
ghost use Rattle.bio_core.specs.declared.request.Dir.TheVariants.{Read, Write};
ghost use Rattle.rig_api.specs.State.{Stays};
ghost use Rattle.rig_api.specs.Telling.{greatest_size};
ghost use Rattle.dix_adapter.specs.Ways.{Spends};
ghost use Rattle.dix_adapter.specs.Carried.{Unsent, is_bad_write};
ghost use Rattle.dix_adapter.specs.Carrying.{CanCarry, HasCarriedIn, HasCarriedOut, HasSettled};
ghost use Rattle.dix_adapter.specs.Groups.{block_len, first_of, mode_of, route_by, size};
ghost use Rattle.dix_adapter.specs.Room.{KeepsScratch};

use crate::Mode;
use crate::scratch::Scratch;
use bio_core::{Bio, Dir, Fate, Io};
use block_path::Route;
use fault_schedule::{Label, Tamper};
use page_pool::PagePool;
use pi_guard::GuardKind;
use pi_tuple::PiType;
use rig_api::Rig;

/// An adapter before units of one type, in one mode.
#[derive(Drop)]
pub struct Adapter {
    /// The guard of the tuples that the host has in memory.
    pub kind: GuardKind,
    /// Whether tuples travel between host and adapter.
    pub dix: bool,
    /// Whether tuples travel between adapter and target.
    pub dif: bool,
    /// The protect field of commands that transfer tuples.
    pub protect: u8,
    /// The type of the units.
    pub ty: PiType,
    /// The faults that act between host and adapter.
    pub tamper: Tamper,
    /// The application tag that is expected.
    pub app: u16,
    /// The bits of the application tag that are checked.
    pub mask: u16,
}

impl Adapter {
    /// How tuples travel.
    pub fn mode(&self) -> Mode
        ensures { result ≡ mode_of self.now }
    {
        Mode {
            kind: self.kind,
            dix: self.dix,
            dif: self.dif,
            protect: self.protect,
            app: self.app,
            mask: self.mask,
        }
    }

    /// The first block of a bio on its way.
    pub(crate) fn route(&self, io: &Io, bio: &Bio) -> Route
        requires some { 0 < io.now.count }
        requires fits { io.now.first + bio.now.k < 2 ^ 64 }
        ensures { result ≡ route_by self.now io.now bio.now 0 }
    {
        Route {
            label: Label {
                op: bio.op,
                k: bio.k,
            },
            virt: io.first + bio.k as u64,
            dev: bio.dev,
            lba: bio.lba,
            ty: self.ty,
            size: io.block_size(),
            mode: self.mode(),
        }
    }

    /// Carries a group of blocks out or in by at most one command, and says what became of each block.
    ///
    /// Of a write every block is checked before any is sent; where one is bad nothing is sent. Of a read every block
    /// that came is checked; a good one lands in its pages, with its tuple where the host has tuples.
    pub fn carry<R: Rig>(
        &self,
        pool: &mut PagePool,
        ios: &[Io],
        req: &[Bio],
        rig: &mut R,
        scratch: &mut Scratch,
        fates: &mut Vec<Fate>,
    )
        requires can { CanCarry self.now pool.old ios.now req.now scratch.old (vec_capacity fates.old) (R.state rig.old) }
        ensures unsent { (first_of req.now).dir ≡ Write → is_bad_write self.now ios.now req.now (flat pool.old) ≡ true
            → Unsent self.now ios.now req.now pool.old pool.new fates.new.items × (rig.new ≡ rig.old) }
        ensures carried_out { (first_of req.now).dir ≡ Write → is_bad_write self.now ios.now req.now (flat pool.old) ≡ false
            → HasCarriedOut self.now ios.now req.now pool.old pool.new fates.new.items (R.state rig.old) (R.state rig.new) }
        ensures carried_in { (first_of req.now).dir ≡ Read
            → HasCarriedIn self.now ios.now req.now pool.old pool.new fates.new.items (R.state rig.old) (R.state rig.new) }
        ensures settled { HasSettled req.now fates.new.items }
        ensures pages { length pool.new ≡ length pool.old }
        ensures stays { Stays (R.state rig.old) (R.state rig.new) }
        ensures scratch { KeepsScratch (block_len ios.now req.now) (size req.now) scratch.old scratch.new }
        ensures spent { Spends (greatest_size (R.state rig.old).standing) fates.new.items (R.state rig.old).room (R.state rig.new).room }
        ensures capacity { vec_capacity fates.new ≡ vec_capacity fates.old }
    {
        fates.clear();
        match req[0].dir {
            Dir::Write => self.carry_out(pool, ios, req, rig, scratch, fates),
            Dir::Read => self.carry_in(pool, ios, req, rig, scratch, fates),
        }
    }
}
