//! The record of an exchange.

ghost use Rattle.std.specs.Prelude.{◌≡◌, ◌+◌, ◌≤◌, ◌++◌, [], ◌∷◌, length, true};
ghost use Rattle.cdb_codec.specs.Decoded.{decoded};
ghost use Rattle.image_rig.specs.Entries.{spare};
ghost use Rattle.image_rig.specs.Logs.{logged, room_in};
ghost use Rattle.rig_api.specs.Log.{HasRoom, capacity_len, entry_of, has_key, labels_len, moved_len};
ghost use Rattle.rig_api.specs.Requests.{blocks_of};
ghost use Rattle.pi_tuple.specs.declared.TheConstants.{LARGEST_BLOCK};

use crate::kept::Kept;
use crate::log::Log;
use rig_api::{Exchanged, Record};

impl Log {
    /// Appends the record of an exchange, with the labels and the moved bytes that it keeps. There
    /// is room for it.
    pub fn note(&mut self, exchanged: &Exchanged<'_>)
        requires command { exchanged.now.command ≡ decoded exchanged.now.cdb.now }
        requires size { exchanged.now.size ≤ LARGEST_BLOCK }
        requires short { length exchanged.now.cdb.now ≤ 32 }
        requires key { has_key exchanged.now.outcome.sense ≡ true }
        requires room { HasRoom exchanged.now.size 1 (blocks_of exchanged.now.cdb.now) (room_in self.old) }
        requires data { capacity_len exchanged.now.cdb.now (length exchanged.now.into.now) ≤ (room_in self.old).moved }
        ensures recorded { logged self.new ≡ logged self.old
            ++ (entry_of exchanged.now.size exchanged.now.dev exchanged.now.cdb.now exchanged.now.labels.now exchanged.now.outcome exchanged.now.out.now exchanged.now.into.now ∷ []) }
        ensures records { (room_in self.old).records ≤ (room_in self.new).records + 1 }
        ensures labelled { (room_in self.old).labels ≤ (room_in self.new).labels + labels_len exchanged.now.cdb.now exchanged.now.outcome exchanged.now.labels.now }
        ensures moved { (room_in self.old).moved ≤ (room_in self.new).moved + moved_len exchanged.now.size exchanged.now.cdb.now exchanged.now.outcome exchanged.now.out.now exchanged.now.into.now }
    {
        let labels = exchanged.kept_labels();
        let moved = exchanged.moved();
        let kept = Kept {
            what: Record::of(exchanged.dev, exchanged.cdb, exchanged.outcome),
            labels_at: self.labels.len(),
            labels_len: labels.len(),
            moved_at: self.moved.len(),
            moved_len: moved.len(),
        };
        put_all(&mut self.labels, labels);
        put_all(&mut self.moved, moved);
        put_last(&mut self.kept, kept);
        self.free -= 1;
    }
}

fn put_all<T: Copy>(held: &mut Vec<T>, more: &[T])
    requires { length more.now ≤ spare held.old }
    ensures items { held.new.items ≡ held.old.items ++ more.now }
    ensures room { spare held.old ≤ spare held.new + length more.now }
{
    match held.extend_from_slice(more) {
        Ok(()) => {}
        Err(_) => unreachable!(),
    }
}

fn put_last(held: &mut Vec<Kept>, one: Kept)
    requires { 1 ≤ spare held.old }
    ensures items { held.new.items ≡ held.old.items ++ (one ∷ []) }
    ensures room { spare held.old ≤ spare held.new + 1 }
{
    match held.push(one) {
        Ok(()) => {}
        Err(_) => unreachable!(),
    }
}
