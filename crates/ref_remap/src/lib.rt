//! Reference tags between virtual blocks and physical addresses, in place (Linux, block layer: the integrity
//! profile's `prepare` and `complete`).
//!
//! An application knows the blocks of its volume, a device its own addresses. On the way out a tag that is the
//! block's virtual one becomes that of its physical address; on the way back the other way round. A tag that is
//! neither is left for the check to find.
#![tactic(auto)]

ghost use Rattle.std.specs.Prelude.{◌≡◌, ℕ, ◌+◌, ◌<◌, ◌≤◌, ◌^◌, List, drop, length, take};
ghost use Rattle.page_pool.specs.Pages.{AllLieIn};
ghost use Rattle.page_pool.specs.Places.{NoneTwice, places_in};
ghost use Rattle.pi_tuple.specs.Tuples.{tuple_bytes, tuple_in};
ghost use Rattle.pi_tuple.specs.declared.checks.PiType.{PiType as AnyType};
ghost use Rattle.pi_tuple.specs.declared.tuple.Tuple.{Tuple as AnyTuple};
ghost use Rattle.integrity_payload.specs.Payloads.{IsPayload, tuple_of};
ghost use Rattle.ref_remap.specs.Remapped.{AreRemapped, MappedOut, made_virtual, remapped, remapped_bytes, remapped_tag};

use integrity_payload::Payload;
use page_pool::PagePool;
use pi_tuple::{PiType, TUPLE, Tuple, has_ref_tag, ref_tag};

/// Maps the tags of the tuples `k` to `k + n - 1` out: for each `i` below `n`, where tuple `k + i` has the low 32
/// bits of its virtual block as its reference tag, it gets those of the address `physical + i`. That is in types
/// 1 and 2. Every other tag and every other byte of the pool stays. The payload's tuples lie in the pool and
/// share no byte.
pub fn map_out(pool: &mut PagePool, pi: &Payload, ty: PiType, k: u32, n: u32, physical: u64)
    requires payload { IsPayload pi.now }
    requires range { k + n ≤ pi.now.count }
    requires fits { pi.now.seed + pi.now.count < 2 ^ 64 }
    requires physical { physical + n < 2 ^ 64 }
    requires lie { AllLieIn pool.old pi.now.tuples }
    requires once { NoneTwice (places_in pi.now.tuples) }
    ensures { AreRemapped pool.old pool.new pi.now.tuples ty k n (pi.now.seed + k) physical }
{
    rewrite(pool, pi, ty, k, n, pi.seed + k as u64, physical);
}

/// The same with the two tags exchanged. After `map_out`, once or twice, it gives back every tuple whose tag was
/// the virtual one, makes a physical tag virtual, and leaves all others.
pub fn map_back(pool: &mut PagePool, pi: &Payload, ty: PiType, k: u32, n: u32, physical: u64)
    requires payload { IsPayload pi.now }
    requires range { k + n ≤ pi.now.count }
    requires fits { pi.now.seed + pi.now.count < 2 ^ 64 }
    requires physical { physical + n < 2 ^ 64 }
    requires lie { AllLieIn pool.old pi.now.tuples }
    requires once { NoneTwice (places_in pi.now.tuples) }
    ensures mapped { AreRemapped pool.old pool.new pi.now.tuples ty k n physical (pi.now.seed + k) }
    ensures round_trip { (i : ℕ) → i < n → (t : AnyTuple) → MappedOut ty (pi.now.seed + k + i) (physical + i) t (tuple_of pool.old pi.now.tuples (k + i))
        → tuple_of pool.new pi.now.tuples (k + i) ≡ made_virtual ty (pi.now.seed + k + i) (physical + i) t }
{
    rewrite(pool, pi, ty, k, n, physical, pi.seed + k as u64);
}

// Tags of the addresses from `from` on become those of the addresses from `to` on.
fn rewrite(pool: &mut PagePool, pi: &Payload, ty: PiType, k: u32, n: u32, from: u64, to: u64)
    requires payload { IsPayload pi.now }
    requires range { k + n ≤ pi.now.count }
    requires from { from + n ≤ 2 ^ 64 }
    requires to { to + n ≤ 2 ^ 64 }
    requires lie { AllLieIn pool.old pi.now.tuples }
    requires once { NoneTwice (places_in pi.now.tuples) }
    ensures { AreRemapped pool.old pool.new pi.now.tuples ty k n from to }
{
    let mut reader = pi.walk_tuples(k);
    let mut writer = pi.walk_tuples(k);
    for i in 0..n {
        let mut bytes = [0; TUPLE];
        pool.read_ahead(&mut reader, &mut bytes);
        let tuple = remap(
            Tuple::from_bytes(&bytes),
            ty,
            from + i as u64,
            to + i as u64,
        );
        pool.write_ahead(&mut writer, &tuple.to_bytes());
    }
}

fn remap(t: Tuple, ty: PiType, from: u64, to: u64) -> Tuple
    ensures { result ≡ remapped ty from to t }
{
    if has_ref_tag(ty) && t.rtag == ref_tag(from) {
        return Tuple {
            guard: t.guard,
            app: t.app,
            rtag: ref_tag(to),
        };
    }
    t
}

/// What mapping does to a tuple's eight bytes: the four of its guard and application tag stay, and those of its tag
/// are mapped by themselves. Read as tuples, these are the mapped tuple's bytes.
pub fn the_tag_alone_is_mapped()
    ensures bytes { (ty : AnyType) (from to : ℕ) (b : List ℕ) → length b ≡ TUPLE → tuple_bytes (tuple_in b) ≡ b → tuple_bytes (remapped ty from to (tuple_in b)) ≡ remapped_bytes ty from to b }
    ensures tag { (ty : AnyType) (from to : ℕ) (b : List ℕ) → length b ≡ TUPLE → drop 4 (remapped_bytes ty from to b) ≡ remapped_tag ty from to (drop 4 b) }
    ensures others { (ty : AnyType) (from to : ℕ) (b : List ℕ) → length b ≡ TUPLE → take 4 (remapped_bytes ty from to b) ≡ take 4 b }
{}
