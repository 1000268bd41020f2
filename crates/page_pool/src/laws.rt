//! What the layers above build on: a pool as cells, ranges of a list, and a part that was written.

ghost use Rattle.std.specs.Prelude.{◌≡◌, ℕ, ◌+◌, ◌-◌, ◌*◌, ◌<◌, ◌≤◌, List, [], ◌++◌, false, nat_eq, length, map, take, drop};
ghost use Rattle.std.specs.List.{All, IsDistinct};
ghost use Rattle.page_pool.specs.Cells.{cell, flat, gather, joined, scatter, share_a_cell};
ghost use Rattle.page_pool.specs.Cuts.{cut, past, upto};
ghost use Rattle.page_pool.specs.Joining.{IsCut, parts_in};
ghost use Rattle.page_pool.specs.Pages.{AllLieIn, AreWhole, LiesIn, OthersStay, Wrote, bytes_at, bytes_in, part, with_part};
ghost use Rattle.page_pool.specs.Places.{Apart, NoneTwice, PageByte, places_in, places_of, range_of, total};
ghost use Rattle.page_pool.specs.Walking.{AllStandIn};
ghost use Rattle.page_pool.specs.declared.segs.Seg.{Seg as AnySeg};
ghost use Rattle.page_pool.specs.declared.TheConstants.{PAGE};

/// A pool's pages one after another are its cells: reading places gathers, writing them scatters. Bytes that stand in
/// the pool have cells below its end, no two the same where none of the bytes is there twice, and none in common
/// where the bytes are apart. `tuples` says that the ranges of eight bytes, one after another, are one range.
pub fn a_pool_is_cells()
    ensures read { (pool : List (List ℕ)) (ps : List PageByte) → AreWhole pool → AllStandIn (length pool) ps → bytes_at pool ps ≡ gather 0 (map cell ps) (flat pool) }
    ensures wrote { (old new : List (List ℕ)) (ps : List PageByte) (bytes : List ℕ) → AreWhole old → AllStandIn (length old) ps → Wrote old new ps bytes
        → flat new ≡ scatter (map cell ps) bytes (flat old) }
    ensures same { (old new : List (List ℕ)) → OthersStay old new [] → new ≡ old }
    ensures whole { (old new : List (List ℕ)) (ps : List PageByte) → OthersStay old new ps → AreWhole old → AreWhole new }
    ensures size { (pool : List (List ℕ)) → AreWhole pool → length (flat pool) ≡ PAGE * length pool }
    ensures below { (pages : ℕ) (ps : List PageByte) → AllStandIn pages ps → All (λ i. i < PAGE * pages) (map cell ps) }
    ensures distinct { (pages : ℕ) (ps : List PageByte) → AllStandIn pages ps → NoneTwice ps → IsDistinct nat_eq (map cell ps) }
    ensures apart { (pages : ℕ) (ps qs : List PageByte) → AllStandIn pages ps → AllStandIn pages qs → Apart ps qs → share_a_cell (map cell ps) (map cell qs) ≡ false }
    ensures ranges { (segs : List AnySeg) (at a b : ℕ) → range_of segs at (a + b) ≡ range_of segs at a ++ range_of segs (at + a) b }
    ensures tuples { (segs : List AnySeg) (k n : ℕ) → joined (λ i. range_of segs (8 * (k + i)) 8) n ≡ range_of segs (8 * k) (8 * n) }
{}

/// One list of cells after another: what is gathered from both is what each gives, and values set in both are set in
/// the one and then in the other.
pub fn cells_in_turn()
    ensures gathered { (none : ℕ) (a b cells : List ℕ) → gather none (a ++ b) cells ≡ gather none a cells ++ gather none b cells }
    ensures scattered { (a b v w cells : List ℕ) → length v ≡ length a → scatter (a ++ b) (v ++ w) cells ≡ scatter b w (scatter a v cells) }
{}

/// Ranges of a list whose segments lie in the pool: they stand in the pool and have as many bytes as they say, have
/// none twice where the list has none, and share none with a later range, or with any range of a list that is apart.
/// The cut segments name the range's bytes, are no more than these and than the list's segments, and the parts at
/// them, joined, are the range's bytes.
pub fn a_range_is_of_its_list()
    ensures stands { (pool : List (List ℕ)) (segs : List AnySeg) (at len : ℕ) → AllLieIn pool segs → AllStandIn (length pool) (range_of segs at len) }
    ensures long { (segs : List AnySeg) (at len : ℕ) → at + len ≤ total segs → length (range_of segs at len) ≡ len }
    ensures all { (segs : List AnySeg) → range_of segs 0 (total segs) ≡ places_in segs }
    ensures once { (segs : List AnySeg) (at len : ℕ) → NoneTwice (places_in segs) → NoneTwice (range_of segs at len) }
    ensures behind { (segs : List AnySeg) (at len from more : ℕ) → NoneTwice (places_in segs) → at + len ≤ from → Apart (range_of segs at len) (range_of segs from more) }
    ensures apart { (segs others : List AnySeg) (at len from more : ℕ) → Apart (places_in segs) (places_in others) → Apart (range_of segs at len) (range_of others from more) }
    ensures cut { (segs : List AnySeg) (at len : ℕ) → IsCut segs at len (cut segs at len) }
    ensures lies { (pool : List (List ℕ)) (segs : List AnySeg) (at len : ℕ) → AllLieIn pool segs → AllLieIn pool (cut segs at len) }
    ensures joined { (pool : List (List ℕ)) (segs : List AnySeg) (at len : ℕ) → AreWhole pool → AllLieIn pool segs → flat (parts_in pool segs at len) ≡ bytes_in pool segs at len }
{}

/// A walk along a list, in steps: what is behind two steps, how many bytes are left, and that the first places ahead
/// are a range of the list.
pub fn a_walk_goes_on()
    ensures on { (segs : List AnySeg) (a b : ℕ) → past b (past a segs) ≡ past (a + b) segs }
    ensures left { (segs : List AnySeg) (at : ℕ) → total (past at segs) ≡ total segs - at }
    ensures ahead { (segs : List AnySeg) (at len : ℕ) → range_of (past at segs) 0 len ≡ range_of segs at len }
    ensures places { (segs : List AnySeg) (at : ℕ) → places_in (past at segs) ≡ drop at (places_in segs) }
    ensures first { (segs : List AnySeg) (most : ℕ) → places_in (upto most segs) ≡ take most (places_in segs) }
{}

/// What a borrow by `part_mut` leaves when it ends with as many bytes as the segment has: these stand there, and all
/// others are as before. So is any pool of as many pages whole, and a list lies in it as before.
pub fn a_part_is_written()
    ensures wrote { (pool : List (List ℕ)) (s : AnySeg) (bytes : List ℕ) → LiesIn pool s → AreWhole pool → length bytes ≡ s.len → Wrote pool (with_part pool s bytes) (places_of s) bytes }
    ensures whole { (pool : List (List ℕ)) (s : AnySeg) (bytes : List ℕ) → AreWhole pool → AreWhole (with_part pool s bytes) }
    ensures part { (pool : List (List ℕ)) (s : AnySeg) → AreWhole pool → LiesIn pool s → part pool s ≡ bytes_at pool (places_of s) }
    ensures lie { (old new : List (List ℕ)) (segs : List AnySeg) → length new ≡ length old → AllLieIn old segs → AllLieIn new segs }
{}
