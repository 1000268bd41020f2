//! The ops that have not ended.

ghost use Rattle.std.specs.Prelude.{◌≡◌, ◌<◌, ◌+◌, length, drop, slice_index_or};
ghost use Rattle.std.specs.List.{remove};

use std::marker::Model;

/// The places of the ops that have not ended, in order. Those that end stand near the front, so the others stay where
/// they are.
#[derive(Drop)]
pub struct Live {
    list: Vec<u32>,
    // so many of the list have ended
    first: usize,
}

impl Model for Live {
    ghost use Rattle.std.specs.Prelude.{◌≤◌, drop, length};
    ghost use Rattle.stack_steps.specs.Listed.{Listed};

    ghost Value = { Listed };

    ghost view = { λ l. record { items = drop l.first l.list.items } };

    ghost invariant = { λ l. l.first ≤ length l.list.items };
}

/// Moves those before the q-th behind a place one further, onto it.
fn close(list: &mut Vec<u32>, first: usize, q: usize)
    requires { first + q < length list.old.items }
    ensures items { drop (first + 1) list.new.items ≡ remove (drop first list.old.items) q }
    ensures length { length list.new.items ≡ length list.old.items }
{
    list.slice_mut(first..first + q + 1).rotate_right(1);
}

impl Live {
    /// These places. It takes no memory.
    pub fn of(list: Vec<u32>) -> Live
        ensures { result.items ≡ list.items }
    {
        Live { list, first: 0 }
    }

    /// The places.
    pub fn as_slice(&self) -> &[u32]
        ensures { result.now ≡ self.now.items }
    {
        let (_, live) = self.list.split_at(self.first);
        live
    }

    /// The q-th place.
    pub fn at(&self, q: usize) -> u32
        requires { q < length self.now.items }
        ensures { result ≡ slice_index_or self.now.items q result }
    {
        self.as_slice()[q]
    }

    /// The q-th goes.
    pub fn remove(&mut self, q: usize)
        requires { q < length self.old.items }
        ensures { self.new.items ≡ remove self.old.items q }
    {
        close(&mut self.list, self.first, q);
        self.first += 1;
    }
}
