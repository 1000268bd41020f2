//! Along the bytes of a request's blocks.

ghost use Rattle.std.specs.Prelude.{◌≡◌, ◌+◌, ◌*◌, ◌<◌, ◌≤◌, ◌++◌, List, Option, ℕ, length, drop};
ghost use Rattle.page_pool.specs.Cells.{flat, scatter};
ghost use Rattle.page_pool.specs.Pages.{AreWhole, bytes_in};
ghost use Rattle.bio_core.specs.Bios.{block_size};
ghost use Rattle.block_path.specs.Routes.{wire_size};
ghost use Rattle.dix_adapter.specs.Walking.{BlockOnce, HasBlock, HasNext, HasTuple, IsBefore, MayWalkFrom, TupleOnce, Walkable, WentPast, cells_ahead, next_route, past_tuple, tuple_ahead, tuple_or, tuples_ahead};
ghost use Rattle.pi_tuple.specs.declared.TheConstants.{TUPLE};

use bio_core::Io;
use block_path::Route;
use integrity_payload::Payload;
use page_pool::{PagePool, Walk};
use pi_tuple::TUPLE;

/// Stands before a block of a request: it knows the block's route, and what is ahead of the data, and of the tuples
/// where the request has them.
#[derive(Drop)]
pub(crate) struct Walks<'a> {
    /// The route of the block.
    pub(crate) route: Route,
    body: Walk<'a>,
    tuples: Option<Walk<'a>>,
}

impl<'a> Walks<'a> {
    /// Before the block that goes this way, or at the end of all.
    pub(crate) fn of(io: &'a Io, route: Route) -> Walks<'a>
        requires lies { (pool : List (List ℕ)) × Walkable pool io.now }
        requires within { route.label.k ≤ io.now.count }
        requires size { route.size ≡ block_size io.now }
        ensures { IsBefore io.now route result }
    {
        // A look for the proof: the body has few bytes.
        let _bytes = io.body.as_slice();
        Walks {
            body: io.body.walk(route.label.k * route.size),
            tuples: tuples_from(&io.pi, route.label.k),
            route,
        }
    }

    /// The bytes of the block's frame on the wire.
    pub(crate) fn wire_size(&self) -> usize
        ensures { result ≡ wire_size self.now.route }
    {
        let size = self.route.size as usize;
        if self.route.passes_tuples() {
            size + TUPLE
        } else {
            size
        }
    }

    /// Reads the block's frame: its data, and its tuple behind them where it has one.
    pub(crate) fn read(&mut self, pool: &PagePool, frame: &mut [u8])
        requires block { HasBlock pool.now self.old }
        requires long { length frame.old ≡ self.old.route.size + TUPLE }
        ensures frame { frame.new ≡ bytes_in pool.now self.old.body 0 self.old.route.size ++ tuple_or pool.now self.old.tuples (drop self.old.route.size frame.old) }
        ensures past { WentPast self.old self.new }
    {
        let (data, tuple) = frame.split_at_mut(self.route.size as usize);
        pool.read_ahead(&mut self.body, data);
        read_tuple(pool, &mut self.tuples, tuple);
        go_on(&mut self.route);
    }

    /// Goes past the block.
    pub(crate) fn skip(&mut self)
        requires next { HasNext self.old.route }
        ensures { WentPast self.old self.new }
    {
        self.body.advance(self.route.size);
        skip_tuple(&mut self.tuples);
        go_on(&mut self.route);
    }

    /// Writes the block's frame: its data, and its tuple where it has one.
    pub(crate) fn write(&mut self, pool: &mut PagePool, frame: &[u8])
        requires block { HasBlock pool.old self.old }
        requires once { BlockOnce self.old }
        requires long { length frame.now ≡ self.old.route.size + TUPLE }
        ensures cells { flat pool.new ≡ scatter (cells_ahead self.old) frame.now (flat pool.old) }
        ensures pages { length pool.new ≡ length pool.old }
        ensures whole { AreWhole pool.new }
        ensures past { WentPast self.old self.new }
    {
        let (data, tuple) = frame.split_at(self.route.size as usize);
        pool.write_ahead(&mut self.body, data);
        write_tuple(pool, &mut self.tuples, tuple);
        go_on(&mut self.route);
    }
}

/// To the route of the block behind this one.
fn go_on(route: &mut Route)
    requires { HasNext route.old }
    ensures { route.new ≡ next_route route.old }
{
    route.label.k += 1;
    route.virt += 1;
    route.lba += 1;
}

/// Goes past the next tuple, where there are any.
fn skip_tuple(tuples: &mut Option<Walk<'_>>)
    ensures { tuples.new ≡ past_tuple tuples.old }
{
    if let Some(tuples) = tuples {
        tuples.advance(TUPLE as u32);
    }
}

/// Writes the next tuple, where there are any.
fn write_tuple(pool: &mut PagePool, tuples: &mut Option<Walk<'_>>, bytes: &[u8])
    requires whole { AreWhole pool.old }
    requires there { HasTuple (length pool.old) tuples.old }
    requires once { TupleOnce tuples.old }
    requires long { length bytes.now ≡ TUPLE }
    ensures cells { flat pool.new ≡ scatter (tuple_ahead tuples.old) bytes.now (flat pool.old) }
    ensures pages { length pool.new ≡ length pool.old }
    ensures whole { AreWhole pool.new }
    ensures past { tuples.new ≡ past_tuple tuples.old }
{
    if let Some(tuples) = tuples {
        pool.write_ahead(tuples, bytes);
    }
}

/// Reads the next tuple, where there are any.
fn read_tuple(pool: &PagePool, tuples: &mut Option<Walk<'_>>, into: &mut [u8])
    requires there { HasTuple (length pool.now) tuples.old }
    requires long { length into.old ≡ TUPLE }
    ensures bytes { into.new ≡ tuple_or pool.now tuples.old into.old }
    ensures past { tuples.new ≡ past_tuple tuples.old }
{
    if let Some(tuples) = tuples {
        pool.read_ahead(tuples, into);
    }
}

fn tuples_from(pi: &Option<Payload>, k: u32) -> Option<Walk<'_>>
    requires { MayWalkFrom pi.now k }
    ensures { result ≡ tuples_ahead pi.now k }
{
    match pi {
        Some(pi) => Some(pi.walk_tuples(k)),
        None => None,
    }
}
