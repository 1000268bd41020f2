//! A large script from a number.

ghost use Rattle.std.specs.Prelude.{◌≡◌, ◌∷◌, [], ◌+◌, ◌^◌, ◌<◌, ◌≤◌, IfOk, OnOk};
ghost use Rattle.script_text.specs.Generator.{after_op, after_ops, big, big_entries, drawn, next_state, numbers_from, op_by, op_from, ops_from, page_start, schedule_from};

use crate::script::{LineList, Script};
use block_path::Mode;
use fault_schedule::FaultList;
use linear_volume::Linear;
use merge_queue::Limits;
use page_pool::{PAGE, Seg, SgList};
use pi_guard::GuardKind;
use script_lines::WordList;
use smallvec::SmallVec;
use stack_ops::{Op, OpList};
use std::alloc::{AllocError, Global};
use stripe_volume::{Leg, LegList, Stripe};
use volume_table::{Entry, EntryList};

/// A linear congruential generator over 32 bits.
#[derive(Drop)]
struct Draws {
    state: u32,
}

impl Draws {
    /// Goes to the next state.
    #[tactic(auto, unfolding(crate::specs::Generator::next_state))]
    fn step(&mut self)
        ensures { self.new.state ≡ next_state self.old.state }
    {
        let next = (u64::from(self.state) * 1664525 + 1013904223) % 0x1_0000_0000;
        self.state = next as u32;
    }

    /// A number below `m`, from the upper half of the next state.
    fn draw(&mut self, m: u32) -> u32
        requires { 1 ≤ m }
        ensures value { result ≡ drawn m (next_state self.old.state) }
        ensures bound { result < m }
        ensures state { self.new.state ≡ next_state self.old.state }
    {
        self.step();
        (self.state / 65536) % m
    }
}

fn page_start(alloc: Global, page: u32, len: u32) -> Result<SgList, AllocError>
    ensures { IfOk result (λ list. list ≡ page_start page len ∷ []) }
{
    let seg = Seg { page, off: 0, len };
    Ok(SgList::from_segs(SmallVec::from_slice(alloc, &[seg])?))
}

/// What is drawn for an op, whatever its kind.
#[derive(Clone, Copy)]
struct Drawn {
    kind: u32,
    n: u32,
    v: u32,
    page: u32,
    tag: u32,
}

fn op_of(alloc: Global, drawn: Drawn) -> Result<Op, AllocError>
    requires n { drawn.n ≤ 8 }
    requires tag { drawn.tag < 65536 }
    ensures { IfOk result (λ op. op ≡ op_by drawn.kind drawn.n drawn.v drawn.page drawn.tag) }
{
    let Drawn {
        kind,
        n,
        v,
        page,
        tag,
    } = drawn;
    let v = u64::from(v);
    match kind {
        0 => Ok(Op::Fill {
            seg: Seg {
                page,
                off: 0,
                len: PAGE,
            },
            byte: (tag % 256) as u8,
        }),
        1 => Ok(Op::Write {
            v,
            n,
            body: page_start(alloc, page, 512 * n)?,
            app: tag as u16,
        }),
        2 => Ok(Op::Fetch {
            v,
            n,
            body: page_start(alloc, page, 512 * n)?,
        }),
        _ => Ok(Op::Show {
            seg: Seg {
                page,
                off: 0,
                len: 16,
            },
        }),
    }
}

/// The next op: five numbers are drawn, whatever its kind.
fn next_op(alloc: Global, draws: &mut Draws) -> Result<Op, AllocError>
    ensures value { IfOk result (λ op. op ≡ op_from draws.old.state) }
    ensures state { draws.new.state ≡ after_op draws.old.state }
{
    let kind = draws.draw(4);
    let n = 1 + draws.draw(8);
    let v = draws.draw(6136);
    let page = draws.draw(64);
    let tag = draws.draw(65535);
    op_of(
        alloc,
        Drawn {
            kind,
            n,
            v,
            page,
            tag,
        },
    )
}

fn ops(alloc: Global, draws: &mut Draws, n: u32) -> Result<OpList, AllocError>
    ensures value { IfOk result (λ list. list ≡ ops_from n draws.old.state) }
    ensures state { OnOk result (draws.new.state ≡ after_ops n draws.old.state) }
{
    let mut ops = Vec::with_capacity(alloc, n as usize)?;
    for _i in 0..n {
        ops.push(next_op(alloc, draws)?)?;
    }
    Ok(OpList::from_vec(ops))
}

fn schedule(alloc: Global, draws: &mut Draws, n: u32) -> Result<WordList, AllocError>
    ensures { IfOk result (λ list. list ≡ schedule_from n draws.old.state) }
{
    let mut entries = Vec::with_capacity(alloc, n as usize)?;
    for _i in 0..n {
        let word = draws.draw(65536);
        let cut = draws.draw(9);
        entries.push((word, cut))?;
    }
    Ok(WordList::from_vec(entries))
}

fn entries(alloc: Global) -> Result<EntryList, AllocError>
    ensures { IfOk result (λ list. list ≡ big_entries) }
{
    let legs = [Leg { dev: 0, at: 0 }, Leg { dev: 1, at: 0 }];
    let mut entries = Vec::with_capacity(alloc, 2)?;
    entries.push(Entry::Stripe(Stripe {
        start: 0,
        len: 4096,
        chunk: 8,
        legs: LegList::from_vec(Vec::from_slice(alloc, &legs)?),
    }))?;
    entries.push(Entry::Linear(Linear {
        start: 4096,
        len: 2048,
        dev: 0,
        at: 2048,
    }))?;
    Ok(EntryList::from_vec(entries))
}

/// The numbers of lines, one after another from this one on.
fn lines(alloc: Global, n: u32, first: u32) -> Result<LineList, AllocError>
    requires { first + n < 2 ^ 32 }
    ensures { IfOk result (λ list. list ≡ numbers_from n first) }
{
    let mut lines = Vec::with_capacity(alloc, n as usize)?;
    let mut number = first;
    for _i in 0..n {
        lines.push(number)?;
        number += 1;
    }
    Ok(LineList::from_vec(lines))
}

/// The script of `n` ops, at most 1,024, that the numbers from this seed on make: requests of 1 to
/// 8 blocks, fills and shows over a striped and a linear entry of two devices, with a schedule of
/// four entries for each op. Its line numbers are those of its printed text. The one error is want
/// of memory.
pub fn big_script(alloc: Global, n: u32, seed: u32) -> Result<Script, AllocError>
    requires { n ≤ 1024 }
    ensures { IfOk result (λ script. script ≡ big n seed) }
{
    let mut draws = Draws { state: seed };
    let ops = ops(alloc, &mut draws, n)?;
    let schedule = schedule(alloc, &mut draws, 4 * n)?;
    Ok(Script {
        mode: Mode {
            kind: GuardKind::Ip,
            dix: true,
            dif: true,
            protect: 1,
            app: 0,
            mask: 0,
        },
        limits: Limits {
            max_blocks: 64,
            max_segs: 32,
            max_pi_segs: 8,
        },
        pages: 64,
        block: 512,
        expect_line: 0,
        entries: entries(alloc)?,
        faults: FaultList::from_vec(Vec::new(alloc)),
        schedule,
        ops,
        lines: lines(alloc, n, 4 * n + 8)?,
    })
}
