//! Where the ops of a script stand in it.

ghost use Rattle.std.specs.Prelude.{◌≡◌, IfOk};
ghost use Rattle.run_words.specs.Sites.{IsGuideOf, first_block, site_at, site_of, sites_from};
ghost use Rattle.run_command.specs.Working.{IsSound};

use script_text::Script;
use stack_ops::Op;
use std::alloc::{AllocError, Global};
use volume_table::EntryList;

/// Where an op stands, and what it asks for.
#[derive(Clone, Copy, Debug, PartialEq, Eq)]
pub struct OpSite {
    /// The number of its line, from 1.
    pub line: u32,
    /// The first virtual block of a request; 0 of another op.
    pub first: u64,
}

/// What of a script tells where its blocks stand and lie, kept while the script itself is run.
#[derive(Drop)]
pub struct Guide {
    /// The ops in their order.
    pub(crate) sites: Vec<OpSite>,
    /// The entries of the volume.
    pub(crate) entries: EntryList,
}

/// What stands in place of an op that isn't there.
const NO_SITE: OpSite = OpSite { line: 0, first: 0 };

/// The first virtual block of a request; of another op 0.
fn first_block(op: &Op) -> u64
    ensures { result ≡ first_block op.now }
{
    match op {
        Op::Write { v, .. } => *v,
        Op::Fetch { v, .. } => *v,
        Op::WritePi { v, .. } => *v,
        Op::FetchPi { v, .. } => *v,
        _ => 0,
    }
}

/// The sites of ops that stand on these lines.
fn sites_from(alloc: Global, lines: &[u32], ops: &[Op]) -> Result<Vec<OpSite>, AllocError>
    ensures { IfOk result (λ v. v.items ≡ sites_from lines.now ops.now) }
{
    let mut sites = Vec::with_capacity(alloc, ops.len())?;
    let mut rest = lines;
    for op in ops {
        let Some((line, more)) = rest.split_first() else {
            return Ok(sites);
        };
        sites.push(OpSite {
            line: *line,
            first: first_block(op),
        })?;
        rest = more;
    }
    Ok(sites)
}

/// The site of op `i`, from 0.
pub(crate) fn site_at(sites: &[OpSite], i: usize) -> OpSite
    ensures { result ≡ site_at sites.now i }
{
    match sites.get(i) {
        Some(site) => *site,
        None => NO_SITE,
    }
}

/// The site of the op of this number, from 1.
pub(crate) fn site_of(sites: &[OpSite], number: u32) -> OpSite
    ensures { result ≡ site_of sites.now number }
{
    if number == 0 {
        return NO_SITE;
    }
    match sites.get(number as usize - 1) {
        Some(site) => *site,
        None => NO_SITE,
    }
}

impl Guide {
    /// The guide of a script, which keeps the rules of its language. The one error is want of memory.
    pub fn of(alloc: Global, script: &Script) -> Result<Guide, AllocError>
        requires { IsSound script.now }
        ensures { IfOk result (λ g. IsGuideOf script.now g) }
    {
        let (_, lines) = script
            .lines
            .as_slice()
            .split_at(script.faults.as_slice().len());
        Ok(Guide {
            sites: sites_from(alloc, lines, script.ops.as_slice())?,
            entries: script.entries.copy(alloc)?,
        })
    }
}
