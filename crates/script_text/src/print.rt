//! The printer.

ghost use Rattle.std.specs.Prelude.{◌≡◌, ◌++◌, IfOk, OnOk, length};
ghost use Rattle.std.specs.List.{list_any};
ghost use Rattle.fault_schedule.specs.declared.fault.FaultKind.{FaultKind};
ghost use Rattle.rig_api.specs.declared.change.Change.{Change};
ghost use Rattle.stack_ops.specs.declared.op.Op.{Op};
ghost use Rattle.script_text.specs.Bindings.{is_third_line};
ghost use Rattle.volume_table.specs.declared.entry.Entry.{Entry};
ghost use Rattle.script_text.specs.Printed.{app_text, block_text, change_text, cut_text, entries_text, entry_text, expect_text, expected_text, fail_text, fault_by, fault_text, faults_text, front_text, guard_text, is_past_one, keep_text, limits_text, mode_text, new_lines, op_text, op_words, ops_text, pages_text, pair_text, request_text, schedule_line, schedule_text, script_printed, seal_front, spot_text, tags_text, tuples_text, version_for, version_text};

use crate::Script;
use crate::kinds::{is_of_medium, is_shift};
use crate::text::Text;
use block_path::Mode;
use dix_base::ByteList;
use fault_schedule::{Crossing, FaultKind, FaultLine};
use linear_volume::Linear;
use merge_queue::Limits;
use page_pool::{Seg, SgList};
use pi_guard::GuardKind;
use rig_api::Change;
use script_lines::ScriptVersion;
use stack_ops::Op;
use std::alloc::{AllocError, Global};
use stripe_volume::Stripe;
use volume_table::Entry;

impl Text {
    fn guard(&mut self, kind: GuardKind) -> Result<(), AllocError>
        ensures { OnOk result (self.new.bytes.items ≡ self.old.bytes.items ++ guard_text kind) }
    {
        match kind {
            GuardKind::Crc => self.add(b"mode crc"),
            GuardKind::Ip => self.add(b"mode ip"),
        }
    }

    fn mode(&mut self, mode: Mode) -> Result<(), AllocError>
        ensures { OnOk result (self.new.bytes.items ≡ self.old.bytes.items ++ mode_text mode) }
    {
        self.guard(mode.kind)?;
        self.switch(mode.dix)?;
        self.switch(mode.dif)?;
        self.add(b" ")?;
        self.small(u32::from(mode.protect))?;
        self.add(b"\n")
    }

    fn limits(&mut self, limits: Limits) -> Result<(), AllocError>
        ensures { OnOk result (self.new.bytes.items ≡ self.old.bytes.items ++ limits_text limits) }
    {
        self.add(b"limits ")?;
        self.small(limits.max_blocks)?;
        self.add(b" ")?;
        self.small(limits.max_segs)?;
        self.add(b" ")?;
        self.small(limits.max_pi_segs)?;
        self.add(b"\n")
    }

    fn pages(&mut self, pages: u32) -> Result<(), AllocError>
        ensures { OnOk result (self.new.bytes.items ≡ self.old.bytes.items ++ pages_text pages) }
    {
        self.add(b"pages ")?;
        self.small(pages)?;
        self.add(b"\n")
    }

    fn block(&mut self, size: u32) -> Result<(), AllocError>
        ensures { OnOk result (self.new.bytes.items ≡ self.old.bytes.items ++ block_text size) }
    {
        self.add(b"block ")?;
        self.small(size)?;
        self.add(b"\n")
    }

    fn expect(&mut self, app: u16, mask: u16) -> Result<(), AllocError>
        ensures { OnOk result (self.new.bytes.items ≡ self.old.bytes.items ++ expect_text app mask) }
    {
        self.add(b"expect ")?;
        self.tag(app)?;
        self.add(b" ")?;
        self.tag(mask)?;
        self.add(b"\n")
    }

    fn expected(&mut self, app: u16, mask: u16) -> Result<(), AllocError>
        ensures { OnOk result (self.new.bytes.items ≡ self.old.bytes.items ++ expected_text app mask) }
    {
        if mask == 0 {
            return Ok(());
        }
        self.expect(app, mask)
    }

    /// `block` and `expect`, in a script of a version later than 1.
    fn new_lines(
        &mut self,
        version: ScriptVersion,
        block: u32,
        app: u16,
        mask: u16,
    ) -> Result<(), AllocError>
        ensures { OnOk result (self.new.bytes.items ≡ self.old.bytes.items ++ new_lines version block app mask) }
    {
        if !version.is_new() {
            return Ok(());
        }
        self.block(block)?;
        self.expected(app, mask)
    }

    fn version(&mut self, version: ScriptVersion) -> Result<(), AllocError>
        ensures { OnOk result (self.new.bytes.items ≡ self.old.bytes.items ++ version_text version) }
    {
        match version {
            ScriptVersion::One => self.add(b"dix 1\n"),
            ScriptVersion::Two => self.add(b"dix 2\n"),
            ScriptVersion::Three => self.add(b"dix 3\n"),
        }
    }

    /// The lines before the volume.
    fn front(&mut self, script: &Script) -> Result<(), AllocError>
        ensures { OnOk result (self.new.bytes.items ≡ self.old.bytes.items ++ front_text script.now) }
    {
        let version = version_for(script.faults.as_slice(), script.block, script.mode.mask);
        self.version(version)?;
        self.mode(script.mode)?;
        self.limits(script.limits)?;
        self.pages(script.pages)?;
        self.new_lines(version, script.block, script.mode.app, script.mode.mask)
    }

    /// Two numbers with a word between them.
    fn pair(&mut self, first: u64, between: &[u8], second: u64) -> Result<(), AllocError>
        ensures { OnOk result (self.new.bytes.items ≡ self.old.bytes.items ++ pair_text first between.now second) }
    {
        self.number(first)?;
        self.add(between)?;
        self.number(second)
    }

    fn linear(&mut self, linear: Linear) -> Result<(), AllocError>
        ensures { OnOk result (self.new.bytes.items ≡ self.old.bytes.items ++ entry_text (Entry.Linear linear)) }
    {
        self.add(b"linear ")?;
        self.pair(linear.start, b" ", linear.len)?;
        self.add(b" dev ")?;
        self.pair(u64::from(linear.dev), b" at ", linear.at)?;
        self.add(b"\n")
    }

    fn stripe(&mut self, stripe: &Stripe) -> Result<(), AllocError>
        ensures { OnOk result (self.new.bytes.items ≡ self.old.bytes.items ++ entry_text (Entry.Stripe stripe.now)) }
    {
        self.add(b"stripe ")?;
        self.pair(stripe.start, b" ", stripe.len)?;
        self.add(b" chunk ")?;
        self.small(stripe.chunk)?;
        self.add(b" legs")?;
        self.legs(stripe.legs.as_slice())?;
        self.add(b"\n")
    }

    fn entry(&mut self, entry: &Entry) -> Result<(), AllocError>
        ensures { OnOk result (self.new.bytes.items ≡ self.old.bytes.items ++ entry_text entry.now) }
    {
        match entry {
            Entry::Linear(linear) => self.linear(*linear),
            Entry::Stripe(stripe) => self.stripe(stripe),
        }
    }

    fn spot(&mut self, at: Crossing) -> Result<(), AllocError>
        ensures { OnOk result (self.new.bytes.items ≡ self.old.bytes.items ++ spot_text at) }
    {
        match at {
            Crossing::HostToAdapter | Crossing::AdapterToHost => self.add(b" host"),
            Crossing::AdapterToTarget | Crossing::TargetToAdapter => self.add(b" wire"),
            Crossing::TargetToMedium | Crossing::MediumToTarget => self.add(b" medium"),
        }
    }

    /// `OFF HEX`, behind the word `flip`.
    fn flip(&mut self, off: u32, bytes: &[u8]) -> Result<(), AllocError>
        ensures { OnOk result (self.new.bytes.items ≡ self.old.bytes.items ++ change_text (Change.Flip off bytes.now)) }
    {
        self.add(b" flip ")?;
        self.small(off)?;
        self.add(b" ")?;
        self.hex(bytes)
    }

    fn flip_line(&mut self, line: &FaultLine, off: u32, bytes: &[u8]) -> Result<(), AllocError>
        ensures { OnOk result (self.new.bytes.items ≡ self.old.bytes.items ++ fault_by line.now (FaultKind.Flip off bytes.now)) }
    {
        self.add(b"fault ")?;
        self.pair(u64::from(line.op), b" ", u64::from(line.k))?;
        self.spot(line.at)?;
        self.flip(off, bytes)?;
        self.add(b"\n")
    }

    fn shift_line(&mut self, line: &FaultLine, by: i64) -> Result<(), AllocError>
        ensures { OnOk result (self.new.bytes.items ≡ self.old.bytes.items ++ fault_by line.now (FaultKind.Shift by)) }
    {
        self.add(b"shift ")?;
        self.small(line.op)?;
        self.spot(line.at)?;
        self.add(b" ")?;
        self.signed(by)?;
        self.add(b"\n")
    }

    fn keep_line(&mut self, op: u32, k: u32, bytes: u32) -> Result<(), AllocError>
        ensures { OnOk result (self.new.bytes.items ≡ self.old.bytes.items ++ keep_text op k bytes) }
    {
        if bytes == 0 {
            self.add(b"lose ")?;
            self.pair(u64::from(op), b" ", u64::from(k))?;
            return self.add(b"\n");
        }
        self.add(b"tear ")?;
        self.pair(u64::from(op), b" ", u64::from(k))?;
        self.add(b" ")?;
        self.small(bytes)?;
        self.add(b"\n")
    }

    fn fail_line(&mut self, op: u32, k: u32) -> Result<(), AllocError>
        ensures { OnOk result (self.new.bytes.items ≡ self.old.bytes.items ++ fail_text op k) }
    {
        self.add(b"fail ")?;
        self.pair(u64::from(op), b" ", u64::from(k))?;
        self.add(b"\n")
    }

    fn fault(&mut self, line: &FaultLine) -> Result<(), AllocError>
        ensures { OnOk result (self.new.bytes.items ≡ self.old.bytes.items ++ fault_text line.now) }
    {
        match &line.kind {
            FaultKind::Flip { off, bytes } => self.flip_line(line, *off, bytes.as_slice()),
            FaultKind::Shift { by } => self.shift_line(line, *by),
            FaultKind::Keep { bytes } => self.keep_line(line.op, line.k, *bytes),
            FaultKind::Fail => self.fail_line(line.op, line.k),
        }
    }

    fn cut(&mut self, cut: u32) -> Result<(), AllocError>
        ensures { OnOk result (self.new.bytes.items ≡ self.old.bytes.items ++ cut_text cut) }
    {
        if cut == 0 {
            return Ok(());
        }
        self.add(b"/")?;
        self.small(cut)
    }

    fn choice(&mut self, entry: (u32, u32)) -> Result<(), AllocError>
        ensures { OnOk result (self.new.bytes.items ≡ self.old.bytes.items ++ schedule_line entry) }
    {
        self.add(b"schedule ")?;
        self.small(entry.0)?;
        self.cut(entry.1)?;
        self.add(b"\n")
    }

    /// The verb, the first block, the number of blocks and the data of a request.
    fn request(&mut self, verb: &[u8], v: u64, n: u32, body: &SgList) -> Result<(), AllocError>
        ensures { OnOk result (self.new.bytes.items ≡ self.old.bytes.items ++ request_text verb.now v n body.now) }
    {
        self.add(verb)?;
        self.number(v)?;
        self.add(b" ")?;
        self.small(n)?;
        self.add(b" ")?;
        self.segs(body.as_slice())
    }

    fn tuples(&mut self, tuples: &SgList) -> Result<(), AllocError>
        ensures { OnOk result (self.new.bytes.items ≡ self.old.bytes.items ++ tuples_text tuples.now) }
    {
        self.add(b" ")?;
        self.segs(tuples.as_slice())
    }

    fn app(&mut self, app: u16) -> Result<(), AllocError>
        ensures { OnOk result (self.new.bytes.items ≡ self.old.bytes.items ++ app_text app) }
    {
        if app == 0 {
            return Ok(());
        }
        self.add(b" app ")?;
        self.tag(app)
    }

    fn copy(&mut self, dev: u32, lba: u64) -> Result<(), AllocError>
        ensures { OnOk result (self.new.bytes.items ≡ self.old.bytes.items ++ change_text (Change.Copy dev lba)) }
    {
        self.add(b" from ")?;
        self.small(dev)?;
        self.add(b" ")?;
        self.number(lba)
    }

    fn change(&mut self, change: &Change) -> Result<(), AllocError>
        ensures { OnOk result (self.new.bytes.items ≡ self.old.bytes.items ++ change_text change.now) }
    {
        match change {
            Change::Flip { off, bytes } => self.flip(*off, bytes.as_slice()),
            Change::Copy { dev, lba } => self.copy(*dev, *lba),
        }
    }

    fn overwrite(&mut self, dev: u32, lba: u64, change: &Change) -> Result<(), AllocError>
        ensures { OnOk result (self.new.bytes.items ≡ self.old.bytes.items ++ op_words (Op.Overwrite dev lba change.now)) }
    {
        self.add(b"overwrite ")?;
        self.small(dev)?;
        self.add(b" ")?;
        self.number(lba)?;
        self.change(change)
    }

    fn put(&mut self, page: u32, off: u32, bytes: &[u8]) -> Result<(), AllocError>
        ensures { OnOk result (self.new.bytes.items ≡ self.old.bytes.items ++ op_words (Op.Put page off bytes.now)) }
    {
        self.add(b"put ")?;
        self.small(page)?;
        self.add(b":")?;
        self.small(off)?;
        self.add(b" ")?;
        self.hex(bytes)
    }

    fn fill(&mut self, seg: Seg, byte: u8) -> Result<(), AllocError>
        ensures { OnOk result (self.new.bytes.items ≡ self.old.bytes.items ++ op_words (Op.Fill seg byte)) }
    {
        self.add(b"fill ")?;
        self.seg(seg)?;
        self.add(b" ")?;
        self.hex(&[byte])
    }

    /// What stands behind the tuples of a `seal`.
    fn tags(&mut self, app: u16, rtag: u32) -> Result<(), AllocError>
        ensures { OnOk result (self.new.bytes.items ≡ self.old.bytes.items ++ tags_text app rtag) }
    {
        self.add(b" ")?;
        self.tag(app)?;
        self.add(b" ")?;
        self.long_tag(rtag)
    }

    fn seal(&mut self, n: u32, body: &SgList, tuples: &SgList) -> Result<(), AllocError>
        ensures { OnOk result (self.new.bytes.items ≡ self.old.bytes.items ++ seal_front n body.now tuples.now) }
    {
        self.add(b"seal ")?;
        self.small(n)?;
        self.add(b" ")?;
        self.segs(body.as_slice())?;
        self.tuples(tuples)
    }

    fn show(&mut self, seg: Seg) -> Result<(), AllocError>
        ensures { OnOk result (self.new.bytes.items ≡ self.old.bytes.items ++ op_words (Op.Show seg)) }
    {
        self.add(b"show ")?;
        self.seg(seg)
    }

    fn op_words(&mut self, op: &Op) -> Result<(), AllocError>
        ensures { OnOk result (self.new.bytes.items ≡ self.old.bytes.items ++ op_words op.now) }
    {
        match op {
            Op::Fill { seg, byte } => self.fill(*seg, *byte),
            Op::Put { page, off, bytes } => self.put(*page, *off, bytes.as_slice()),
            Op::Show { seg } => self.show(*seg),
            Op::Seal {
                n,
                body,
                tuples,
                app,
                rtag,
            } => {
                self.seal(*n, body, tuples)?;
                self.tags(*app, *rtag)
            }
            Op::Write { v, n, body, app } => {
                self.request(b"write ", *v, *n, body)?;
                self.app(*app)
            }
            Op::Fetch { v, n, body } => self.request(b"read ", *v, *n, body),
            Op::WritePi { v, n, body, tuples } => {
                self.request(b"writepi ", *v, *n, body)?;
                self.tuples(tuples)
            }
            Op::FetchPi { v, n, body, tuples } => {
                self.request(b"readpi ", *v, *n, body)?;
                self.tuples(tuples)
            }
            Op::Overwrite { dev, lba, change } => self.overwrite(*dev, *lba, change),
            Op::Wait => self.add(b"wait"),
        }
    }

    fn op(&mut self, op: &Op) -> Result<(), AllocError>
        ensures { OnOk result (self.new.bytes.items ≡ self.old.bytes.items ++ op_text op.now) }
    {
        self.op_words(op)?;
        self.add(b"\n")
    }

    fn entries(&mut self, entries: &[Entry]) -> Result<(), AllocError>
        ensures { OnOk result (self.new.bytes.items ≡ self.old.bytes.items ++ entries_text entries.now) }
    {
        for entry in entries {
            self.entry(entry)?;
        }
        Ok(())
    }

    fn faults(&mut self, lines: &[FaultLine]) -> Result<(), AllocError>
        ensures { OnOk result (self.new.bytes.items ≡ self.old.bytes.items ++ faults_text lines.now) }
    {
        for line in lines {
            self.fault(line)?;
        }
        Ok(())
    }

    fn schedule(&mut self, entries: &[(u32, u32)]) -> Result<(), AllocError>
        ensures { OnOk result (self.new.bytes.items ≡ self.old.bytes.items ++ schedule_text entries.now) }
    {
        for entry in entries {
            self.choice(*entry)?;
        }
        Ok(())
    }

    fn ops(&mut self, ops: &[Op]) -> Result<(), AllocError>
        ensures { OnOk result (self.new.bytes.items ≡ self.old.bytes.items ++ ops_text ops.now) }
    {
        for op in ops {
            self.op(op)?;
        }
        Ok(())
    }
}

/// Whether a line says what no version before 3 can.
fn is_third_line(line: &FaultLine) -> bool
    ensures { result ≡ is_third_line line.now }
{
    is_of_medium(&line.kind) || (is_shift(&line.kind) && line.at == Crossing::TargetToMedium)
}

/// Whether one of these lines does.
fn has_third(faults: &[FaultLine]) -> bool
    ensures { result ≡ list_any is_third_line faults.now }
{
    faults.iter().any(is_third_line)
}

/// Whether the script says what no version before 2 can.
fn is_past_one(block: u32, mask: u16) -> bool
    ensures { result ≡ is_past_one block mask }
{
    block != 512 || mask != 0
}

/// The first version that can say all that a script does.
fn version_for(faults: &[FaultLine], block: u32, mask: u16) -> ScriptVersion
    ensures { result ≡ version_for faults.now block mask }
{
    if has_third(faults) {
        return ScriptVersion::Three;
    }
    if is_past_one(block, mask) {
        return ScriptVersion::Two;
    }
    ScriptVersion::One
}

/// The text of a script: its lines in their order with one space between words, one entry of the
/// schedule on a line, stripes for what stood over inner volumes, and no comment. The one error is
/// want of memory.
pub fn print_script(alloc: Global, script: &Script) -> Result<ByteList, AllocError>
    ensures { IfOk result (λ text. text ≡ script_printed script.now) }
{
    let mut text = Text {
        bytes: Vec::new(alloc),
    };
    text.front(script)?;
    text.entries(script.entries.as_slice())?;
    text.faults(script.faults.as_slice())?;
    text.schedule(script.schedule.as_slice())?;
    text.add(b"begin\n")?;
    text.ops(script.ops.as_slice())?;
    let Text { bytes } = text;
    Ok(ByteList::from_vec(bytes))
}
