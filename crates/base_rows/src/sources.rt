//! Sources and sinks. The functions that use the traits know nothing else of an object, and are proved from the traits
//! alone.

ghost use Rattle.std.specs.Prelude.{◌≡◌, drop, take, IfOk, OnErr, OnOk};
ghost use Rattle.dix_base.specs.Told.{Appended, Rose, Took};

use crate::names::{add, none, yes_or_no};
use crate::stores::with_held;
use dix_base::{
    ByteList, CalmSink, CalmSource, Failed, MemSink, MemSource, Sink, Source, StdinSource,
    StdoutSink,
};
use std::alloc::{AllocError, Global};
use test_table::{bytes_of, cut, hex_of, number, small};

fn take_from<S: Source>(source: &mut S, buf: &mut [u8]) -> Result<usize, Failed>
    ensures taken { IfOk result (λ n. Took (take n buf.new) (S.left source.old) (S.left source.new)) }
    ensures rest { IfOk result (λ n. drop n buf.new ≡ drop n buf.old) }
    ensures kept { OnErr result (S.left source.new ≡ S.left source.old) }
    ensures calm { OnOk result (S.faults source.new ≡ S.faults source.old) }
    ensures cause { OnErr result (Rose (S.faults source.old) (S.faults source.new)) }
{
    source.take(buf)
}

/// Asks once more after a failure. What the second answer is of is then the same that was left.
fn take_again<S: Source>(source: &mut S, buf: &mut [u8]) -> Result<usize, Failed>
    ensures taken { IfOk result (λ n. Took (take n buf.new) (S.left source.old) (S.left source.new)) }
    ensures kept { OnErr result (S.left source.new ≡ S.left source.old) }
{
    match source.take(buf) {
        Ok(n) => Ok(n),
        Err(Failed) => source.take(buf),
    }
}

fn put_into<K: Sink>(sink: &mut K, bytes: &[u8]) -> Result<usize, Failed>
    ensures taken { IfOk result (λ n. Appended (take n bytes.now) (K.taken sink.old) (K.taken sink.new)) }
    ensures same { OnErr result (K.taken sink.new ≡ K.taken sink.old) }
    ensures calm { OnOk result (K.faults sink.new ≡ K.faults sink.old) }
    ensures cause { OnErr result (Rose (K.faults sink.old) (K.faults sink.new)) }
{
    sink.put(bytes)
}

/// How many bytes a call took, or that it failed.
fn count_text(alloc: Global, came: Result<usize, Failed>) -> Result<String, AllocError> {
    match came {
        Ok(n) => format!(in alloc; "{n}"),
        Err(Failed) => String::from_str(alloc, "failed"),
    }
}

/// What comes of a call that takes, and what the front of its buffer of 4 bytes holds then.
fn taken<S: Source>(
    alloc: Global,
    source: &mut S,
    buf: &mut [u8; 4],
    step: &str,
) -> Result<String, AllocError> {
    let (call, len) = cut(step);
    let part = &mut buf[..(small(len) as usize).min(4)];
    let came = if call == "again" {
        take_again(source, part)
    } else {
        take_from(source, part)
    };
    let (count, bytes) = (count_text(alloc, came)?, hex_of(alloc, part)?);
    format!(in alloc; "{count} {bytes}")
}

/// What comes of calls that take, one after another into one buffer.
fn takes<S: Source>(alloc: Global, source: &mut S, steps: &str) -> Result<String, AllocError> {
    let mut buf = [0; 4];
    let mut text = String::new(alloc);
    for step in steps.split(';') {
        add(&mut text, taken(alloc, source, &mut buf, step)?.as_str())?;
    }
    Ok(text)
}

/// What comes of calls that put these bytes, one after another.
fn puts<K: Sink>(alloc: Global, sink: &mut K, steps: &str) -> Result<String, AllocError> {
    let mut text = String::new(alloc);
    for step in steps.split(';') {
        let came = put_into(sink, &bytes_of(alloc, step)?);
        add(&mut text, count_text(alloc, came)?.as_str())?;
    }
    Ok(text)
}

/// The same of standard output, and whether it passes on what it holds.
fn shown(alloc: Global, out: &mut StdoutSink, steps: &str) -> Result<String, AllocError> {
    let text = puts(alloc, out, steps)?;
    let passed = yes_or_no(out.flush().is_ok());
    format!(in alloc; "{text};{passed}")
}

/// The same of a sink with so much room, and what it holds then.
fn kept(alloc: Global, room: &str, fails: &str, steps: &str) -> Result<String, AllocError> {
    let mut sink = MemSink::new(alloc, small(room).min(4096), numbers(alloc, fails)?)?;
    let text = puts(alloc, &mut sink, steps)?;
    with_held(alloc, text.as_str(), sink.bytes())
}

/// Numbers with commas between.
pub(crate) fn numbers(alloc: Global, words: &str) -> Result<Vec<u64>, AllocError> {
    let mut numbers = Vec::new(alloc);
    for word in words.split(',') {
        numbers.push(number(word))?;
    }
    Ok(numbers)
}

/// The bytes of a list of these.
fn listed(alloc: Global, bytes: &str) -> Result<String, AllocError> {
    hex_of(
        alloc,
        ByteList::from_vec(bytes_of(alloc, bytes)?).as_slice(),
    )
}

/// What comes of calls that take from these bytes, of which these calls fail.
fn taken_in_memory(
    alloc: Global,
    bytes: &str,
    fails: &str,
    steps: &str,
) -> Result<String, AllocError> {
    let bytes = bytes_of(alloc, bytes)?;
    let mut source = MemSource::new(bytes, numbers(alloc, fails)?);
    takes(alloc, &mut source, steps)
}

/// What comes of a form, by its words, and its steps.
pub(crate) fn answer(rt: HostRuntime, words: &str) -> Result<String, AllocError> {
    let alloc = rt.alloc();
    let (form, steps) = words.split_once(';').unwrap_or((words, ""));
    let (word, rest) = cut(form);
    let (first, fails) = cut(rest);
    match word {
        "list" => listed(alloc, first),
        "source" => taken_in_memory(alloc, first, fails, steps),
        "calm-source" => takes(alloc, &mut CalmSource::new(bytes_of(alloc, first)?), steps),
        "sink" => kept(alloc, first, fails, steps),
        "calm-sink" => puts(alloc, &mut CalmSink::new(), steps),
        "input" => takes(alloc, &mut StdinSource::new(rt), steps),
        "output" => shown(alloc, &mut StdoutSink::new(rt), steps),
        _ => none(alloc),
    }
}
