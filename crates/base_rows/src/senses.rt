//! Sense data, from its bytes and to them.

ghost use Rattle.std.specs.Prelude.{◌≡◌, true, IfOk, Ok};
ghost use Rattle.sense_codes.specs.Written.{Fits};

use crate::names::{check_name, none, out_of_range};
use arrayvec::ArrayVec;
use sense_codes::{Layer, Sense, SenseFault, layer_and_check};
use std::alloc::{AllocError, Global};
use test_table::{array_of, bytes_of, cut, hex_of};

/// What a caller can conclude: each call undoes the other.
fn there_and_back(s: &Sense) -> Result<Sense, SenseFault>
    requires { Fits s.now }
    ensures { result ≡ Ok s.now }
{
    Sense::decode(s.encode().as_slice())
}

fn back_and_there(bytes: &[u8]) -> Result<ArrayVec<u8, 20>, SenseFault>
    ensures { IfOk result (λ b. b.items ≡ bytes.now) }
{
    Ok(Sense::decode(bytes)?.encode())
}

fn fits(s: Sense) -> bool
    ensures { result ≡ true → Fits s }
{
    s.key < 16
}

/// The sense of two words: key, code and qualifier in hexadecimal digits, and the information or -.
fn sense_of(words: &str) -> Option<Sense> {
    let (codes, info) = cut(words);
    let [key, asc, ascq] = array_of::<3>(codes)?;
    Some(Sense {
        key,
        asc,
        ascq,
        info: info.parse::<u64>().ok(),
    })
}

fn sense_text(alloc: Global, s: Sense) -> Result<String, AllocError> {
    let codes = hex_of(alloc, &[s.key, s.asc, s.ascq])?;
    match s.info {
        Some(info) => format!(in alloc; "{codes} {info}"),
        None => format!(in alloc; "{codes} -"),
    }
}

fn fault_text(alloc: Global, fault: SenseFault) -> Result<String, AllocError> {
    let name = match fault {
        SenseFault::Short => "short",
        SenseFault::Form => "form",
    };
    let number = fault.number();
    format!(in alloc; "{name} {number}")
}

fn told(alloc: Global, read: Result<Sense, SenseFault>) -> Result<String, AllocError> {
    match read {
        Ok(sense) => sense_text(alloc, sense),
        Err(fault) => fault_text(alloc, fault),
    }
}

fn written_again(alloc: Global, bytes: &[u8]) -> Result<String, AllocError> {
    match back_and_there(bytes) {
        Ok(written) => hex_of(alloc, written.as_slice()),
        Err(fault) => fault_text(alloc, fault),
    }
}

/// The bytes of a sense, or the sense of these bytes.
fn written(alloc: Global, call: &str, words: &str) -> Result<String, AllocError> {
    let Some(sense) = sense_of(words) else {
        return none(alloc);
    };
    if !fits(sense) {
        return out_of_range(alloc);
    }
    if call == "bytes" {
        return hex_of(alloc, sense.encode().as_slice());
    }
    told(alloc, there_and_back(&sense))
}

fn layer_text(alloc: Global, words: &str) -> Result<String, AllocError> {
    let Some(sense) = sense_of(words) else {
        return none(alloc);
    };
    let Some((layer, check)) = layer_and_check(&sense) else {
        return String::from_str(alloc, "none");
    };
    let name = match layer {
        Layer::Adapter => "adapter",
        Layer::Target => "target",
    };
    let check = check_name(Some(check));
    format!(in alloc; "{name} {check}")
}

pub(crate) fn answer(alloc: Global, words: &str) -> Result<String, AllocError> {
    let (call, rest) = cut(words);
    match call {
        "of" => told(alloc, Sense::decode(&bytes_of(alloc, rest)?)),
        "again" => written_again(alloc, &bytes_of(alloc, rest)?),
        "bytes" | "back" => written(alloc, call, rest),
        "layer" => layer_text(alloc, rest),
        _ => none(alloc),
    }
}
