//! Headers of images, and why an image isn't opened.

ghost use Rattle.std.specs.Prelude.{◌≡◌, length};

use crate::names::{add, none, out_of_range, type_of, yes_or_no};
use pi_tuple::PiType;
use rig_api::{RigFault, UnitSpec, Version, header, is_header, specs_in, version_of};
use std::alloc::{AllocError, Global};
use test_table::{bytes_of, cut, hex_of, number, small};

fn version_in(word: &str) -> Version {
    if word == "1" {
        Version::First
    } else {
        Version::Second
    }
}

fn version_text(version: Option<Version>) -> &'static str {
    match version {
        None => "none",
        Some(Version::First) => "1",
        Some(Version::Second) => "2",
    }
}

fn type_text(ty: PiType) -> &'static str {
    match ty {
        PiType::Zero => "0",
        PiType::One => "1",
        PiType::Two => "2",
        PiType::Three => "3",
    }
}

/// The unit of four numbers with / between: its type, its blocks, their size and its first address.
fn unit_of(text: &str) -> UnitSpec {
    let mut words = text.split('/');
    UnitSpec {
        ty: type_of(words.next().unwrap_or("")),
        blocks: number(words.next().unwrap_or("")),
        size: small(words.next().unwrap_or("")),
        first: number(words.next().unwrap_or("")),
    }
}

fn unit_text(alloc: Global, unit: UnitSpec) -> Result<String, AllocError> {
    let (ty, blocks, size, first) = (type_text(unit.ty), unit.blocks, unit.size, unit.first);
    format!(in alloc; "{ty}/{blocks}/{size}/{first}")
}

/// The header of these units, with semicolons between.
fn written(alloc: Global, version: Version, text: &str) -> Result<String, AllocError> {
    let mut units = Vec::new(alloc);
    for unit in text.split(';') {
        units.push(unit_of(unit))?;
    }
    if units.len() > 8 {
        return out_of_range(alloc);
    }
    hex_of(alloc, header(version, &units).as_slice())
}

/// The units of a header.
fn units_text(alloc: Global, version: Version, first: &[u8]) -> Result<String, AllocError>
    requires { length first.now ≡ 512 }
{
    let mut text = String::new(alloc);
    for unit in specs_in(version, first).as_slice() {
        add(&mut text, unit_text(alloc, *unit)?.as_str())?;
    }
    Ok(text)
}

/// What is told by a header.
fn read(alloc: Global, call: &str, version: Version, first: &[u8]) -> Result<String, AllocError> {
    if first.len() != 512 {
        return out_of_range(alloc);
    }
    if call == "units" {
        return units_text(alloc, version, first);
    }
    String::from_str(alloc, yes_or_no(is_header(version, first)))
}

/// The name of a fault, by its number in the order in which they are declared.
fn fault_name(number: &str) -> &'static str {
    let fault = match number {
        "1" => RigFault::BadMagic,
        "2" => RigFault::BadHeader,
        "3" => RigFault::BadLength,
        "4" => RigFault::Failed,
        _ => RigFault::Memory,
    };
    fault.name()
}

pub(crate) fn answer(alloc: Global, words: &str) -> Result<String, AllocError> {
    let (call, rest) = cut(words);
    let (version, text) = cut(rest);
    let version = version_in(version);
    match call {
        "fault" => String::from_str(alloc, fault_name(rest)),
        "version" => String::from_str(alloc, version_text(version_of(&bytes_of(alloc, rest)?))),
        "header" => written(alloc, version, text),
        "units" | "is" => read(alloc, call, version, &bytes_of(alloc, text)?),
        _ => none(alloc),
    }
}
