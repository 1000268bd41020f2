//! What holds for a row: the unit, and how the adapter passes tuples.

use dix_adapter::Adapter;
use fault_schedule::Tamper;
use pi_guard::GuardKind;
use pi_tuple::PiType;
use test_table::tag_of;

/// One way through the adapter.
#[derive(Clone, Copy)]
pub(crate) struct Case {
    pub(crate) ty: PiType,
    pub(crate) size: u32,
    kind: GuardKind,
    /// Whether the host has tuples.
    pub(crate) dix: bool,
    dif: bool,
    app: u16,
    mask: u16,
}

fn type_of(word: &str) -> PiType {
    match word {
        "0" => PiType::Zero,
        "1" => PiType::One,
        "2" => PiType::Two,
        _ => PiType::Three,
    }
}

impl Case {
    pub(crate) const FIRST: Case = Case {
        ty: PiType::One,
        size: 512,
        kind: GuardKind::Crc,
        dix: true,
        dif: true,
        app: 0,
        mask: 0,
    };

    /// The case of seven words: the unit's type and block size; the host's guard; whether tuples travel between host
    /// and adapter, and between adapter and target; the application tag that is expected, and its mask.
    pub(crate) fn of(words: &str) -> Case {
        let mut words = words.split(' ');
        let ty = type_of(words.next().unwrap_or(""));
        let size = words.next().unwrap_or("");
        let kind = words.next().unwrap_or("");
        let dix = words.next().unwrap_or("");
        let dif = words.next().unwrap_or("");
        Case {
            ty,
            size: if size == "512" { 512 } else { 4096 },
            kind: if kind == "ip" {
                GuardKind::Ip
            } else {
                GuardKind::Crc
            },
            dix: dix == "on",
            dif: dif == "on",
            app: tag_of(words.next().unwrap_or("")),
            mask: tag_of(words.next().unwrap_or("")),
        }
    }

    /// The adapter, whose own crossings are altered so.
    pub(crate) fn adapter(self, tamper: Tamper) -> Adapter {
        Adapter {
            kind: self.kind,
            dix: self.dix,
            dif: self.dif,
            protect: 1,
            ty: self.ty,
            tamper,
            app: self.app,
            mask: self.mask,
        }
    }
}
