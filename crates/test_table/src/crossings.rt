//! Crossings as rows write them.

use fault_schedule::Crossing;

/// The crossing of a word: `host`, `wire`, `storing`, `fetching`, `sending`, or `landing`, as which every other word counts.
pub fn crossing_of(word: &str) -> Crossing {
    match word {
        "host" => Crossing::HostToAdapter,
        "wire" => Crossing::AdapterToTarget,
        "storing" => Crossing::TargetToMedium,
        "fetching" => Crossing::MediumToTarget,
        "sending" => Crossing::TargetToAdapter,
        _ => Crossing::AdapterToHost,
    }
}

/// The word of a crossing.
pub fn crossing_word(at: Crossing) -> &'static str {
    match at {
        Crossing::HostToAdapter => "host",
        Crossing::AdapterToTarget => "wire",
        Crossing::TargetToMedium => "storing",
        Crossing::MediumToTarget => "fetching",
        Crossing::TargetToAdapter => "sending",
        Crossing::AdapterToHost => "landing",
    }
}
