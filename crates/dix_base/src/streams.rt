//! What the system tells of the standard streams (`/proc/self`).

use std::fs::{self, Metadata};

/// A standard stream, by where the system tells what it is and how far it came.
pub(crate) struct Stream {
    file: &'static str,
    state: &'static str,
}

pub(crate) const INPUT: Stream = Stream {
    file: "/proc/self/fd/0",
    state: "/proc/self/fdinfo/0",
};

pub(crate) const OUTPUT: Stream = Stream {
    file: "/proc/self/fd/1",
    state: "/proc/self/fdinfo/1",
};

pub(crate) const ERRORS: Stream = Stream {
    file: "/proc/self/fd/2",
    state: "/proc/self/fdinfo/2",
};

/// The word at this place of the line that begins with this name, in a text of the system's.
pub(crate) fn word_of<'a>(text: &'a str, name: &str, place: usize) -> Option<&'a str> {
    let line = text.lines().find(|line| line.starts_with(name))?;
    line.split_whitespace().nth(place)
}

impl Stream {
    /// What it is, if it is a plain file.
    pub(crate) fn plain_file(&self, rt: &HostRuntime) -> Option<Metadata> {
        let file = fs::metadata(rt, self.file).ok()?;
        if file.is_file() { Some(file) } else { None }
    }

    /// What the system tells of its state.
    pub(crate) fn state(&self, rt: &HostRuntime) -> Option<String> {
        fs::read_to_string(rt, self.state).ok()
    }
}

/// How far a stream came, by its state.
pub(crate) fn position_in(state: &str) -> Option<u64> {
    word_of(state, "pos:", 1)?.parse().ok()
}
