//! Tables of rows that a test program reads. A row is a call, ` = ` and what comes of it. The program prints the rows of
//! which something else comes, with what came, and of each table how many rows there were.
#![tactic(auto)]

mod crossings;
mod escapes;
mod line;
mod marks;
mod words;

pub use crossings::{crossing_of, crossing_word};
pub use escapes::text_of;
pub use line::Words;
pub use marks::{add_line, behind, has, is_one_of, numbers, status_wanted, word_of};
use std::alloc::{AllocError, Global};
use std::io;
pub use words::{array_of, bytes_of, cut, hex_of, number, small, tag_of};

/// What is done with the lines of a table.
pub trait Judge {
    /// Takes a line that isn't a row, which says what the rows behind it stand on. Answers false where it is no such
    /// line.
    fn set(&mut self, alloc: Global, line: &str) -> Result<bool, AllocError>;

    /// What comes of a row's call.
    fn answer(&mut self, alloc: Global, call: &str) -> Result<String, AllocError>;
}

/// How many rows a table had, and of how many something else came.
#[derive(Drop)]
struct Count {
    rows: u32,
    wrong: u32,
}

impl Count {
    const NONE: Count = Count { rows: 0, wrong: 0 };
}

/// Reads the tables on standard input to its end, each of which begins with a line == and its name. Blank lines and those
/// that begin with # count as nothing; a line that is neither a row nor taken by `set` is printed as a wrong one.
pub fn read_tables<J: Judge>(rt: &HostRuntime, judge: &mut J) -> io::Result<()> {
    let alloc = rt.alloc();
    let mut count = Count::NONE;
    for line in rt.lines(alloc) {
        let line = line?;
        if line.starts_with("== ") {
            tell(rt, &mut count)?;
            println!(rt; "{line}")?;
        }
        if let Some(came) = judged(alloc, judge, &mut count, line.as_str())? {
            println!(rt; "{line}\n came: {came}")?;
        }
    }
    tell(rt, &mut count)
}

/// Prints how many rows the table had that ends here, if it had some, and of how many something else came.
fn tell(rt: &HostRuntime, count: &mut Count) -> io::Result<()> {
    let Count { rows, wrong } = std::mem::replace(count, Count::NONE);
    if rows > 0 || wrong > 0 {
        println!(rt; "{rows} rows, {wrong} wrong")?;
    }
    Ok(())
}

/// What comes of a line where it is not what it says.
fn judged<J: Judge>(
    alloc: Global,
    judge: &mut J,
    count: &mut Count,
    line: &str,
) -> Result<Option<String>, AllocError> {
    if line.is_empty() || line.starts_with('#') {
        return Ok(None);
    }
    let came = match line.split_once(" = ") {
        Some((call, wanted)) => {
            count.rows = count.rows.saturating_add(1);
            other(judge.answer(alloc, call)?, wanted)
        }
        None if judge.set(alloc, line)? => None,
        None => Some(format!(in alloc; "no row")?),
    };
    if came.is_some() {
        count.wrong = count.wrong.saturating_add(1);
    }
    Ok(came)
}

/// What came, where it isn't what is wanted.
fn other(came: String, wanted: &str) -> Option<String> {
    if came.as_str() == wanted {
        None
    } else {
        Some(came)
    }
}
