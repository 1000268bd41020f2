//! Reads all tables of rows from standard input. A line == and a name begins the table of that name, which is a library of
//! its own. Prints that line, each row of which something else comes, with what came, and how many rows there were.
#![tactic(auto)]

mod tables;

use std::io;
use tables::Tables;
use test_table::read_tables;

fn main(rt: HostRuntime) -> io::Result<()> {
    let mut tables = Tables::new(rt);
    read_tables(&rt, &mut tables)?;
    tables.clear();
    Ok(())
}
