//! Reads a table of programs with the text of the state to which each comes, and tells those that come to another one, or
//! whose three-address forms do, or whose images on the machine with unbroken power.
#![tactic(auto)]

mod answers;
mod forms;
mod images;
mod table;

use std::io;
use table::Table;

fn main(rt: HostRuntime) -> io::Result<()> {
    let alloc = rt.alloc();
    let mut table = Table::new(alloc);
    for line in rt.lines(alloc) {
        let line = line?;
        if let Some(found) = table.take(alloc, line.as_str())? {
            println!(rt; "{found}")?;
        }
    }
    if let Some(found) = table.finish(alloc)? {
        println!(rt; "{found}")?;
    }
    println!(rt; "{table}")?;
    Ok(())
}
