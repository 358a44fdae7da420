//! Reads a table of forms with what the code of their steps comes to, and tells the rows of which it comes to something
//! else.
#![tactic(auto)]

mod answers;
mod forms;
mod operands;
mod program;
mod steps;
mod table;

use std::io;
use table::Table;

fn main(rt: HostRuntime) -> io::Result<()> {
    let alloc = rt.alloc();
    let mut table = Table::new(alloc);
    for line in rt.lines(alloc) {
        let line = line?;
        if let Some(answer) = table.differs(alloc, line.as_str())? {
            println!(rt; "{line}, but the answer is {answer}")?;
        }
    }
    println!(rt; "{table}")?;
    Ok(())
}
