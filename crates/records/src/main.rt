// Prints the records of a facts file on standard input, one to a line: the offset, the relation's name and its codes.
// A file that cannot be read prints one line: the refusal.
#![tactic(auto)]

use facts::record::Record;
use facts::whole::read_all;
use rows::relation::{NAMES, places};
use rows::row::Row;
use std::io;
use std::io::Read;

fn print_record(rt: &impl Print, record: Record) -> io::Result<()> {
    let Record { offset, row } = record;
    let Row { relation, a, b, c } = row;
    let name = NAMES.get(relation as usize).copied().unwrap_or("");
    match places(relation) {
        1 => println!(rt; "{offset} {name} {a}"),
        2 => println!(rt; "{offset} {name} {a} {b}"),
        _ => println!(rt; "{offset} {name} {a} {b} {c}"),
    }
}

fn main(rt: HostRuntime) -> io::Result<()> {
    let mut bytes = Vec::new(rt.alloc());
    rt.stdin().read_to_end(&mut bytes)?;
    match read_all(rt.alloc(), bytes.as_slice()) {
        Ok(records) => {
            for record in records {
                print_record(&rt, record)?;
            }
            Ok(())
        }
        Err(fault) => println!(rt; "{fault}"),
    }
}

#[cfg(test)]
mod tests;
