// Lists many small facts files. Standard input holds the cases as text: a line `# TITLE`, and then the facts, a line to
// each, as `LI 0 0 0`, or bytes in hexadecimal after a `!`, for files that are damaged. Each title is printed, and below it
// what the listing of the case's file is. Lines before the first title are a case only where no title comes.
#![tactic(auto)]

mod cases;

use cases::add_line;
use listing::dump::dump;
use std::io;
use std::io::{BufRead, BufReader};

fn main(rt: HostRuntime) -> io::Result<()> {
    let heap = rt.alloc();
    let mut untitled = Vec::new(heap);
    let mut case: Option<Vec<u8>> = None;
    for line in BufReader::new(heap, rt.stdin())?.lines(heap) {
        let line = line?;
        if line.as_str().starts_with('#') {
            if let Some(file) = case.replace(Vec::new(heap)) {
                print_case(&rt, file)?;
            }
            rt.println(line.as_str())?;
        } else if let Err(fault) = add_line(case.as_mut().unwrap_or(&mut untitled), line.as_str()) {
            return println!(rt; "{fault}");
        }
    }
    print_case(&rt, case.unwrap_or(untitled))
}

fn print_case(rt: &HostRuntime, file: Vec<u8>) -> io::Result<()> {
    rt.print(dump(rt.alloc(), file.as_slice())?.as_str())
}
