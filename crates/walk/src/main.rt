// Tells the analysis of the facts file on standard input step by step.
#![tactic(auto)]

use listing::walk::walk_input;
use std::io;

fn main(rt: HostRuntime) -> io::Result<()> {
    let text = walk_input(rt.alloc(), rt.stdin())?;
    rt.print(text.as_str())
}
