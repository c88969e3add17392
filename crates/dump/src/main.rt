// Lists every derived row of the facts file on standard input, or the one line of its refusal.
#![tactic(auto)]

use listing::dump::dump_input;
use std::io;

fn main(rt: HostRuntime) -> io::Result<()> {
    let text = dump_input(rt.alloc(), rt.stdin())?;
    rt.print(text.as_str())
}
