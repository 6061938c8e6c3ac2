// Lists the filter on standard input.
#![tactic(auto)]

use disassembly::{LIMIT, listing};
use std::io;
use std::io::{Read, Write};

fn main(rt: HostRuntime) -> io::Result<()> {
    let mut filter = Vec::new(rt.alloc());
    // one byte more than a filter has, so that a longer input shows
    rt.stdin().take(LIMIT as u64 + 1).read_to_end(&mut filter)?;
    let text = listing(rt.alloc(), &filter)?;
    rt.stdout().write_all(text.as_bytes())
}
