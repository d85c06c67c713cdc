// Lists the TLX case on standard input.
#![tactic(auto)]

use std::io;

fn main(rt: HostRuntime) -> io::Result<()> {
    listing::list_from(&rt, &mut rt.stdin())
}
