// Strict mode: reads a script from standard input, at most 960 bytes, and prints its listing;
// `(long)` for a longer one.
#![tactic(auto)]

use list_script::Buffers;
use std::io;

fn main(rt: HostRuntime) -> io::Result<()> {
    list_script::print_input(&rt, &mut rt.stdin(), Buffers::parse)
}
