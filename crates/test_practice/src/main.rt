// Practice sheets in lent buffers that are exactly long enough, too short, and longer, all full of
// dots. Each case on standard input is a seed, a number of lines and the length of the buffer.
// Printed are the answer and the whole buffer.
#![tactic(auto)]

use console::frames::{MAX_CASES, ReadError, each_case, read_number, read_up_to};
use console::output::print_left;
use practice::write_sheet;
use std::io;
use std::io::Read;

const ROOM: usize = 2048;

// The greatest seed and the greatest number of lines.
const MOST: usize = u32::MAX as usize;

// The next case. Answers whether there was one.
fn next_case(rt: &impl Print, input: &mut impl Read) -> Result<bool, ReadError> {
    let Some(seed) = read_number(input, MOST)? else {
        return Ok(false);
    };
    let lines = read_up_to(input, MOST)?;
    let n = read_up_to(input, ROOM)?;
    let mut out = [b'.'; ROOM];
    let answer = write_sheet(seed as u32, lines as u32, &mut out[..n]);
    print_left(rt, answer, &out[..n])?;
    Ok(true)
}

fn main(rt: HostRuntime) -> io::Result<()> {
    let mut input = rt.stdin();
    each_case(&rt, |i| Ok(i < MAX_CASES && next_case(&rt, &mut input)?))
}
