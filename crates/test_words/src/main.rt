// Every error in words on standard output, a line each behind its number, wanted and seen, and what
// is refused. `tools/words` holds the file `stdout` to the tables of docs/WORDS.md.
#![tactic(auto)]

use console::output::{print_left, print_text};
use lex::Diagnostic;
use std::io;
use words::describe;

// An error with its number, wanted and seen before its words, on a line. This and test_sheet have
// a function each: `console` is not over `words`, and test_sheet prints the words alone.
fn show(rt: &impl Print, number: u32, wanted: u32, seen: u32) -> io::Result<()> {
    let error = Diagnostic {
        number,
        wanted,
        seen,
        ..Diagnostic::default()
    };
    let mut line = [b'.'; 160];
    let answer = describe(error, &mut line);
    print!(rt; "{number} {wanted} {seen} ")?;
    print_text(rt, answer, &line)?;
    println!(rt;)
}

// Each kind as the seen one, and the numbers beside the kinds.
fn show_kinds(rt: &impl Print, number: u32, wanted: u32) -> io::Result<()> {
    for kind in 0..46 {
        show(rt, number, wanted, kind)?;
    }
    Ok(())
}

// What a buffer holds after a call.
fn show_buffer(rt: &impl Print, number: u32, line: &mut [u8]) -> io::Result<()> {
    let error = Diagnostic {
        number,
        start: u32::MAX,
        len: u32::MAX,
        ..Diagnostic::default()
    };
    let answer = describe(error, line);
    print_left(rt, answer, line)
}

fn main(rt: HostRuntime) -> io::Result<()> {
    // each kind as the wanted one, and the numbers beside the kinds
    for kind in 0..46 {
        show_kinds(&rt, 11, kind)?;
    }
    // each number from 0 to past the last
    for number in 0..37 {
        show_kinds(&rt, number, 0)?;
        show(&rt, number, 1, 24)?;
    }
    // each byte that may be unknown, and the number behind them
    for byte in 0..257 {
        show(&rt, 33, 0, byte)?;
    }
    // numbers that fit no byte, or no 16 bits
    for (number, wanted, seen) in [
        (267, 9, 24),
        (65547, 9, 24),
        (u32::MAX, 0, 24),
        (11, 265, 24),
        (11, u32::MAX, 24),
        (11, 9, 280),
        (12, 0, u32::MAX),
        (12, 256, 24),
        (31, 256, 0),
        (31, 0, 256),
        (33, 0, 292),
        (33, 0, u32::MAX),
    ] {
        show(&rt, number, wanted, seen)?;
    }
    // 41 is tested before 42
    show_buffer(&rt, 31, &mut [b'.'; 159])?;
    show_buffer(&rt, 24, &mut [b'.'; 159])?;
    show_buffer(&rt, 31, &mut [b'.'; 170])?;
    show_buffer(&rt, 24, &mut [b'.'; 170])
}
