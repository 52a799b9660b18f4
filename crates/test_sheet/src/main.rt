// The words of every error number and every kind, and sheets with their refusals, on standard
// output. `stdout` is written from the table in docs/WORDS.md by tools/test_sheet.
#![tactic(auto)]

use console::output::{print_left, print_text};
use lex::Diagnostic;
use sheet::print_sheet;
use std::io;
use words::describe;

fn diagnostic(number: u32, wanted: u32, seen: u32) -> Diagnostic {
    Diagnostic {
        number,
        wanted,
        seen,
        ..Diagnostic::default()
    }
}

// The words of an error, on a line. This and test_words have a function each: `console` is not over
// `words`, and test_words prints the numbers too.
fn show(rt: &impl Print, number: u32, wanted: u32, seen: u32) -> io::Result<()> {
    let mut line = [b'.'; 160];
    let answer = describe(diagnostic(number, wanted, seen), &mut line);
    print_text(rt, answer, &line)?;
    println!(rt;)
}

// A buffer of 159 bytes, and what it holds then.
fn show_short(rt: &impl Print) -> io::Result<()> {
    let mut line = [b'.'; 159];
    let answer = describe(diagnostic(31, 0, 0), &mut line);
    print_left(rt, answer, &line)
}

// The answer to a sheet in the first `room` bytes of a buffer, and what the buffer holds then.
fn show_sheet(rt: &impl Print, script: &[u8], errors: &[u32], room: usize) -> io::Result<()> {
    let mut buffer = [b'.'; 256];
    let room = room.min(buffer.len());
    let answer = print_sheet(script, errors, &mut buffer[..room]);
    print_left(rt, answer, &buffer)
}

fn main(rt: HostRuntime) -> io::Result<()> {
    for number in 0..36 {
        show(&rt, number, 0, 24)?;
    }
    for kind in 0..45 {
        show(&rt, 11, kind, 25)?;
        show(&rt, 12, 0, kind)?;
    }
    for (number, wanted, seen) in [
        (31, 0, 0),
        (32, 0, 0),
        (33, 0, 0),
        (33, 0, 175),
        (33, 0, 255),
        (33, 0, 256),
        (34, 0, 0),
        (34, 1, 0),
    ] {
        show(&rt, number, wanted, seen)?;
    }
    show_short(&rt)?;
    let script = b"let x = 1\nlet y 2";
    let errors = [11u32, 16, 1, 9, 24, 18, 4, 1, 0, 20, 7, 7];
    show_sheet(&rt, script, &errors, 256)?;
    show_sheet(&rt, script, &errors, 219)?;
    show_sheet(&rt, script, &errors, 218)?;
    let one = [11u32, 16, 1, 9, 24, 18, 4, 1, 0];
    show_sheet(&rt, script, &one, 73)?;
    let none = [11u32, 16, 1, 9];
    show_sheet(&rt, script, &none, 0)?;
    let end = [31u32, 17, 1, 0, 0];
    show_sheet(&rt, script, &end, 73)?;
    let past = [31u32, 18, 1, 0, 0, 24, 0, 0, 0, 0];
    show_sheet(&rt, script, &past, 0)?;
    let wordless = [24u32, 18, 1, 0, 0, 31, 18, 1, 0, 0];
    show_sheet(&rt, script, &wordless, 0)
}
