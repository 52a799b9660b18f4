// Practice sheets: the same script at every site from one seed.
#![tactic(auto)]

mod draw;

ghost use Rattle.std.specs.Prelude.{◌≡◌};
ghost use Rattle.text.specs.Answer.{result as result_of, answer_of};
ghost use Rattle.text.specs.Emit.{Emits};
ghost use Rattle.practice.specs.Practice.{text, leaf, expression};
ghost use Rattle.practice.specs.Practice.{top_level, line, sheet, promised};
ghost use Rattle.practice.specs.Drawing.{WritesDrawn};

use crate::draw::draw;
use lex::Refusal;
use text::{Writer, Writing};

const MAX_LINES: u32 = 16;

const TOP_LEVEL: u32 = 4;

// The writer is lent, and the seed goes by value beside it: each function answers the seed for the
// next draw, so that it need not lie in memory between two draws. For a struct of both no proof was
// found of what the buffer behind the writer ends as.

// A number or a name, by the draw that picks: a number, as the definition `leaf` takes it.
fn write_leaf(pick: u32, seed: u32, w: &mut Writer) -> u32
    ensures { WritesDrawn text (leaf pick seed) w.old w.new result }
{
    let mut next = seed;
    if pick == 0 {
        let n = draw(&mut next, 100);
        w.write_number(n as usize);
    } else {
        let n = draw(&mut next, 10);
        w.write_byte(b'v');
        w.write_number(n as usize);
    }
    next
}

// An expression of a level. The level falls.
fn write_expression(level: u32, seed: u32, w: &mut Writer) -> u32
    ensures { WritesDrawn text (expression level seed) w.old w.new result }
{
    let mut next = seed;
    if level == 0 {
        let pick = draw(&mut next, 2);
        return write_leaf(pick, next, w);
    }
    match draw(&mut next, 4) {
        pick @ 0..=1 => write_leaf(pick, next, w),
        2 => {
            w.write_byte(b'(');
            let behind = write_expression(level - 1, next, w);
            w.write_text(b" + ");
            let last = write_expression(level - 1, behind, w);
            w.write_byte(b')');
            last
        }
        _ => {
            w.write_byte(b'-');
            write_expression(level - 1, next, w)
        }
    }
}

fn write_line(i: u32, seed: u32, w: &mut Writer) -> u32
    ensures { let drawn = expression top_level seed in
        WritesDrawn (line i) drawn w.old w.new result }
{
    w.write_text(b"let v");
    w.write_number(i as usize);
    w.write_text(b" = ");
    let next = write_expression(TOP_LEVEL, seed, w);
    w.write_byte(b'\n');
    next
}

fn write_lines(seed: u32, lines: u32, out: &mut [u8]) -> usize
    ensures { Emits (sheet seed lines) out.old 0 out.new result }
{
    let mut w = Writer { out, at: 0 };
    let mut next = seed;
    for i in 0..lines {
        next = write_line(i, next, &mut w);
    }
    w.at
}

// The sheet of a seed. It is counted on an empty buffer before it is written, so that a buffer
// that is too short stays as it is.
pub fn write_sheet(seed: u32, lines: u32, out: &mut [u8]) -> Writing
    ensures { let left = result_of (answer_of result) out.new in
        left ≡ promised seed lines out.old }
{
    if MAX_LINES < lines {
        return Err(Refusal::TooManyLines);
    }
    let n = write_lines(seed, lines, &mut out[..0]);
    if out.len() < n {
        return Err(Refusal::PracticeTooShort);
    }
    Ok(write_lines(seed, lines, out))
}
