// Shows the tokens and faults of one script on standard input and how many tokens stand before Eof.
// Of a script of more than 4,096 bytes it shows those of the first 4,096, and `(cut)` in the last
// line.
#![tactic(auto)]

ghost use Rattle.std.specs.Prelude.{◌≡◌, ◌+◌, length};
ghost use Rattle.lex.specs.Lex.{tokens_from};

use console::frames::read_full;
use lex::Lexer;
use std::io;
use std::io::Read;

// How many tokens there are before Eof.
// A loop: `filter` and `count` promise of whole runs of the lexer, whose laws are of single steps.
fn count(script: &[u8]) -> usize
    ensures { length (tokens_from script.now 0) ≡ result + 1 }
{
    let mut n: usize = 0;
    for piece in Lexer::new(script) {
        if piece.is_ok() {
            n += 1;
        }
    }
    n
}

// Says that there is more than was shown, where another byte can be read.
fn print_cut(rt: &impl Print, input: &mut impl Read) -> io::Result<()> {
    let mut next = [0u8; 1];
    if read_full(input, &mut next)? == 1 {
        println!(rt; "(cut)")?;
    }
    Ok(())
}

fn main(rt: HostRuntime) -> io::Result<()> {
    let mut input = rt.stdin();
    let mut buf = [0u8; 4096];
    let n = read_full(&mut input, &mut buf)?;
    console::tokens::print_script(&rt, &buf[..n])?;
    println!(rt; "(tokens {})", count(&buf[..n]))?;
    print_cut(&rt, &mut input)
}
