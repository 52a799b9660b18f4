// What the lexer yields, as text on standard output: one form a line, tokens by the names of the
// Rust enum.
ghost use Rattle.std.specs.Prelude.{Some};
ghost use Rattle.console.specs.Tokens.{token_text, fault_text};

use lex::{Fault, Lexer, Token, Type};
use std::fmt::{Display, Formatter, Write};
use std::{fmt, io};

// A token as the name of its kind, its start and its length in round brackets. A number that is no
// kind has no name.
#[derive(Clone, Copy)]
pub struct TokenForm(pub Token);

impl Display for TokenForm {
    ghost output = { λ form. Some (token_text form.0) };

    fn fmt<W: Write>(&self, f: &mut Formatter<W>) -> fmt::Result {
        let Token { kind, start, len } = self.0;
        let name = Type::name(kind).unwrap_or("");
        write!(f, "({name} {start} {len})")
    }
}

// A fault as an error of five numbers; a fault wants nothing.
#[derive(Clone, Copy)]
struct FaultForm(Fault);

impl Display for FaultForm {
    ghost output = { λ form. Some (fault_text form.0) };

    fn fmt<W: Write>(&self, f: &mut Formatter<W>) -> fmt::Result {
        let Fault {
            number,
            start,
            len,
            seen,
        } = self.0;
        write!(f, "(diag {number} {start} {len} 0 {seen})")
    }
}

// Every token and fault of a script, in order, Eof last.
pub fn print_script(rt: &impl Print, script: &[u8]) -> io::Result<()> {
    let mut lexer = Lexer::new(script);
    for piece in lexer.by_ref() {
        match piece {
            Ok(token) => println!(rt; "{}", TokenForm(token))?,
            Err(fault) => println!(rt; "{}", FaultForm(fault))?,
        }
    }
    println!(rt; "{}", TokenForm(Token::eof(lexer.pos)))
}
