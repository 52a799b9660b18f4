// The listing of a reading on standard output.
#![tactic(auto)]

ghost use Rattle.std.specs.Prelude.{◌≡◌, ◌*◌, replicate};
ghost use Rattle.rules.specs.Rules.{stage_one};
ghost use Rattle.rules.specs.Parse.{parse, parse_collect};
ghost use Rattle.rules.specs.Parsed.{parsed_of};
ghost use Rattle.rules.specs.Promise.{arrays_of};
ghost use Rattle.parser.specs.Steps.{parse_promised};
ghost use Rattle.listing.specs.Listing.{held};

use ast::lent::CELLS_PER_BYTE;
use ast::{Counts, DIAGNOSTIC_WIDTH, Node, Parsed, TypeExpr};
use console::frames::read_full;
use listing::{Arrays, Failure, ListingError};
use std::io;
use std::io::Read;
use tokens::{ERROR_WIDTH, TOKEN_WIDTH};

// The longest script that is listed, in bytes.
pub const MAX_SCRIPT: usize = 960;

// Room for its listing: nodes, types, errors and list members are each at most as many as its
// bytes, and none takes over 64 bytes.
const ROOM: usize = 262144;

// The arrays that a reading of such a script fills.
#[derive(PartialEq, Eq, Drop)]
pub struct Buffers {
    pub tokens: [u32; TOKEN_WIDTH * (MAX_SCRIPT + 1)],
    pub errors: [u32; ERROR_WIDTH * MAX_SCRIPT],
    pub nodes: [u32; Node::WIDTH * MAX_SCRIPT],
    pub types: [u32; TypeExpr::WIDTH * MAX_SCRIPT],
    pub lists: [u32; CELLS_PER_BYTE * MAX_SCRIPT],
    pub roots: [u32; MAX_SCRIPT],
    pub diagnostics: [u32; DIAGNOSTIC_WIDTH * MAX_SCRIPT],
}

impl Buffers {
    // Each cell is `cell`.
    pub fn filled(cell: u32) -> Buffers
        ensures { result ≡ record {
          tokens = replicate 3844 cell;
          errors = replicate 5760 cell;
          nodes = replicate 15360 cell;
          types = replicate 7680 cell;
          lists = replicate 7680 cell;
          roots = replicate 960 cell;
          diagnostics = replicate 4800 cell;
        } }
    {
        Buffers {
            tokens: [cell; TOKEN_WIDTH * (MAX_SCRIPT + 1)],
            errors: [cell; ERROR_WIDTH * MAX_SCRIPT],
            nodes: [cell; Node::WIDTH * MAX_SCRIPT],
            types: [cell; TypeExpr::WIDTH * MAX_SCRIPT],
            lists: [cell; CELLS_PER_BYTE * MAX_SCRIPT],
            roots: [cell; MAX_SCRIPT],
            diagnostics: [cell; DIAGNOSTIC_WIDTH * MAX_SCRIPT],
        }
    }

    // What is listed of them.
    pub fn arrays(&self) -> Arrays<'_>
        ensures { held result ≡ arrays_of self.now.nodes self.now.types self.now.lists
            self.now.roots self.now.diagnostics }
    {
        Arrays {
            nodes: &self.nodes,
            types: &self.types,
            lists: &self.lists,
            roots: &self.roots,
            diagnostics: &self.diagnostics,
        }
    }

    // Reads a script in strict mode. Two methods, one for each entry point of the parser, which
    // takes each array by itself.
    pub fn parse(&mut self, script: &[u8]) -> Parsed
        ensures { let before = arrays_of self.old.nodes self.old.types self.old.lists
            self.old.roots self.old.diagnostics in
            let after = arrays_of self.new.nodes self.new.types self.new.lists
            self.new.roots self.new.diagnostics in
            parse_promised (parse stage_one) script.now self.old.tokens self.old.errors before
            ≡ record {
              answer = parsed_of result;
              arrays = after;
              tokens = self.new.tokens;
              errors = self.new.errors;
            } }
    {
        parser::parse(
            script,
            &mut self.tokens,
            &mut self.errors,
            &mut self.nodes,
            &mut self.types,
            &mut self.lists,
            &mut self.roots,
            &mut self.diagnostics,
        )
    }

    // The same, errors gathered.
    pub fn parse_collect(&mut self, script: &[u8]) -> Parsed
        ensures { let before = arrays_of self.old.nodes self.old.types self.old.lists
            self.old.roots self.old.diagnostics in
            let after = arrays_of self.new.nodes self.new.types self.new.lists
            self.new.roots self.new.diagnostics in
            parse_promised (parse_collect stage_one) script.now self.old.tokens self.old.errors
            before
            ≡ record {
              answer = parsed_of result;
              arrays = after;
              tokens = self.new.tokens;
              errors = self.new.errors;
            } }
    {
        parser::parse_collect(
            script,
            &mut self.tokens,
            &mut self.errors,
            &mut self.nodes,
            &mut self.types,
            &mut self.lists,
            &mut self.roots,
            &mut self.diagnostics,
        )
    }
}

// The listing of what a reading answered and left in the arrays.
pub fn print(rt: &impl Print, answer: Result<Counts, Failure>, arrays: &Arrays) -> io::Result<()> {
    let mut out = [0u8; ROOM];
    match listing::write_listing(answer, arrays, &mut out) {
        Ok(n) => rt.write_all(&out[..n]),
        Err(ListingError::Short) => println!(rt; "(short)"),
        Err(ListingError::Malformed) => println!(rt; "(malformed)"),
    }
}

// The listing of a script, as `read` reads it; `(long)` for one that is too long to be listed.
pub fn print_script<R>(rt: &impl Print, script: &[u8], read: R) -> io::Result<()>
where
    R: FnOnce(&mut Buffers, &[u8]) -> Parsed,
    requires { R.IsAlwaysCallable read }
{
    if MAX_SCRIPT < script.len() {
        return println!(rt; "(long)");
    }
    let mut buffers = Buffers::filled(0);
    let answer = read(&mut buffers, script);
    print(rt, answer.map_err(Failure::from), &buffers.arrays())
}

// The same of the script that is read from `input`. The bound on `R` and what is required of `read`
// stand here again: a call needs both, and `print_script` also serves a script that is in memory.
pub fn print_input<R>(rt: &impl Print, input: &mut impl Read, read: R) -> io::Result<()>
where
    R: FnOnce(&mut Buffers, &[u8]) -> Parsed,
    requires { R.IsAlwaysCallable read }
{
    let mut buf = [0u8; 4096];
    let n = read_full(input, &mut buf)?;
    print_script(rt, &buf[..n], read)
}
