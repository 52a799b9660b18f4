// How collecting mode goes on after an error.
ghost use Rattle.std.specs.Prelude.{◌≡◌, List, ℕ};
ghost use Rattle.parser_state.specs.Represents.{reading, code_of};
ghost use Rattle.parser_state.specs.Refines.{Refines, stack_unchanged, failed};
ghost use Rattle.parser_state.specs.Keeps.{KeepsAll};
ghost use Rattle.lex.specs.declared.diagnostic.Diagnostic.{Diagnostic};
ghost use Rattle.parser.specs.Whole.{Resumes, root_boundary, skips, synchronizing};

use crate::drop_docs;
use lex::Type;
use parser_state::Parser;

// What was under construction when a reading failed is given up, its docs are dropped, and the
// reading goes on.
pub(crate) fn resume(p: &mut Parser)
    ensures resumes { (tokens : List ℕ) (e : Diagnostic) →
        Resumes tokens (failed (code_of p.old) e) (code_of p.new) }
    ensures keeps { KeepsAll p.old p.new }
{
    p.used.scratch = 0;
    drop_docs(p);
}

// A token that may begin a root, or ends a block or the script.
fn is_root_boundary(kind: u32) -> bool
    ensures { result ≡ root_boundary kind }
{
    matches!(
        kind,
        Type::LET
            | Type::FN
            | Type::IMPORT
            | Type::EXTERN
            | Type::MATCH
            | Type::CURLY_RIGHT
            | Type::EOF
    )
}

// The token being read is passed over.
fn skips(p: &Parser) -> bool
    ensures { result ≡ skips (reading p.now) }
{
    !is_root_boundary(p.kind())
}

// To the next token that may begin a root, past it where it is `}`.
pub(crate) fn synchronize_root(p: &mut Parser, tokens: &[u32])
    ensures reads { Refines tokens.now 0 0 synchronizing (λ n. n ≡ 0) stack_unchanged 0 0 0
        (code_of p.old) (code_of p.new) }
    ensures keeps { KeepsAll p.old p.new }
{
    while skips(p) {
        p.advance(tokens);
    }
    if p.kind() == Type::CURLY_RIGHT {
        p.advance(tokens);
    }
}
