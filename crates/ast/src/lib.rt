// The records of a tree and what a reading answers; how records lie in lent arrays, what is lent.
#![tactic(auto)]

pub mod decode;
pub mod lent;
pub mod schema;

ghost use Rattle.std.specs.Prelude.{◌≡◌};
ghost use Rattle.ast.specs.Decode.{counts_at};
ghost use Rattle.ast.specs.Layout.{count_cells};

pub use lent::Tree;
use lex::{Diagnostic, Refusal, Token};

// A list: its first cell and how many members it has.
#[derive(Clone, Copy, Default)]
pub struct Run {
    pub start: u32,
    pub len: u32,
}

#[derive(Clone, Copy)]
pub struct NodeId(pub u32);

#[derive(Clone, Copy)]
pub struct TypeExprId(pub u32);

#[derive(Clone, Copy)]
pub enum Node {
    Atom {
        id: u32,
        raw: Token,
    },
    Ident {
        id: u32,
        name: Token,
    },
    Bin {
        id: u32,
        op: Token,
        lhs: NodeId,
        rhs: NodeId,
    },
    Unary {
        id: u32,
        op: Token,
        rhs: NodeId,
    },
    Let {
        id: u32,
        docs: Run,
        name: Token,
        rhs: NodeId,
    },
    Fn {
        id: u32,
        docs: Run,
        name: Token,
        args: Run,
        return_type: TypeExprId,
        body: Run,
    },
    Match {
        id: u32,
        cases: Run,
        default_token: Token,
        default_body: Run,
    },
    Call {
        id: u32,
        target: NodeId,
        args: Run,
    },
    Field {
        id: u32,
        target: NodeId,
        name: Token,
    },
    Cast {
        id: u32,
        src: Token,
        lhs: NodeId,
        rhs: TypeExprId,
    },
    Import {
        id: u32,
        src: Token,
        pkgs: Run,
    },
    Extern {
        id: u32,
        src: Token,
        docs: Run,
        name: Token,
        fns: Run,
    },
    Record {
        id: u32,
        src: Token,
        fields: Run,
    },
    Array {
        id: u32,
        src: Token,
        members: Run,
    },
}

impl Node {
    // The cells of a record.
    pub const WIDTH: usize = 16;
}

// The kinds of node are numbers, in the order of `Node`. A record's first cell is its kind.
// No enum: it would be turned into its number at every store and back at every read.
#[derive(Clone, Copy)]
pub struct NodeKind(pub u32);

impl NodeKind {
    pub const ATOM: u32 = 1;

    pub const IDENT: u32 = 2;

    pub const BIN: u32 = 3;

    pub const UNARY: u32 = 4;

    pub const LET: u32 = 5;

    pub const FN: u32 = 6;

    pub const MATCH: u32 = 7;

    pub const CALL: u32 = 8;

    pub const FIELD: u32 = 9;

    pub const CAST: u32 = 10;

    pub const IMPORT: u32 = 11;

    pub const EXTERN: u32 = 12;

    pub const RECORD: u32 = 13;

    pub const ARRAY: u32 = 14;
}

#[derive(Clone, Copy)]
pub enum TypeExpr {
    Atom(Token),
    Foreign(Token),
    Option(TypeExprId),
    Array(TypeExprId),
    Record { src: Token, fields: Run },
}

impl TypeExpr {
    // The cells of a record.
    pub const WIDTH: usize = 8;
}

// The kinds of type are numbers, in the order of `TypeExpr`. A record's first cell is its kind.
// No enum: it would be turned into its number at every store and back at every read.
#[derive(Clone, Copy)]
pub struct TypeExprKind(pub u32);

impl TypeExprKind {
    pub const ATOM: u32 = 1;

    pub const FOREIGN: u32 = 2;

    pub const OPTION: u32 = 3;

    pub const ARRAY: u32 = 4;

    pub const RECORD: u32 = 5;
}

// The cells of a diagnostic's record.
pub const DIAGNOSTIC_WIDTH: usize = 5;

// How many records, list cells, roots, values and diagnostics a reading made.
#[derive(Clone, Copy, Default, PartialEq, Eq)]
pub struct Counts {
    pub nodes: u32,
    pub types: u32,
    pub cells: u32,
    pub roots: u32,
    pub values: u32,
    pub diagnostics: u32,
}

// Six cells hold them, in this order.
impl From<&[u32; 6]> for Counts {
    ghost from_gives = { λ cells counts. counts ≡ counts_at cells.now };

    fn from(cells: &[u32; 6]) -> Counts
        ensures { result ≡ counts_at cells.now }
    {
        let [nodes, types, cells, roots, values, diagnostics] = *cells;
        Counts {
            nodes,
            types,
            cells,
            roots,
            values,
            diagnostics,
        }
    }
}

// And back.
impl From<Counts> for [u32; 6] {
    ghost from_gives = { λ counts cells. cells ≡ count_cells counts };

    fn from(counts: Counts) -> [u32; 6]
        ensures { result ≡ count_cells counts }
    {
        [
            counts.nodes,
            counts.types,
            counts.cells,
            counts.roots,
            counts.values,
            counts.diagnostics,
        ]
    }
}

// Why a reading has no tree: what was lent, or the script.
#[derive(Clone, Copy, PartialEq, Eq)]
pub enum ReadError {
    Refused(Refusal),
    Script(Diagnostic),
}

// What a reading answers.
pub type Parsed = Result<Counts, ReadError>;
