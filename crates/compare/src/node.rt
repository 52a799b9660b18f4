// When two nodes, or two lists that hold nodes, agree. The number of a node falls from call to
// call. The limits `n` and `m` stay beside the views: they fall from call to call, while a view is
// lent.
ghost use Rattle.std.specs.Prelude.{◌≡◌, ◌≢◌, ℕ, true, ◌*◌, ◌<◌};
ghost use Rattle.ast.specs.Layout.{node_width};
ghost use Rattle.rules.specs.Shape.{word, shapes, cases};
ghost use Rattle.ast.specs.Decode.{token_at, run_at};
ghost use Rattle.compare.specs.Agree.{Agree, Decides};
ghost use Rattle.compare.specs.Shapes.{seen, nodes_below, env_below};
ghost use Rattle.compare.specs.Parts.{PartsAgree, Ordered};
ghost use Rattle.compare.specs.Orders.{number, FieldAgrees, AreFirst, IsLast, member_cells};

use crate::kind::kind_at;
use crate::pairs::Pairs;
use crate::type_expr::{agree_fns, agree_params, agree_type};
use crate::view::View;
use crate::word::{agree_token_at, agree_words, formed_at};
use ast::decode::{cell, run_at};
use ast::schema::{CASE_WIDTH, NODE_WIDTH, Sort};
use ast::{Node, NodeId, NodeKind, Run, TypeExprId};

// A part of a node's record, with the cell in which it stands. `Nothing` and no `Option`: the parts
// are compared by one loop over an array of four, which fills one register; four options do not,
// and with these a comparison takes up to 5 % more instructions.
#[derive(Clone, Copy)]
enum Part {
    Nothing,
    Token(u8),
    Tokens(u8),
    Params(u8),
    Type(u8),
    Fns(u8),
    Nodes(u8),
    Cases(u8),
    Node(u8),
}

// A part that is compared last: a node, or a list of nodes, each behind a name or not. A list of
// fields is no third case, since both lists are walked by one loop, in the frame of `agree_node`.
#[derive(Clone, Copy)]
enum Last {
    Node(u8),
    Nodes { cell: u8, named: bool },
}

// The orders in which the parts of a node are compared: one for each kind, and two more. Its kind's
// own one has the left side of an operator and the target of a call last; where that is a name, an
// atom or no node, it is compared first. Either order decides the same, and so chains on the right
// and in arguments take no stack either.
// An enum, no closures: what is last is a call in `agree_node`'s own frame, which takes no stack.
#[derive(Clone, Copy)]
enum Order {
    Atom,
    Ident,
    Bin,
    Unary,
    Let,
    Fn,
    Match,
    Call,
    Field,
    Cast,
    Import,
    Extern,
    Record,
    Array,
    RightLast,
    ArgumentsLast,
}

impl Order {
    // The parts that are compared first, and nothing behind them.
    fn first(self) -> [Part; 4]
        ensures { AreFirst self result }
    {
        let none = Part::Nothing;
        match self {
            Order::Atom => [Part::Token(2), none, none, none],
            Order::Ident => [Part::Token(2), none, none, none],
            Order::Bin => [Part::Token(2), Part::Node(6), none, none],
            Order::Unary => [Part::Token(2), none, none, none],
            Order::Let => [Part::Tokens(2), Part::Token(4), none, none],
            Order::Fn => [
                Part::Tokens(2),
                Part::Token(4),
                Part::Params(7),
                Part::Type(9),
            ],
            Order::Match => [Part::Cases(2), Part::Token(4), none, none],
            Order::Call => [Part::Nodes(3), none, none, none],
            Order::Field => [Part::Token(3), none, none, none],
            Order::Cast => [Part::Token(2), Part::Type(6), none, none],
            Order::Import => [Part::Token(2), Part::Tokens(5), none, none],
            Order::Extern => [
                Part::Token(2),
                Part::Tokens(5),
                Part::Token(7),
                Part::Fns(10),
            ],
            Order::Record => [Part::Token(2), none, none, none],
            Order::Array => [Part::Token(2), none, none, none],
            Order::RightLast => [Part::Token(2), Part::Node(5), none, none],
            Order::ArgumentsLast => [Part::Node(2), none, none, none],
        }
    }

    // The part that is compared last, if there is one.
    fn last(self) -> Option<Last>
        ensures { IsLast self result }
    {
        match self {
            Order::Bin => Some(Last::Node(5)),
            Order::Unary => Some(Last::Node(5)),
            Order::Let => Some(Last::Node(7)),
            Order::Fn => Some(Last::Nodes {
                cell: 10,
                named: false,
            }),
            Order::Match => Some(Last::Nodes {
                cell: 7,
                named: false,
            }),
            Order::Call => Some(Last::Node(2)),
            Order::Field => Some(Last::Node(2)),
            Order::Cast => Some(Last::Node(5)),
            Order::Record => Some(Last::Nodes {
                cell: 5,
                named: true,
            }),
            Order::Array => Some(Last::Nodes {
                cell: 5,
                named: false,
            }),
            Order::RightLast => Some(Last::Node(6)),
            Order::ArgumentsLast => Some(Last::Nodes {
                cell: 3,
                named: false,
            }),
            Order::Atom => None,
            Order::Ident => None,
            Order::Import => None,
            Order::Extern => None,
        }
    }
}

// Node `i` is a name or an atom, or is no node: then the comparison ends there, and nothing else is
// gone into before.
fn is_leaf(nodes: &[u32], i: u32) -> bool {
    kind_at(nodes, Node::WIDTH, NodeKind::ARRAY, i).is_none_or(|kind| kind <= NodeKind::IDENT)
}

// The order for node `i` of a known kind: 1 to 14, by `kind_at`. An enum of them would be
// `NodeKind`, which says why it is none.
fn order_of(nodes: &[u32], kind: u32, i: u32) -> Order
    requires { (kind ≢ 0) × (kind < 15) }
    ensures { Ordered kind (number result) }
{
    let at = Node::WIDTH * i as usize;
    match kind {
        NodeKind::ATOM => Order::Atom,
        NodeKind::IDENT => Order::Ident,
        NodeKind::BIN => {
            if is_leaf(nodes, cell(nodes, at, 5)) {
                Order::RightLast
            } else {
                Order::Bin
            }
        }
        NodeKind::UNARY => Order::Unary,
        NodeKind::LET => Order::Let,
        NodeKind::FN => Order::Fn,
        NodeKind::MATCH => Order::Match,
        NodeKind::CALL => {
            if is_leaf(nodes, cell(nodes, at, 2)) {
                Order::ArgumentsLast
            } else {
                Order::Call
            }
        }
        NodeKind::FIELD => Order::Field,
        NodeKind::CAST => Order::Cast,
        NodeKind::IMPORT => Order::Import,
        NodeKind::EXTERN => Order::Extern,
        NodeKind::RECORD => Order::Record,
        _ => Order::Array,
    }
}

// Node `i`, below `n`, and node `j`, below `m`. The last child, or the last member of the last
// list, is the last thing done: so a long chain takes no stack.
#[cycle(agreement)]
pub(crate) fn agree_node(a: &View, n: u32, i: NodeId, b: &View, m: u32, j: NodeId) -> bool
    ensures { Decides result (Agree (nodes_below (seen a.now) n i.0)
        (nodes_below (seen b.now) m j.0)) }
{
    if n <= i.0 {
        return false;
    }
    if m <= j.0 {
        return false;
    }
    let Some(kind) = kind_at(a.nodes, Node::WIDTH, NodeKind::ARRAY, i.0) else {
        return false;
    };
    let Some(kind2) = kind_at(b.nodes, Node::WIDTH, NodeKind::ARRAY, j.0) else {
        return false;
    };
    if kind != kind2 {
        return false;
    }
    let order = order_of(a.nodes, kind, i.0);
    if !agree_parts(a, i.0, b, j.0, order) {
        return false;
    }
    agree_last(a, i.0, b, j.0, order)
}

// The names of two members of a list, where its members have one.
fn agree_name(a: &View, at: usize, b: &View, at2: usize, named: bool) -> bool
    ensures { let left = word a.now.script.now (token_at a.now.cells.now at) in
        let right = word b.now.script.now (token_at b.now.cells.now at2) in
        Decides result (named ≡ true → Agree left right) }
{
    if named {
        return agree_token_at(a, a.cells, at, b, b.cells, at2);
    }
    true
}

// The cells of a member of a list of nodes, each behind a name or not.
fn member_cells(named: bool) -> usize
    ensures { result ≡ member_cells named }
{
    if named {
        Sort::Fields.width()
    } else {
        Sort::Nodes.width()
    }
}

// The last part of two nodes in one order: nothing, a node, or a list of fields or of nodes. Only
// `agree_node` calls this, and as the last thing done: so it is put into its frame, and the last
// node or member is a turn of its loop. A call of `agree_nodes` would take stack at each level.
#[cycle(agreement)]
fn agree_last(a: &View, i: u32, b: &View, j: u32, order: Order) -> bool
    ensures { let agrees =
        PartsAgree (env_below (seen a.now) i) (env_below (seen b.now) j) (number order)
        a.now.nodes.now (node_width * i) b.now.nodes.now (node_width * j)
        in
        Decides result (agrees 5) }
{
    let at = Node::WIDTH * i as usize;
    let at2 = Node::WIDTH * j as usize;
    match order.last() {
        None => true,
        Some(Last::Node(o)) => {
            let child = NodeId(cell(a.nodes, at, o as usize));
            let child2 = NodeId(cell(b.nodes, at2, o as usize));
            agree_node(a, i, child, b, j, child2)
        }
        Some(Last::Nodes { cell: o, named }) => {
            let width = member_cells(named);
            let (r, r2) = runs_at(a, at + o as usize, b, at2 + o as usize);
            let Some(mut pairs) = Pairs::new(a.cells, r, b.cells, r2, width) else {
                return false;
            };
            let Some((last, last2)) = pairs.take_last() else {
                return true;
            };
            // as in `agree_nodes`
            for (at, at2) in pairs {
                if !agree_name(a, at, b, at2, named) {
                    return false;
                }
                let member = NodeId(cell(a.cells, at, width - 1));
                let member2 = NodeId(cell(b.cells, at2, width - 1));
                if !agree_node(a, i, member, b, j, member2) {
                    return false;
                }
            }
            if !agree_name(a, last, b, last2, named) {
                return false;
            }
            let member = NodeId(cell(a.cells, last, width - 1));
            let member2 = NodeId(cell(b.cells, last2, width - 1));
            agree_node(a, i, member, b, j, member2)
        }
    }
}

// The parts of two nodes in one order, but for the last.
#[cycle(agreement)]
fn agree_parts(a: &View, i: u32, b: &View, j: u32, order: Order) -> bool
    ensures { let agrees =
        PartsAgree (env_below (seen a.now) i) (env_below (seen b.now) j) (number order)
        a.now.nodes.now (node_width * i) b.now.nodes.now (node_width * j)
        in
        Decides result ((x : ℕ) → x < 5 → agrees x) }
{
    for part in order.first() {
        if let Part::Nothing = part {
            return true;
        }
        if !agree_part(a, i, b, j, part) {
            return false;
        }
    }
    true
}

// The runs from cell `at` of the left nodes and from cell `at2` of the right ones on.
fn runs_at(a: &View, at: usize, b: &View, at2: usize) -> (Run, Run)
    ensures { (result.0 ≡ run_at a.now.nodes.now at) × (result.1 ≡ run_at b.now.nodes.now at2) }
{
    (run_at(a.nodes, at), run_at(b.nodes, at2))
}

// One part of two nodes.
#[cycle(agreement)]
fn agree_part(a: &View, i: u32, b: &View, j: u32, part: Part) -> bool
    ensures { let agrees =
        FieldAgrees (env_below (seen a.now) i) (env_below (seen b.now) j)
        a.now.nodes.now (node_width * i) b.now.nodes.now (node_width * j)
        in
        Decides result (agrees part) }
{
    let at = Node::WIDTH * i as usize;
    let at2 = Node::WIDTH * j as usize;
    match part {
        Part::Nothing => true,
        Part::Token(o) => {
            agree_token_at(a, a.nodes, at + o as usize, b, b.nodes, at2 + o as usize)
        }
        Part::Tokens(o) => {
            let (r, r2) = runs_at(a, at + o as usize, b, at2 + o as usize);
            agree_words(a, r, b, r2)
        }
        Part::Params(o) => {
            let (r, r2) = runs_at(a, at + o as usize, b, at2 + o as usize);
            agree_params(a, a.type_count, r, b, b.type_count, r2)
        }
        Part::Type(o) => {
            let child = TypeExprId(cell(a.nodes, at, o as usize));
            let child2 = TypeExprId(cell(b.nodes, at2, o as usize));
            agree_type(a, a.type_count, child, b, b.type_count, child2)
        }
        Part::Fns(o) => {
            let (r, r2) = runs_at(a, at + o as usize, b, at2 + o as usize);
            agree_fns(a, a.type_count, r, b, b.type_count, r2)
        }
        Part::Nodes(o) => {
            let (r, r2) = runs_at(a, at + o as usize, b, at2 + o as usize);
            agree_nodes(a, i, r, b, j, r2)
        }
        Part::Cases(o) => {
            let (r, r2) = runs_at(a, at + o as usize, b, at2 + o as usize);
            agree_cases(a, i, r, b, j, r2)
        }
        Part::Node(o) => {
            let child = NodeId(cell(a.nodes, at, o as usize));
            let child2 = NodeId(cell(b.nodes, at2, o as usize));
            agree_node(a, i, child, b, j, child2)
        }
    }
}

// Two lists of nodes, those below `i` and `j`.
#[cycle(agreement)]
fn agree_nodes(a: &View, i: u32, r: Run, b: &View, j: u32, r2: Run) -> bool
    ensures { let left = env_below (seen a.now) i in
        let right = env_below (seen b.now) j in
        Decides result (Agree (shapes left r) (shapes right r2)) }
{
    let Some(pairs) = Pairs::new(a.cells, r, b.cells, r2, NODE_WIDTH) else {
        return false;
    };
    // a `for`, since a closure in a cycle of calls wants a clause that is longer than this loop
    for (at, at2) in pairs {
        let member = NodeId(cell(a.cells, at, 0));
        let member2 = NodeId(cell(b.cells, at2, 0));
        if !agree_node(a, i, member, b, j, member2) {
            return false;
        }
    }
    true
}

// Two lists of cases: condition and body. Of a case's own token only that it is well formed counts.
#[cycle(agreement)]
fn agree_cases(a: &View, i: u32, r: Run, b: &View, j: u32, r2: Run) -> bool
    ensures { let left = env_below (seen a.now) i in
        let right = env_below (seen b.now) j in
        Decides result (Agree (cases left r) (cases right r2)) }
{
    let Some(pairs) = Pairs::new(a.cells, r, b.cells, r2, CASE_WIDTH) else {
        return false;
    };
    // as in `agree_nodes`
    for (at, at2) in pairs {
        if !formed_at(a, at) {
            return false;
        }
        if !formed_at(b, at2) {
            return false;
        }
        let condition = NodeId(cell(a.cells, at, 3));
        let condition2 = NodeId(cell(b.cells, at2, 3));
        if !agree_node(a, i, condition, b, j, condition2) {
            return false;
        }
        if !agree_nodes(
            a,
            i,
            run_at(a.cells, at + 4),
            b,
            j,
            run_at(b.cells, at2 + 4),
        ) {
            return false;
        }
    }
    true
}
