// Same shape of two trees in lent arrays. Two things agree if both are well formed and the same.
#![tactic(auto)]

mod kind;
mod node;
mod pairs;
mod type_expr;
mod view;
mod word;

ghost use Rattle.std.specs.Prelude.{◌≡◌};
ghost use Rattle.lex.specs.Answer.{answered};
ghost use Rattle.ast.specs.Answer.{lent_of};
ghost use Rattle.compare.specs.Agree.{Agree, Decides};
ghost use Rattle.compare.specs.Shapes.{shape_in};
ghost use Rattle.compare.specs.Compare.{compare};

use ast::decode::cell;
use ast::lent::Tree;
use ast::schema::NODE_WIDTH;
use ast::{NodeId, Run};
use lex::{MAX_BYTES, Refusal};
use node::agree_node;
use pairs::Pairs;
use view::View;

// The roots of two trees. Beside `agree_nodes`: roots lie in other arrays, and one function of both
// would take eight values.
fn agree_roots<'a>(a: &Tree<'a>, b: &Tree<'a>) -> bool
    ensures { Decides result (Agree (shape_in (lent_of a.now)) (shape_in (lent_of b.now))) }
{
    let r = Run {
        start: 0,
        len: a.counts.roots,
    };
    let r2 = Run {
        start: 0,
        len: b.counts.roots,
    };
    let Some(pairs) = Pairs::new(a.roots, r, b.roots, r2, NODE_WIDTH) else {
        return false;
    };
    let left = View::new(a);
    let right = View::new(b);
    // a `for`, since under `all` no proof was found that the closure speaks of these views
    for (at, at2) in pairs {
        let root = NodeId(cell(a.roots, at, 0));
        let root2 = NodeId(cell(b.roots, at2, 0));
        if !agree_node(&left, a.counts.nodes, root, &right, b.counts.nodes, root2) {
            return false;
        }
    }
    true
}

// Whether two trees have the same shape. A tree that does not agree with itself is malformed. That
// a script is too long, of either tree, is said before that an array is too short.
pub fn same_shape(a: &Tree, b: &Tree) -> Result<bool, Refusal>
    ensures { answered result ≡ compare (lent_of a.now) (lent_of b.now) }
{
    if MAX_BYTES < b.script.len() {
        return Err(Refusal::TooLong);
    }
    a.refusal()?;
    b.refusal()?;
    if !agree_roots(a, a) {
        return Err(Refusal::Malformed);
    }
    if !agree_roots(b, b) {
        return Err(Refusal::Malformed);
    }
    Ok(agree_roots(a, b))
}
