// What a comparison reads of a tree.
ghost use Rattle.std.specs.Prelude.{◌≡◌};
ghost use Rattle.ast.specs.Answer.{lent_of};
ghost use Rattle.compare.specs.Shapes.{seen, view_of};

use ast::lent::Tree;

// The script, the records, the list cells in use, and how many types there are, beside the types as
// in `Tree`: C lends more cells than are used.
#[derive(Clone, Copy)]
pub(crate) struct View<'a> {
    pub(crate) script: &'a [u8],
    pub(crate) nodes: &'a [u32],
    pub(crate) types: &'a [u32],
    pub(crate) cells: &'a [u32],
    pub(crate) type_count: u32,
}

impl<'a> View<'a> {
    pub(crate) fn new(tree: &'a Tree<'a>) -> View<'a>
        ensures { seen result ≡ view_of (lent_of tree.now) }
    {
        View {
            script: tree.script,
            nodes: tree.nodes,
            types: tree.types,
            cells: tree.cells(),
            type_count: tree.counts.types,
        }
    }
}
