// What a tree is lent in: when a call is refused for it, and the list cells in use.
ghost use Rattle.std.specs.Prelude.{◌≡◌};
ghost use Rattle.ast.specs.Answer.{lent_of, cells_of, refusal as refusal_of, refusal_number};

use crate::{Counts, Node, TypeExpr};
use lex::{MAX_BYTES, Refusal};

// The list cells that are lent at least for each byte of the script.
pub const CELLS_PER_BYTE: usize = 8;

// A script, the arrays that hold its tree, and the counts. The counts stay beside the arrays, since
// C lends each array by itself, longer than what is used of it, and the six counts in one of their
// own.
#[derive(Clone, Copy)]
pub struct Tree<'a> {
    pub script: &'a [u8],
    pub nodes: &'a [u32],
    pub types: &'a [u32],
    pub lists: &'a [u32],
    pub roots: &'a [u32],
    pub counts: Counts,
}

impl<'a> Tree<'a> {
    // Refused where the script is too long or an array too short for it.
    #[tactic(auto, unfolding(crate::specs::Answer::refusal))]
    pub fn refusal(&self) -> Result<(), Refusal>
        ensures { refusal_number result ≡ refusal_of (lent_of self.now) }
    {
        let n = self.script.len();
        if MAX_BYTES < n {
            return Err(Refusal::TooLong);
        }
        if self.nodes.len() < Node::WIDTH * n
            || self.types.len() < TypeExpr::WIDTH * n
            || self.lists.len() < CELLS_PER_BYTE * n
            || self.roots.len() < n
        {
            return Err(Refusal::TooShort);
        }
        Ok(())
    }

    // The list cells in use: the first that are counted, or all where there are fewer. They are lent
    // for as long as the array is, whoever holds the tree.
    pub fn cells(&self) -> &'a [u32]
        ensures { result.now ≡ cells_of (lent_of self.now) }
    {
        let n = self.counts.cells as usize;
        self.lists.get(..n).unwrap_or(self.lists)
    }
}
