// Two lists, member by member.
ghost use Rattle.std.specs.Prelude.{◌≤◌, MatchOption};
ghost use Rattle.std.specs.Iterator.{at_most};
ghost use Rattle.compare.specs.Pairs.{InStep, ArePairs, Room, GivesPlaces, TakesLast};

use ast::Run;

// Where the members of two lists begin, pair by pair: the next two places, how many pairs are left,
// and the cells of a member. Places and no parts by `chunks_exact`: tokens and runs are read at a
// place of all cells.
#[derive(Drop)]
pub(crate) struct Pairs {
    pub(crate) at: usize,
    pub(crate) at2: usize,
    pub(crate) left: usize,
    pub(crate) width: usize,
}

impl Pairs {
    // Of two runs, `width` cells a member; none where they differ in length or one lies outside.
    pub(crate) fn new(cells: &[u32], r: Run, cells2: &[u32], r2: Run, width: usize) -> Option<Pairs>
        requires { width ≤ 8 }
        ensures { MatchOption result (InStep width cells.now r cells2.now r2 → ⊥)
            (ArePairs width cells.now r cells2.now r2) }
    {
        let at = r.start as usize;
        let at2 = r2.start as usize;
        let left = r.len as usize;
        if r.len != r2.len {
            return None;
        }
        if cells.len() < at + left * width {
            return None;
        }
        if cells2.len() < at2 + left * width {
            return None;
        }
        Some(Pairs {
            at,
            at2,
            left,
            width,
        })
    }

    // The places of the last pair, which is taken off.
    pub(crate) fn take_last(&mut self) -> Option<(usize, usize)>
        requires { Room self.old }
        ensures { TakesLast self.old result self.new }
    {
        if self.left == 0 {
            return None;
        }
        self.left -= 1;
        let before = self.left * self.width;
        Some((self.at + before, self.at2 + before))
    }
}

impl Iterator for Pairs {
    type Item = (usize, usize);

    ghost can_next = { λ s. Room s };

    ghost next_gives = { λ s r t. GivesPlaces s r t };

    ghost remaining = { λ s. at_most s.left };

    fn next(&mut self) -> Option<(usize, usize)> {
        if self.left == 0 {
            return None;
        }
        let places = (self.at, self.at2);
        self.at += self.width;
        self.at2 += self.width;
        self.left -= 1;
        Some(places)
    }
}
