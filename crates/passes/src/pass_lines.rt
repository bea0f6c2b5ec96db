// The lines of one pass: which they are, and the walk over the places that each receives its words from.
ghost use Rattle.std.specs.Prelude.{◌≡◌, ◌<◌};
ghost use Rattle.passes.specs.declared.line.Pass.{Pass};
ghost use Rattle.passes.specs.PrivateScratch.{line_in, lines_in, moved_from};
ghost use Rattle.passes.specs.PrivateWalks.{Inverted, WalkOf};

use crate::line::{Line, Pass};
use crate::rows::Rows;
use crate::sides::GroupedSides;
use crate::walk::Walk;

// The sides of a block, one pass over it, and, for pass 2, the inverse that its rows need.
#[derive(Clone, Copy)]
pub(crate) struct PassLines {
    pub sides: GroupedSides,
    pub pass: Pass,
    pub inverse: usize,
    ghost inverted: { Inverted sides.m sides.n pass inverse },
}

impl PassLines {
    pub(crate) fn new(sides: GroupedSides, pass: Pass) -> PassLines
        ensures { (result.sides ≡ sides) × (result.pass ≡ pass) }
    {
        match pass {
            Pass::First | Pass::Third => PassLines {
                sides,
                pass,
                inverse: 0,
            },
            Pass::Second => Rows::new(sides).lines_of(pass),
        }
    }

    // The lines of pass 2 are rows.
    pub(crate) fn rows(self) -> Rows
        requires { self.pass ≡ Pass.Second }
        ensures { (result.sides ≡ self.sides) × (result.inverse ≡ self.inverse) }
    {
        Rows {
            sides: self.sides,
            inverse: self.inverse,
        }
    }

    // How many lines the pass has.
    pub(crate) fn count(self) -> usize
        ensures { result ≡ lines_in self.sides.m self.sides.n self.pass }
    {
        match self.pass {
            Pass::First | Pass::Third => self.sides.n,
            Pass::Second => self.sides.m,
        }
    }

    // The first line that moves: the columns of pass 1 before column b stand still, and where the sides share no factor b is n.
    pub(crate) fn moved_from(self) -> usize
        ensures { result ≡ moved_from self.sides.m self.sides.n self.pass }
    {
        match self.pass {
            Pass::First => self.sides.b,
            Pass::Second | Pass::Third => 0,
        }
    }

    // Line t of the pass.
    pub(crate) fn line(self, t: usize) -> Line
        requires { t < lines_in self.sides.m self.sides.n self.pass }
        ensures { result ≡ line_in self.sides.m self.sides.n self.pass t }
    {
        match self.pass {
            Pass::First | Pass::Third => self.sides.column(self.pass, t),
            Pass::Second => self.sides.row(t),
        }
    }

    // The walk over line t: in pass 1 the rows from its turn on, and those before it; in pass 2 the sources of a row, group by group; in pass 3 by n
    // modulo m.
    pub(crate) fn walk(self, t: usize) -> Walk
        requires { t < lines_in self.sides.m self.sides.n self.pass }
        ensures { WalkOf self.sides.m self.sides.n self.pass t result }
    {
        let s = self.sides;
        match self.pass {
            Pass::First => Walk {
                step: 1,
                modulus: s.m,
                size: s.m,
                turn: 0,
                round: s.m,
                split: 0,
            },
            Pass::Second => {
                let sources = Walk {
                    step: s.b,
                    modulus: s.n,
                    size: s.c,
                    turn: self.inverse,
                    round: s.b,
                    split: s.m - t,
                };
                sources.joined(s.n)
            }
            Pass::Third => {
                let rows = Walk {
                    step: s.remainder,
                    modulus: s.m,
                    size: s.a,
                    turn: s.m - 1,
                    round: s.m,
                    split: 0,
                };
                rows.joined(s.m)
            }
        }
    }
}
