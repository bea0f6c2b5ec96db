// The rows of pass 2: the inverse that they need, and where the walk over the sources of a row begins.
ghost use Rattle.std.specs.Prelude.{◌≡◌, ◌+◌, ◌<◌};
ghost use Rattle.flat.specs.Passes.{row_group, column_group};
ghost use Rattle.walks.specs.PrivateSource.{Inverse};
ghost use Rattle.passes.specs.PrivateWalks.{SourceAt};

use crate::line::Pass;
use crate::pass_lines::PassLines;
use crate::sides::GroupedSides;
use crate::walk::Place;
use crate::{gcd, walk};

// The sides of a block with the inverse of a modulo b, which the rows of pass 2 need.
#[derive(Clone, Copy)]
pub(crate) struct Rows {
    pub sides: GroupedSides,
    pub inverse: usize,
    ghost inverse_is: { Inverse (row_group sides.m sides.n) (column_group sides.m sides.n) inverse },
}

impl Rows {
    pub(crate) fn new(sides: GroupedSides) -> Rows
        ensures { result.sides ≡ sides }
    {
        Rows {
            sides,
            inverse: gcd::inverse(sides.a, sides.b),
        }
    }

    // The lines of a pass over the block: the columns need no inverse, and have this one.
    pub(crate) fn lines_of(self, pass: Pass) -> PassLines
        ensures { (result.sides ≡ self.sides) × (result.pass ≡ pass) }
    {
        PassLines {
            sides: self.sides,
            pass,
            inverse: self.inverse,
        }
    }

    // The source of place 0 of row i.
    pub(crate) fn source(self, i: usize) -> Place
        requires { i < self.sides.m }
        ensures { SourceAt self.sides.m self.sides.n i 0 result }
    {
        let s = self.sides;
        let k = (i + (s.c - 1)) / s.c;
        let u = k * s.c;
        let lap = self.inverse * ((s.n - 1) * k) % s.b;
        let group = u - i;
        if u < s.m {
            return Place {
                place: group * s.b + lap,
                group,
                lap,
            };
        }
        let column = walk::step_on(lap, 1, s.b);
        Place {
            place: group * s.b + column,
            group,
            lap,
        }
    }

    // The source of place 0 of the row after row i, of which it is p: the group before, or the last one, `inverse` laps less.
    pub(crate) fn below(self, i: usize, p: Place) -> Place
        requires row { i < self.sides.m }
        requires here { SourceAt self.sides.m self.sides.n i 0 p }
        ensures { SourceAt self.sides.m self.sides.n (i + 1) 0 result }
    {
        let s = self.sides;
        if 0 < p.group {
            return Place {
                place: p.place - s.b,
                group: p.group - 1,
                lap: p.lap,
            };
        }
        let lap = walk::step_on(p.lap, s.b - self.inverse, s.b);
        let group = s.c - 1;
        if i + s.c < s.m {
            return Place {
                place: group * s.b + lap,
                group,
                lap,
            };
        }
        let column = walk::step_on(lap, 1, s.b);
        Place {
            place: group * s.b + column,
            group,
            lap,
        }
    }
}
