// Where the walk over a line begins: worked out for one line, or carried on from the line before, with no division.
ghost use Rattle.std.specs.Prelude.{◌≡◌, ◌+◌, ◌/◌, ◌<◌, ◌≤◌};
ghost use Rattle.passes.specs.declared.line.Pass.{Pass};
ghost use Rattle.passes.specs.PrivateScratch.{lines_in};
ghost use Rattle.passes.specs.PrivateWalks.{Begins};

use crate::line::Pass;
use crate::pass_lines::PassLines;
use crate::walk;
use crate::walk::Place;

// The quotient by b of the number after j, of which it is q.
fn quotient_on(q: usize, j: usize, b: usize) -> usize
    requires { (0 < b) × (b ≤ 4096) × (j < 4096) × (q ≡ j / b) }
    ensures { result ≡ (j + 1) / b }
{
    if (q + 1) * b == j + 1 {
        return q + 1;
    }
    q
}

impl PassLines {
    // The first place of the walk over line t.
    pub(crate) fn first(self, t: usize) -> Place
        requires { self.pass ≡ Pass.Second → t < self.sides.m }
        ensures { Begins self.sides.m self.sides.n self.pass t result }
    {
        match self.pass {
            Pass::First => Place::risen(t / self.sides.b),
            Pass::Second => self.rows().source(t),
            Pass::Third => Place::begun(t % self.sides.m),
        }
    }

    // The first place of the walk over the line after line t, of which it is p.
    pub(crate) fn next_first(self, t: usize, p: Place) -> Place
        requires line { t < lines_in self.sides.m self.sides.n self.pass }
        requires here { Begins self.sides.m self.sides.n self.pass t p }
        ensures { Begins self.sides.m self.sides.n self.pass (t + 1) result }
    {
        match self.pass {
            Pass::First => Place::risen(quotient_on(p.place, t, self.sides.b)),
            Pass::Second => self.rows().below(t, p),
            Pass::Third => Place::begun(walk::step_on(p.place, 1, self.sides.m)),
        }
    }
}
