// A block turned line by line.
ghost use Rattle.std.specs.Prelude.{◌≡◌};
ghost use Rattle.flat.specs.Turn.{sides};
ghost use Rattle.refusals.specs.Scratch.{need};
ghost use Rattle.passes.specs.Lines.{LineMoved};
ghost use Rattle.moves.specs.Stretch.{Past};
ghost use Rattle.passes.specs.PrivateScratch.{Fits, Lies, PassGone, Turned, end_pass};

use crate::line::{Line, Pass};
use crate::pass_lines::PassLines;
use crate::sides::GroupedSides;

// The lines of one pass receive their words, or go home, one after the other.
fn run_pass<const HOME: bool>(buf: &mut [u32], scratch: &mut [u32], lines: PassLines)
    requires { Lies lines.sides.m lines.sides.n buf.old scratch.old }
    ensures { PassGone lines.sides.m lines.sides.n lines.pass HOME buf.old buf.new × Past (need (sides lines.sides.m lines.sides.n)) scratch.old scratch.new }
{
    let from = lines.moved_from();
    let mut p = lines.first(from);
    for t in from..lines.count() {
        lines.line(t).go::<HOME>(buf, scratch, lines.walk(t), p);
        p = lines.next_first(t, p);
    }
}

// The pass that a turn begins with, or the one that it ends with.
fn end_pass(last: bool) -> Pass
    ensures { result ≡ end_pass last }
{
    if last { Pass::Third } else { Pass::First }
}

// The block is turned by its passes, or, home, they are undone, the last first.
pub(crate) fn turn_at<const HOME: bool>(buf: &mut [u32], scratch: &mut [u32], s: GroupedSides)
    requires { Lies s.m s.n buf.old scratch.old }
    ensures { Turned s.m s.n HOME buf.old buf.new × Past (need (sides s.m s.n)) scratch.old scratch.new }
{
    let begin = end_pass(HOME);
    let end = end_pass(!HOME);
    run_pass::<HOME>(buf, scratch, PassLines::new(s, begin));
    run_pass::<HOME>(buf, scratch, PassLines::new(s, Pass::Second));
    run_pass::<HOME>(buf, scratch, PassLines::new(s, end));
}

// One line moves as its pass says.
pub(crate) fn forth(buf: &mut [u32], scratch: &mut [u32], s: GroupedSides, l: Line)
    requires { Fits s.m s.n l buf.old scratch.old }
    ensures { LineMoved s.m s.n l buf.old buf.new × Past l.count scratch.old scratch.new }
{
    let lines = PassLines::new(s, l.pass);
    l.go::<false>(buf, scratch, lines.walk(l.index), lines.first(l.index));
}
