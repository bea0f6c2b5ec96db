// The flat turn by passes, in one call, one line a call or stages that a stop may cut, and its reverse.
#![tactic(auto)]

mod first;
mod gcd;
mod line;
mod pass_lines;
mod restart;
mod rows;
mod sides;
mod turning;
mod walk;

ghost use Rattle.std.specs.Prelude.{◌≡◌};
ghost use Rattle.refusals.specs.Refusal.{answered};
ghost use Rattle.flat.specs.Promises.{TurnPromise, TurnBackPromise};
ghost use Rattle.passes.specs.PrivateScratch.{TurnsPromise};
ghost use Rattle.passes.specs.Ticks.{LinesPromise, TickPromise, in_c, ticked};
ghost use Rattle.passes.specs.Steps.{StepPromise};
ghost use Rattle.passes.specs.Restart.{memory, ResumePromise};

use crate::sides::GroupedSides;
use refusals::Refusal;

// Turns the m by n block that fills a buffer, or, home, undoes its turn, through scratch of max(m, n) words; or 1, 2, 3, 13, 4.
fn turn_or_home<const HOME: bool>(
    buf: &mut [u32],
    scratch: &mut [u32],
    m: usize,
    n: usize,
) -> Result<(), Refusal>
    ensures { TurnsPromise m n HOME buf.old scratch.old (answered result) buf.new scratch.new }
{
    checks::check_passes(&[m, n], buf, scratch)?;
    let s = GroupedSides::new(m, n);
    turning::turn_at::<HOME>(buf, scratch, s);
    s.clear(scratch);
    Ok(())
}

// Turns the m by n block that fills a buffer, through scratch of max(m, n) words; or 1, 2, 3, 13, 4.
pub fn turn(buf: &mut [u32], scratch: &mut [u32], m: usize, n: usize) -> Result<(), Refusal>
    ensures { TurnPromise m n buf.old scratch.old (answered result) buf.new scratch.new }
{
    turn_or_home::<false>(buf, scratch, m, n)
}

// Undoes the turn of an m by n block: the same checks and the same scratch.
pub fn turn_back(buf: &mut [u32], scratch: &mut [u32], m: usize, n: usize) -> Result<(), Refusal>
    ensures { TurnBackPromise m n buf.old scratch.old (answered result) buf.new scratch.new }
{
    turn_or_home::<true>(buf, scratch, m, n)
}

// What C sees of how many lines a turn has: the number, and the count.
// Kept: the C interface reads a number and the values beside it.
#[repr(C)]
#[derive(Clone, Copy)]
pub struct LineCount {
    pub number: u32,
    pub count: usize,
}

impl From<Result<usize, Refusal>> for LineCount {
    ghost from_gives = { λ answer lines. lines ≡ in_c answer };

    fn from(answer: Result<usize, Refusal>) -> LineCount {
        match answer {
            Ok(count) => LineCount { number: 0, count },
            Err(refusal) => LineCount {
                number: refusal.number(),
                count: 0,
            },
        }
    }
}

// How many lines the turn of an m by n block has: n + m + n where the sides share a factor, m + n otherwise; or 1, 2.
pub fn lines(m: usize, n: usize) -> Result<usize, Refusal>
    ensures { LinesPromise m n (in_c result) }
{
    checks::check_size(&[m, n])?;
    Ok(GroupedSides::new(m, n).line_count())
}

// One line of the turn of an m by n block: the line after those that are done moves, if one is left. Answers the lines done after it; or 1, 2, 3, 13, 4, 12.
pub fn tick(
    buf: &mut [u32],
    scratch: &mut [u32],
    m: usize,
    n: usize,
    done: usize,
) -> Result<usize, Refusal>
    ensures { TickPromise m n done buf.old scratch.old (ticked done result) buf.new scratch.new }
{
    checks::check_passes(&[m, n], buf, scratch)?;
    let s = GroupedSides::new(m, n);
    let count = s.line_count();
    if count < done {
        return Err(Refusal::PastLines);
    }
    if count == done {
        s.clear(scratch);
        return Ok(done);
    }
    turning::forth(buf, scratch, s, s.line_of(done));
    s.clear(scratch);
    Ok(done + 1)
}

// The lines done, as a player keeps them: C lends the same record.
#[repr(C)]
#[derive(Clone, Copy)]
pub struct LineRecord {
    pub done: usize,
}

// One line of the turn of an m by n block: the line that the record names moves, and the record is advanced where it stands; or 1, 2, 3, 13, 4, 12.
pub fn step(
    buf: &mut [u32],
    scratch: &mut [u32],
    lines: &mut LineRecord,
    m: usize,
    n: usize,
) -> Result<(), Refusal>
    ensures { StepPromise m n lines.old buf.old scratch.old (answered result) lines.new buf.new scratch.new }
{
    lines.done = tick(buf, scratch, m, n, lines.done)?;
    Ok(())
}

// Goes on with the turn of an m by n block from the stage that the progress word names, and stops after `budget` stores; or 1, 2, 3, 13, 4, 23.
// Kept: the progress word becomes a `usize` by `as`: the library has no `From<u32>` for it, and `try_from` would answer an error that none gives.
pub fn resume(
    buf: &mut [u32],
    scratch: &mut [u32],
    progress: &mut u32,
    m: usize,
    n: usize,
    budget: usize,
) -> Result<(), Refusal>
    ensures { ResumePromise m n budget (memory buf.old scratch.old progress.old) (answered result) (memory buf.new scratch.new progress.new) }
{
    checks::check_passes(&[m, n], buf, scratch)?;
    let s = GroupedSides::new(m, n);
    if s.stage_count() < *progress as usize {
        return Err(Refusal::PastStages);
    }
    s.go_on(buf, scratch, progress, budget);
    Ok(())
}
