// The calls of the C interface, each under its C name, with the promise of the call below it. Crate exports_c exports them.
#![tactic(auto)]

ghost use Rattle.std.specs.Prelude.{◌≡◌, take};
ghost use Rattle.flat.specs.Promises.{TurnPromise, TurnBackPromise};
ghost use Rattle.recursion.specs.Promise.{RecursionPromise};
ghost use Rattle.plans.specs.Promise.{PlanPromise};
ghost use Rattle.axes.specs.Promises.{ChainPromise, RequestPromise};
ghost use Rattle.reader.specs.Reader.{ReadPromise};
ghost use Rattle.reader.specs.ResultReader.{ReadResultPromise};
ghost use Rattle.writer.specs.Writer.{WriteResultPromise, WriteReleasePromise};
ghost use Rattle.job.specs.Job.{JobPromise};
ghost use Rattle.home.specs.Promise.{RepeatsPromise};
ghost use Rattle.cameras.specs.Promises.{RemovePromise, AddPromise};
ghost use Rattle.tiles.specs.Promises.{ToTilesPromise, FromTilesPromise};
ghost use Rattle.desk.specs.Promises.{OffsetDelayPromise, ToFramesPromise, JoinPromise};
ghost use Rattle.desk.specs.ChoicePromises.{ChoosePromise, ChooseNumberPromise};
ghost use Rattle.passes.specs.Ticks.{LinesPromise};
ghost use Rattle.passes.specs.Restart.{memory, ResumePromise};
ghost use Rattle.passes.specs.Steps.{StepPromise};
ghost use Rattle.cycle_lists.specs.Promise.{JudgePromise, RunPromise};

mod number;

use number::number_of;
use plans::Axes;

// The lengths of a sheet's four axes.
#[repr(C)]
#[derive(Clone, Copy)]
pub struct SheetShape {
    pub lengths: [usize; 4],
}

// The flat turn of m by n by strips, the fast way.
pub fn zib_turn(buf: &mut [u32], scratch: &mut [u32], m: usize, n: usize) -> u32
    ensures { TurnPromise m n buf.old scratch.old result buf.new scratch.new }
{
    number_of(strips::turn(buf, scratch, m, n))
}

// The reverse of the flat turn of m by n, by strips.
pub fn zib_turn_back(buf: &mut [u32], scratch: &mut [u32], m: usize, n: usize) -> u32
    ensures { TurnBackPromise m n buf.old scratch.old result buf.new scratch.new }
{
    number_of(strips::turn_back(buf, scratch, m, n))
}

// The flat turn of m by n by passes.
pub fn zib_turn_passes(buf: &mut [u32], scratch: &mut [u32], m: usize, n: usize) -> u32
    ensures { TurnPromise m n buf.old scratch.old result buf.new scratch.new }
{
    number_of(passes::turn(buf, scratch, m, n))
}

// The reverse of the flat turn of m by n, by passes.
pub fn zib_turn_back_passes(buf: &mut [u32], scratch: &mut [u32], m: usize, n: usize) -> u32
    ensures { TurnBackPromise m n buf.old scratch.old result buf.new scratch.new }
{
    number_of(passes::turn_back(buf, scratch, m, n))
}

// The flat turn of m by n by recursion, with no scratch.
pub fn zib_turn_halves(buf: &mut [u32], m: usize, n: usize) -> u32
    ensures { RecursionPromise m n buf.old result buf.new }
{
    number_of(recursion::turn(buf, m, n))
}

// A chain of swaps on a block of four axes.
pub fn zib_chain(
    buf: &mut [u32],
    scratch: &mut [u32],
    shape: axes::Shape,
    swaps: &[usize],
) -> axes::Answer
    ensures { ChainPromise 4 (take 4 shape.lengths) swaps.now buf.old scratch.old result buf.new scratch.new }
{
    axes::chain(Axes::Four, buf, scratch, shape, swaps).into()
}

// The direct request for the order of four axes that a number names by its release.
pub fn zib_request(
    buf: &mut [u32],
    scratch: &mut [u32],
    shape: axes::Shape,
    release: usize,
    order: usize,
) -> axes::Answer
    ensures { RequestPromise 4 (take 4 shape.lengths) release order buf.old scratch.old result buf.new scratch.new }
{
    axes::request(Axes::Four, buf, scratch, shape, release, order).into()
}

// The plan for an order of four axes.
pub fn zib_plan(order: usize) -> plans::Planned
    ensures { PlanPromise 4 order result }
{
    plans::plan(Axes::Four, order).into()
}

// A chain of swaps on a block of five axes.
pub fn zib_chain5(
    buf: &mut [u32],
    scratch: &mut [u32],
    shape: axes::Shape,
    swaps: &[usize],
) -> axes::Answer
    ensures { ChainPromise 5 (take 5 shape.lengths) swaps.now buf.old scratch.old result buf.new scratch.new }
{
    axes::chain(Axes::Five, buf, scratch, shape, swaps).into()
}

// The direct request for the order of five axes that a number names by its release.
pub fn zib_request5(
    buf: &mut [u32],
    scratch: &mut [u32],
    shape: axes::Shape,
    release: usize,
    order: usize,
) -> axes::Answer
    ensures { RequestPromise 5 (take 5 shape.lengths) release order buf.old scratch.old result buf.new scratch.new }
{
    axes::request(Axes::Five, buf, scratch, shape, release, order).into()
}

// The plan for an order of five axes.
pub fn zib_plan5(order: usize) -> plans::Planned
    ensures { PlanPromise 5 order result }
{
    plans::plan(Axes::Five, order).into()
}

// Reads a sheet into a word buffer.
pub fn zib_read_sheet(bytes: &[u8], words: &mut [u32]) -> reader::Sheet
    ensures { ReadPromise words.old bytes.now result words.new }
{
    reader::read(bytes, words).into()
}

// Writes the result sheet of a block into a byte buffer.
pub fn zib_write_result(
    shape: SheetShape,
    order: usize,
    words: &[u32],
    out: &mut [u8],
) -> writer::Written
    ensures { WriteResultPromise shape.lengths order words.now out.old result out.new }
{
    let lengths = shape.lengths;
    writer::write_result(lengths, order, words, out).into()
}

// The whole job on a sheet: read, run through its chain, its result sheet or its refusal written.
pub fn zib_job(
    bytes: &[u8],
    words: &mut [u32; 1024],
    scratch: &mut [u32; 1024],
    out: &mut [u8; 16384],
) -> job::JobAnswer
    ensures { JobPromise bytes.now words.old scratch.old out.old result.number result.place result.count words.new scratch.new out.new }
{
    job::job(bytes, words, scratch, out).into()
}

// How often the turn of m by n is repeated until every block of that shape is home.
pub fn zib_repeats(m: usize, n: usize) -> home::Home
    ensures { RepeatsPromise m n result }
{
    home::repeats(m, n).into()
}

// Removes a camera's column from a block of frames by cameras words.
pub fn zib_remove_camera(buf: &mut [u32], frames: usize, cameras: usize, column: usize) -> u32
    ensures { RemovePromise frames cameras column buf.old result buf.new }
{
    number_of(cameras::remove(buf, frames, cameras, column))
}

// Adds a camera's column to a block of frames by cameras words.
pub fn zib_add_camera(
    buf: &mut [u32],
    frames: usize,
    cameras: usize,
    column: usize,
    words: &[u32],
) -> u32
    ensures { AddPromise frames cameras column words.now buf.old result buf.new }
{
    number_of(cameras::add(buf, frames, cameras, column, words))
}

// An m by n block stored as tiles of r by s words.
pub fn zib_to_tiles(
    buf: &mut [u32],
    scratch: &mut [u32],
    m: usize,
    n: usize,
    r: usize,
    s: usize,
) -> u32
    ensures { ToTilesPromise m n r s buf.old scratch.old result buf.new scratch.new }
{
    number_of(tiles::to_tiles(buf, scratch, m, n, r, s))
}

// The tiles of r by s words of an m by n block stored as the block again.
pub fn zib_from_tiles(
    buf: &mut [u32],
    scratch: &mut [u32],
    m: usize,
    n: usize,
    r: usize,
    s: usize,
) -> u32
    ensures { FromTilesPromise m n r s buf.old scratch.old result buf.new scratch.new }
{
    number_of(tiles::from_tiles(buf, scratch, m, n, r, s))
}

// Reads a result sheet into a word buffer.
pub fn zib_read_result(bytes: &[u8], words: &mut [u32]) -> reader::ResultSheet
    ensures { ReadResultPromise words.old bytes.now result words.new }
{
    reader::read_result(bytes, words).into()
}

// Writes the result sheet of a block, with the release of its order number, into a byte buffer.
pub fn zib_write_release(
    shape: SheetShape,
    release: usize,
    order: usize,
    words: &[u32],
    out: &mut [u8],
) -> writer::Written
    ensures { WriteReleasePromise shape.lengths release order words.now out.old result out.new }
{
    let lengths = shape.lengths;
    writer::write_release(lengths, release, order, words, out).into()
}

// The offset and the delay of one exchange of four readings.
pub fn zib_offset_delay(run: &[i64]) -> desk::Measured
    ensures { OffsetDelayPromise run.now result }
{
    desk::offset_delay(run).into()
}

// An offset in ticks as a whole number of frames.
pub fn zib_to_frames(offset: i64, ticks: usize) -> desk::Frames
    ensures { ToFramesPromise offset ticks result }
{
    desk::to_frames(offset, ticks).into()
}

// The frames that are common to all cameras.
pub fn zib_join(shifts: &[i64], frames: usize) -> desk::Joined
    ensures { JoinPromise shifts.now frames result }
{
    desk::join(shifts, frames).into()
}

// The four readings of the exchange that is chosen of two runs. No exported function may return a reference, so the part is stored where the
// caller says.
pub fn zib_choose<'a>(first: &'a [i64], second: &'a [i64], part: &mut &'a [i64])
    ensures { ChoosePromise first.entry second.entry part.new }
{
    let four = desk::choose(first, second);
    *part = four;
}

// The number of that choice.
pub fn zib_choose_number(first: &[i64], second: &[i64]) -> u32
    ensures { ChooseNumberPromise first.now second.now result }
{
    desk::choose_number(first, second)
}

// How many lines the turn of m by n by passes has.
pub fn zib_lines(m: usize, n: usize) -> passes::LineCount
    ensures { LinesPromise m n result }
{
    passes::lines(m, n).into()
}

// One line of the turn of m by n; the record of the lines done is lent, and advanced where it stands.
pub fn zib_tick(
    buf: &mut [u32],
    scratch: &mut [u32],
    lines: &mut passes::LineRecord,
    m: usize,
    n: usize,
) -> u32
    ensures { StepPromise m n lines.old buf.old scratch.old result lines.new buf.new scratch.new }
{
    number_of(passes::step(buf, scratch, lines, m, n))
}

// Goes on with the turn of m by n from the stage that the progress word names, and stops after `budget` stores.
pub fn zib_resume(
    buf: &mut [u32],
    scratch: &mut [u32],
    progress: &mut u32,
    m: usize,
    n: usize,
    budget: usize,
) -> u32
    ensures { ResumePromise m n budget (memory buf.old scratch.old progress.old) result (memory buf.new scratch.new progress.new) }
{
    number_of(passes::resume(buf, scratch, progress, m, n, budget))
}

// Judges a list of the cycles of the turn of m by n: start, length, start, length.
pub fn zib_judge_cycles(list: &[u32], m: usize, n: usize) -> cycle_lists::Judged
    ensures { JudgePromise m n list.now result }
{
    cycle_lists::judge(list, m, n).into()
}

// Runs a list of the cycles of the turn of m by n on the block: the flat turn, without scratch.
pub fn zib_run_cycles(list: &[u32], buf: &mut [u32], m: usize, n: usize) -> cycle_lists::Judged
    ensures { RunPromise m n list.now buf.old result buf.new }
{
    cycle_lists::run(list, buf, m, n).into()
}

// The version of these calls and records: 10,000 times its first number and 100 times its second. The name has it too, so that a program whose
// header is of another version does not link.
pub fn zib_version_3_0() -> u32
    ensures { result ≡ 30000 }
{
    30000
}
