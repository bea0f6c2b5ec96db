// The whole job of `turn`: a sheet read, its chain run, its result sheet or its refusal written.
#![tactic(auto)]

ghost use Rattle.std.specs.Prelude.{◌≡◌, ◌≤◌, length};
ghost use Rattle.layout.specs.Layout.{volume};
ghost use Rattle.axes.specs.Answers.{in_c as answer_in_c};
ghost use Rattle.job.specs.Job.{number_in, place_in, in_c, JobPromise};
ghost use Rattle.job.specs.Private.{RunOn, ResultOrRefusal, RefusalLine};

use axes::{Reached, Shape};
use plans::Axes;
use refusals::Refused;

// What the job left: the refusal, where the sheet was refused, and how many bytes its text has.
#[derive(Clone, Copy)]
pub struct Finished {
    pub outcome: Result<(), Refused>,
    pub count: usize,
}

// What C sees of that: its number and place, 0 and 0 where the sheet is right, and how many bytes its text has.
// Kept: the C interface reads a number and the values beside it.
#[repr(C)]
#[derive(Clone, Copy)]
pub struct JobAnswer {
    pub number: u32,
    pub place: usize,
    pub count: usize,
}

impl From<Finished> for JobAnswer {
    ghost from_gives = { λ finished answer. answer ≡ in_c finished };

    fn from(finished: Finished) -> JobAnswer {
        let count = finished.count;
        match finished.outcome {
            Ok(_) => JobAnswer {
                number: 0,
                place: 0,
                count,
            },
            Err(refused) => JobAnswer {
                number: refused.refusal.number(),
                place: refused.place,
                count,
            },
        }
    }
}

// Runs a chain on the block at the start of the words: the chain is lent the block's part only.
fn run(
    words: &mut [u32],
    scratch: &mut [u32],
    lengths: [usize; 4],
    swaps: &[usize],
) -> Result<Reached, Refused>
    requires { (volume lengths ≤ 1048576) × (volume lengths ≤ length words.old) }
    ensures { RunOn lengths swaps.now words.old scratch.old (answer_in_c result) words.new scratch.new }
{
    let size = checks::words_of(&lengths);
    let shape = Shape {
        lengths: [lengths[0], lengths[1], lengths[2], lengths[3], 0],
    };
    axes::chain(Axes::Four, &mut words[..size], scratch, shape, swaps)
}

// Reads the sheet, runs its chain and writes its result sheet: how many bytes that has, or why the reader refuses the sheet. Neither the chain nor
// the writer refuses one that the reader takes.
fn result_of(
    bytes: &[u8],
    words: &mut [u32; 1024],
    scratch: &mut [u32; 1024],
    out: &mut [u8; 16384],
) -> Result<usize, Refused>
    ensures { ResultOrRefusal bytes.now words.old scratch.old out.old result words.new scratch.new out.new }
{
    let sheet = reader::read(bytes, words)?;
    let lengths = sheet.lengths;
    let swaps = sheet.swaps;
    let reached = run(words, scratch, lengths, &swaps[..sheet.count])?;
    let turned = reached.lengths;
    let front = [turned[0], turned[1], turned[2], turned[3]];
    let written = writer::write_result(front, reached.order, words, out)?;
    Ok(written)
}

// Writes the line of a refusal, which always fits: how many bytes it has.
// Kept: `as`, since `u32::try_from` would add a way out that no refusal of a sheet can take.
fn refusal_line(refused: Refused, out: &mut [u8; 16384]) -> usize
    requires { refused.place ≤ 4294967295 }
    ensures { RefusalLine refused out.old result out.new }
{
    writer::write_refusal(refused.refusal.number(), refused.place as u32, out).unwrap()
}

// Reads the sheet into `words`, runs its chain through `scratch` and leaves the text of the outcome at the start of `out`.
pub fn job(
    bytes: &[u8],
    words: &mut [u32; 1024],
    scratch: &mut [u32; 1024],
    out: &mut [u8; 16384],
) -> Finished
    ensures { JobPromise bytes.now words.old scratch.old out.old (number_in result.outcome) (place_in result.outcome) result.count words.new scratch.new out.new }
{
    match result_of(bytes, words, scratch, out) {
        Ok(count) => Finished {
            outcome: Ok(()),
            count,
        },
        Err(refused) => {
            let count = refusal_line(refused, out);
            Finished {
                outcome: Err(refused),
                count,
            }
        }
    }
}
