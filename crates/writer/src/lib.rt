// The writers of result sheets and of the refusal line.
#![tactic(auto)]

mod page;
mod writer;

ghost use Rattle.std.specs.Prelude.{◌≡◌, ◌≤◌, false, Option, Some};
ghost use Rattle.refusals.specs.Conditions.{bad_length};
ghost use Rattle.sheets.specs.Sheet.{result_by};
ghost use Rattle.sheets.specs.Private.{OnSheet};
ghost use Rattle.writer.specs.PrivateBytes.{TextWritten};
ghost use Rattle.writer.specs.PrivateWriter.{named, Second, second_of};
ghost use Rattle.writer.specs.Writer.{in_c, WriteResultPromise, WriteReleasePromise};
ghost use Rattle.writer.specs.RefusalWriter.{WriteRefusalPromise};

use page::Page;
use refusals::Refusal;
use writer::Writer;

// The last order number of four axes.
const LAST_ORDER: usize = 23;

// What C sees of a writer's answer: its number, and the count of bytes written.
// Kept: the C interface reads a number and the values beside it.
#[repr(C)]
#[derive(Clone, Copy)]
pub struct Written {
    pub number: u32,
    pub count: usize,
}

impl From<Result<usize, Refusal>> for Written {
    ghost from_gives = { λ answer written. written ≡ in_c answer };

    fn from(answer: Result<usize, Refusal>) -> Written {
        match answer {
            Ok(count) => Written { number: 0, count },
            Err(refusal) => Written {
                number: refusal.number(),
                count: 0,
            },
        }
    }
}

// The lengths of a block that was checked, as numbers of a sheet.
// Kept: `as`, here and below, since `u32::try_from` would add a way out that no call can take.
fn numbers_of(lens: [usize; 4]) -> [u32; 4]
    requires { bad_length lens ≡ false }
    ensures { result ≡ lens }
{
    [
        lens[0] as u32,
        lens[1] as u32,
        lens[2] as u32,
        lens[3] as u32,
    ]
}

// The numbers of the second line: the release, where one is named, and the order number.
fn second_of(pair: &[u32; 2], release: Option<usize>) -> &[u32]
    ensures { result.now ≡ second_of pair.now release }
{
    match release {
        Some(_) => pair,
        None => &pair[1..],
    }
}

// The result sheet of a block that was checked: measured, then written at the start of `out`.
fn put_result(
    lens: [usize; 4],
    release: Option<usize>,
    order: usize,
    words: &[u32],
    out: &mut [u8],
) -> Result<usize, Refusal>
    requires { OnSheet lens words.now × Second release order }
    ensures { TextWritten (result_by lens (named release) order words.now) out.old (in_c result) out.new }
{
    let shape = numbers_of(lens);
    let pair = [release.unwrap_or(0) as u32, order as u32];
    let size = checks::words_of(&lens);
    let rows = checks::words_of(&lens[..3]);
    let page = Page {
        shape: &shape,
        order: second_of(&pair, release),
        words: &words[..size],
        rows,
        width: lens[3],
    };
    if out.len() < page.len() {
        return Err(Refusal::ShortBytes);
    }
    let mut writer = Writer::new(out);
    page.write(&mut writer);
    Ok(writer.count())
}

// Writes the result sheet at the start of `out`; answers the count of bytes written.
pub fn write_result(
    lens: [usize; 4],
    order: usize,
    words: &[u32],
    out: &mut [u8],
) -> Result<usize, Refusal>
    ensures { WriteResultPromise lens order words.now out.old (in_c result) out.new }
{
    checks::check_sheet(&lens, words)?;
    if LAST_ORDER < order {
        return Err(Refusal::BadOrder);
    }
    put_result(lens, None, order, words, out)
}

// Writes the result sheet that names its release at the start of `out`; answers the count of bytes written.
pub fn write_release(
    lens: [usize; 4],
    release: usize,
    order: usize,
    words: &[u32],
    out: &mut [u8],
) -> Result<usize, Refusal>
    ensures { WriteReleasePromise lens release order words.now out.old (in_c result) out.new }
{
    checks::check_sheet(&lens, words)?;
    checks::check_named(LAST_ORDER, release, order)?;
    put_result(lens, Some(release), order, words, out)
}

// Writes the line of a refusal at the start of `out`; answers the count of bytes written.
pub fn write_refusal(number: u32, place: u32, out: &mut [u8]) -> Result<usize, Refusal>
    ensures { WriteRefusalPromise number place out.old (in_c result) out.new }
{
    let numbers = [number, place];
    if out.len() < 8 + page::fields_len(&numbers) {
        return Err(Refusal::ShortBytes);
    }
    let mut writer = Writer::new(out);
    writer.line(b"refused", &numbers);
    Ok(writer.count())
}
