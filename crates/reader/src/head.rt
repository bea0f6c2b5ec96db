// Lines 1 and 2 of a sheet and of a result sheet with their checks: private to the library.
ghost use Rattle.std.specs.Prelude.{◌≡◌, IfOk, get_or};
ghost use Rattle.sheets.specs.Meaning.{shape_line, chain_line, order_fields, order_line};
ghost use Rattle.reader.specs.Private.{shape_told, chain_told, order_told, Padded, Named, bad_line, named};

use crate::line;
use refusals::{Refusal, Refused};

// The most bytes of a sheet.
const MOST_BYTES: usize = 16384;

// The most swaps of a chain.
const MOST_SWAPS: usize = 32;

// The last order number of four axes.
const LAST_ORDER: usize = 23;

// Kept: a number becomes a `usize` by `as` in this file: the library has no `From<u32>` for it, and `try_from` would answer an error that none gives.

// Line 1 of a sheet: its lengths, and the bytes after it.
#[derive(Clone, Copy)]
pub(crate) struct Shape<'a> {
    pub lengths: [usize; 4],
    pub rest: &'a [u8],
}

// Line 2 of a sheet: its swaps, unused places 0, how many they are, and the bytes after it.
// Kept: an array with a count beside it, since both go as they are into `Sheet`, which C sees (`zib_read_sheet`).
#[derive(Clone, Copy)]
pub(crate) struct Chain<'a> {
    pub swaps: [usize; MOST_SWAPS],
    pub count: usize,
    pub rest: &'a [u8],
}

// Line 2 of a result sheet: its release, where it names one, its order number, and the bytes after it.
#[derive(Clone, Copy)]
pub(crate) struct Order<'a> {
    pub release: Option<usize>,
    pub order: usize,
    pub rest: &'a [u8],
}

// The refusal of a line that is malformed, missing or left over.
pub(crate) fn bad_line(place: usize) -> Refused
    ensures { result ≡ bad_line place }
{
    Refused {
        refusal: Refusal::BadLine,
        place,
    }
}

// Line 1, for this word buffer.
pub(crate) fn shape_from<'a>(bytes: &'a [u8], words: &[u32]) -> Result<Shape<'a>, Refused>
    ensures { shape_told result ≡ shape_line words.now bytes.now }
{
    if MOST_BYTES < bytes.len() {
        return Err(Refused::from(Refusal::LongSheet));
    }
    let mut numbers = [0; 4];
    let rest = line::line_from(bytes, b"shape", 4, &mut numbers).ok_or(bad_line(1))?;
    let lengths = numbers.map(|length| length as usize);
    checks::check_sheet(&lengths, words)?;
    Ok(Shape { lengths, rest })
}

// Line 2 of a sheet, a chain.
pub(crate) fn chain_from(bytes: &[u8]) -> Result<Chain<'_>, Refused>
    ensures told { chain_told result ≡ chain_line bytes.now }
    ensures padded { IfOk result Padded }
{
    let count = line::tabs_in(bytes);
    let mut numbers = [0; MOST_SWAPS];
    let rest = line::line_from(bytes, b"chain", count, &mut numbers).ok_or(bad_line(2))?;
    if MOST_SWAPS < count {
        return Err(Refused::from(Refusal::LongChain));
    }
    let swaps = numbers.map(|swap| swap as usize);
    match checks::first_above(&swaps[..count], 2) {
        Some(place) => Err(Refused {
            refusal: Refusal::BadSwap,
            place,
        }),
        None => Ok(Chain { swaps, count, rest }),
    }
}

// How many numbers line 2 of a result sheet must have: two where it has two fields, else one.
fn order_fields(bytes: &[u8]) -> usize
    ensures { result ≡ order_fields bytes.now }
{
    if line::tabs_in(bytes) == 2 { 2 } else { 1 }
}

// The release and the order number that one number says, or two.
fn named(count: usize, numbers: [u32; 2]) -> (Option<usize>, usize)
    ensures { result ≡ named count (get_or numbers 0 0) (get_or numbers 1 0) }
{
    let [first, second] = numbers;
    if count == 2 {
        (Some(first as usize), second as usize)
    } else {
        (None, first as usize)
    }
}

// Line 2 of a result sheet, a release, where one is named, and an order number.
pub(crate) fn order_from(bytes: &[u8]) -> Result<Order<'_>, Refused>
    ensures told { order_told result ≡ order_line bytes.now }
    ensures named { IfOk result Named }
{
    let count = order_fields(bytes);
    let mut numbers = [0; 2];
    let rest = line::line_from(bytes, b"order", count, &mut numbers).ok_or(bad_line(2))?;
    let (release, order) = named(count, numbers);
    // A sheet that names no release is judged as one of release 1.
    checks::check_named(LAST_ORDER, release.unwrap_or(1), order)?;
    Ok(Order {
        release,
        order,
        rest,
    })
}
