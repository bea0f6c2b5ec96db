// The rows of a sheet, judged and then stored: private to the library.
ghost use Rattle.std.specs.Prelude.{◌≡◌, ◌*◌, ◌≤◌, length, take};
ghost use Rattle.sheets.specs.Meaning.{row_lines};
ghost use Rattle.sheets.specs.Private.{OnSheet};
ghost use Rattle.sheets.specs.Sheet.{row_count, row_width};
ghost use Rattle.reader.specs.Private.{rows_told, RowsStored};

use crate::{head, line};
use refusals::Refused;

// The most words of a sheet's block.
const MOST_WORDS: usize = 1024;

// So many rows of a width, and nothing after them. Their words are stored from the start of `block`.
// Kept: an index, since a refusal names the line of the row that is wrong.
fn rows_from(bytes: &[u8], count: usize, width: usize, block: &mut [u32]) -> Result<(), Refused>
    requires { (count ≤ 1024) × (count * width ≤ length block.old) }
    ensures told { rows_told (take (count * width) block.new) result ≡ row_lines 3 count width bytes.now }
    ensures long { length block.new ≡ length block.old }
{
    let mut rest = bytes;
    for i in 0..count {
        let row = &mut block[i * width..];
        rest = line::line_from(rest, b"row", width, row).ok_or(head::bad_line(i + 3))?;
    }
    if rest.is_empty() {
        Ok(())
    } else {
        Err(head::bad_line(count + 3))
    }
}

// The rows of a block with these lengths. Their words are stored only where all rows are right.
pub(crate) fn store_rows(
    bytes: &[u8],
    lengths: &[usize; 4],
    words: &mut [u32],
) -> Result<(), Refused>
    requires { OnSheet lengths.now words.old }
    ensures { RowsStored (row_lines 3 (row_count lengths.now) (row_width lengths.now) bytes.now) result words.old words.new }
{
    let count = checks::words_of(&lengths[..3]);
    let width = lengths[3];
    let size = count * width;
    let mut block = [0; MOST_WORDS];
    rows_from(bytes, count, width, &mut block)?;
    words[..size].copy_from_slice(&block[..size]);
    Ok(())
}
