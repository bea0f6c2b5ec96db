// Lines at the head of the bytes: private to the library.
ghost use Rattle.std.specs.Prelude.{◌≡◌};
ghost use Rattle.sheets.specs.Read.{read_fields, read_line, tabs};
ghost use Rattle.reader.specs.Private.{ReadInto};

use crate::field;

// n fields. Their first numbers are stored, as many as `out` has places for.
// Kept: an index, since a chain may have more numbers than there are places, and is then read to its end.
fn fields_from<'a>(bytes: &'a [u8], n: usize, out: &mut [u32]) -> Option<&'a [u8]>
    ensures { ReadInto (read_fields n bytes.now) result out.old out.new }
{
    let mut rest = bytes;
    for i in 0..n {
        let field = field::field_from(rest)?;
        if i < out.len() {
            out[i] = field.value;
        }
        rest = field.rest;
    }
    Some(rest)
}

// A line of `word` and n numbers, the first of which are stored, as many as `out` has places for. Answers the bytes after it.
pub(crate) fn line_from<'a>(
    bytes: &'a [u8],
    word: &[u8],
    n: usize,
    out: &mut [u32],
) -> Option<&'a [u8]>
    ensures { ReadInto (read_line word.now n bytes.now) result out.old out.new }
{
    let fields = bytes.strip_prefix(word)?;
    let rest = fields_from(fields, n, out)?;
    rest.strip_prefix(b"\n")
}

// How many tabs stand before the first LF.
pub(crate) fn tabs_in(bytes: &[u8]) -> usize
    ensures { result ≡ tabs bytes.now }
{
    bytes
        .iter()
        .take_while(|&&byte| byte != b'\n')
        .filter(|&&byte| byte == b'\t')
        .count()
}
