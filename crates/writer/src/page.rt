// A result sheet, measured and written: private to the library.
ghost use Rattle.std.specs.Prelude.{◌≡◌, ◌≤◌, length};
ghost use Rattle.sheets.specs.Print.{decimal, fields};
ghost use Rattle.writer.specs.PrivateWriter.{HasRoom, Writes, page_of, Measured};

use crate::writer::Writer;

// How many digits a number has.
// Kept: a count becomes a `usize` by `as`: the library has no `From<u32>` for it, and `try_from` would answer an error that none gives.
pub(crate) fn digits_of(value: u32) -> usize
    ensures { result ≡ length (decimal value) }
{
    match value.checked_ilog10() {
        Some(below) => below as usize + 1,
        None => 1,
    }
}

// How many bytes the fields of these numbers have.
pub(crate) fn fields_len(numbers: &[u32]) -> usize
    requires { length numbers.now ≤ 1024 }
    ensures { (result ≡ length (fields numbers.now)) × (result ≤ 11264) }
{
    let mut total = 0;
    for &number in numbers {
        total += 1 + digits_of(number);
    }
    total
}

// A result sheet: the numbers of its first line and of its second, and the words of its rows.
#[derive(Clone, Copy)]
pub(crate) struct Page<'a> {
    pub shape: &'a [u32],
    pub order: &'a [u32],
    pub words: &'a [u32],
    pub rows: usize,
    pub width: usize,
}

impl Page<'_> {
    // How many bytes it has: of each line also its word and its LF.
    pub(crate) fn len(&self) -> usize
        requires { Measured self.now }
        ensures { result ≡ length (page_of self.now) }
    {
        let head = 12 + fields_len(self.shape) + fields_len(self.order);
        head + 4 * self.rows + fields_len(self.words)
    }

    // Its two lines, then its rows.
    pub(crate) fn write(&self, writer: &mut Writer<'_>)
        requires { Measured self.now × HasRoom writer.old (page_of self.now) }
        ensures same_reference { writer.new.out.ghost_name ≡ writer.old.out.ghost_name }
        ensures put { Writes writer.old (page_of self.now) writer.new }
    {
        writer.line(b"shape", self.shape);
        writer.line(b"order", self.order);
        writer.rows(self.words, self.width);
    }
}
