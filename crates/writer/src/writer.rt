// A thin writer over lent bytes: it keeps the place of the next byte. Private to the library.
//
// A field, fields and a line are inlined, so that the place stays in a register: a method that is called reads it back from memory behind each byte.
ghost use Rattle.std.specs.Prelude.{◌≡◌, ◌/◌, ◌<◌, length};
ghost use Rattle.sheets.specs.Print.{decimal, field, fields, line};
ghost use Rattle.sheets.specs.Sheet.{rows_text};
ghost use Rattle.writer.specs.PrivateWriter.{HasRoom, Writes};

use crate::page::digits_of;

// The lent bytes, and the place of the next one.
#[derive(Drop)]
pub(crate) struct Writer<'a> {
    out: &'a mut [u8],
    at: usize,
}

// Overwrites bytes by a text that is as long.
fn overwrite(place: &mut [u8], text: &[u8])
    requires { length place.old ≡ length text.now }
    ensures { place.new ≡ text.now }
{
    // Kept: `copy_from_slice` between two lent buffers calls memmove where the count is not known, and the header says that the archive asks the C
    // library for memcpy and memset alone.
    for i in 0..text.len() {
        place[i] = text[i];
    }
}

impl<'a> Writer<'a> {
    // A writer at the start of the bytes.
    pub(crate) fn new(out: &'a mut [u8]) -> Writer<'a>
        ensures same_reference { result.out.ghost_name ≡ out.entry.ghost_name }
        ensures start { (result.out.now ≡ out.old) × (result.at ≡ 0) }
    {
        Writer { out, at: 0 }
    }

    // How many bytes it has written.
    pub(crate) fn count(&self) -> usize
        ensures { result ≡ self.now.at }
    {
        self.at
    }

    // A text as it is.
    fn text(&mut self, text: &[u8])
        requires { HasRoom self.old text.now }
        ensures same_reference { self.new.out.ghost_name ≡ self.old.out.ghost_name }
        ensures put { Writes self.old text.now self.new }
    {
        let end = self.at + text.len();
        overwrite(&mut self.out[self.at..end], text);
        self.at = end;
    }

    // A field: a tab and a number.
    #[inline(always)]
    fn field(&mut self, value: u32)
        requires { HasRoom self.old (field value) }
        ensures same_reference { self.new.out.ghost_name ≡ self.old.out.ghost_name }
        ensures put { Writes self.old (field value) self.new }
    {
        self.text(b"\t");
        let end = self.at + digits_of(value);
        itoa::write_digits(u64::from(value), &mut self.out[..], end);
        self.at = end;
    }

    // A field for each number.
    #[inline(always)]
    fn fields(&mut self, numbers: &[u32])
        requires { HasRoom self.old (fields numbers.now) }
        ensures same_reference { self.new.out.ghost_name ≡ self.old.out.ghost_name }
        ensures put { Writes self.old (fields numbers.now) self.new }
    {
        for &number in numbers {
            self.field(number);
        }
    }

    // A line of a word and numbers.
    #[inline(always)]
    pub(crate) fn line(&mut self, word: &[u8], numbers: &[u32])
        requires { HasRoom self.old (line word.now numbers.now) }
        ensures same_reference { self.new.out.ghost_name ≡ self.old.out.ghost_name }
        ensures put { Writes self.old (line word.now numbers.now) self.new }
    {
        self.text(word);
        self.fields(numbers);
        self.text(b"\n");
    }

    // Rows of a width.
    pub(crate) fn rows(&mut self, words: &[u32], width: usize)
        requires { (0 < width) × HasRoom self.old (rows_text (length words.now / width) width words.now) }
        ensures same_reference { self.new.out.ghost_name ≡ self.old.out.ghost_name }
        ensures put { Writes self.old (rows_text (length words.now / width) width words.now) self.new }
    {
        for row in words.chunks_exact(width) {
            self.line(b"row", row);
        }
    }
}
