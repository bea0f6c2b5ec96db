// Numbers and fields at the head of the bytes: private to the library.
ghost use Rattle.std.specs.Prelude.{◌≡◌, ◌≤◌, ◌-◌, ◌+◌, ◌*◌};
ghost use Rattle.sheets.specs.Read.{read_more, read_number, read_field};
ghost use Rattle.reader.specs.Private.{reading, one_more};

// A number that was read, and the bytes after it.
#[derive(Clone, Copy)]
pub(crate) struct Field<'a> {
    pub value: u32,
    pub rest: &'a [u8],
}

// A number with one digit more, unless that is past the greatest number of a sheet.
fn with_digit(value: u32, digit: u8) -> Option<u32>
    requires { 48 ≤ digit }
    ensures { result ≡ one_more (value * 10 + (digit - 48)) }
{
    u32::try_from(u64::from(value) * 10 + u64::from(digit - b'0')).ok()
}

// A number whose digits so far say `start`, and which goes on at the head of the bytes.
fn digits_from(bytes: &[u8], start: u32) -> Option<Field<'_>>
    ensures { reading result ≡ read_more start bytes.now }
{
    let mut value = start;
    let mut rest = bytes;
    while let [digit @ b'0'..=b'9', after @ ..] = rest {
        value = with_digit(value, *digit)?;
        rest = after;
    }
    Some(Field { value, rest })
}

// A number.
fn number_from(bytes: &[u8]) -> Option<Field<'_>>
    ensures { reading result ≡ read_number bytes.now }
{
    match bytes {
        [b'0', rest @ ..] => Some(Field { value: 0, rest }),
        [digit @ b'1'..=b'9', rest @ ..] => digits_from(rest, u32::from(*digit - b'0')),
        _ => None,
    }
}

// A field: a tab and a number.
pub(crate) fn field_from(bytes: &[u8]) -> Option<Field<'_>>
    ensures { reading result ≡ read_field bytes.now }
{
    match bytes {
        [b'\t', rest @ ..] => number_from(rest),
        _ => None,
    }
}
