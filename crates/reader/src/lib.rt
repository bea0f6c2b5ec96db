// The readers of sheets and of result sheets: they differ in line 2.
#![tactic(auto)]

mod field;
mod head;
mod line;
mod rows;

ghost use Rattle.std.specs.Prelude.{◌≡◌, IfOk};
ghost use Rattle.reader.specs.Reader.{ReadPromise, in_c};
ghost use Rattle.reader.specs.ResultReader.{ReadResultPromise, result_in_c, NamesOne};

use refusals::Refused;

// What a sheet says: its lengths, its swaps (unused ones 0) and how many they are.
// Kept: without a heap the swaps stand in an array that is long enough, beside their count.
#[derive(Clone, Copy)]
pub struct ChainSheet {
    pub lengths: [usize; 4],
    pub swaps: [usize; 32],
    pub count: usize,
}

// What a result sheet says: its lengths, its release, where it names one, and its order number.
#[derive(Clone, Copy)]
pub struct OrderSheet {
    pub lengths: [usize; 4],
    pub release: Option<usize>,
    pub order: usize,
}

// What C sees of the answer to a sheet: its number and place, its lengths, its swaps (unused ones 0) and how many they are.
// Kept: the C interface reads a number and the values beside it.
#[repr(C)]
#[derive(Clone, Copy)]
pub struct Sheet {
    pub number: u32,
    pub place: usize,
    pub lengths: [usize; 4],
    pub swaps: [usize; 32],
    pub count: usize,
}

// What C sees of the answer to a result sheet: its number and place, its lengths, its release, 0 where it names none, and its order number.
// Kept: the C interface reads a number and the values beside it.
#[repr(C)]
#[derive(Clone, Copy)]
pub struct ResultSheet {
    pub number: u32,
    pub place: usize,
    pub lengths: [usize; 4],
    pub release: usize,
    pub order: usize,
}

impl From<Result<ChainSheet, Refused>> for Sheet {
    ghost from_gives = { λ answer sheet. sheet ≡ in_c answer };

    fn from(answer: Result<ChainSheet, Refused>) -> Sheet {
        match answer {
            Ok(sheet) => {
                let lengths = sheet.lengths;
                let swaps = sheet.swaps;
                Sheet {
                    number: 0,
                    place: 0,
                    lengths,
                    swaps,
                    count: sheet.count,
                }
            }
            Err(refused) => Sheet {
                number: refused.refusal.number(),
                place: refused.place,
                lengths: [0; 4],
                swaps: [0; 32],
                count: 0,
            },
        }
    }
}

impl From<Result<OrderSheet, Refused>> for ResultSheet {
    ghost from_gives = { λ answer sheet. sheet ≡ result_in_c answer };

    fn from(answer: Result<OrderSheet, Refused>) -> ResultSheet {
        match answer {
            Ok(sheet) => {
                let lengths = sheet.lengths;
                ResultSheet {
                    number: 0,
                    place: 0,
                    lengths,
                    release: sheet.release.unwrap_or(0),
                    order: sheet.order,
                }
            }
            Err(refused) => ResultSheet {
                number: refused.refusal.number(),
                place: refused.place,
                lengths: [0; 4],
                release: 0,
                order: 0,
            },
        }
    }
}

// Reads a sheet: judges all of it, then stores its words from the start of `words`.
pub fn read(bytes: &[u8], words: &mut [u32]) -> Result<ChainSheet, Refused>
    ensures { ReadPromise words.old bytes.now (in_c result) words.new }
{
    let shape = head::shape_from(bytes, words)?;
    let chain = head::chain_from(shape.rest)?;
    let lengths = shape.lengths;
    rows::store_rows(chain.rest, &lengths, words)?;
    let swaps = chain.swaps;
    Ok(ChainSheet {
        lengths,
        swaps,
        count: chain.count,
    })
}

// Reads a result sheet: judges all of it, then stores its words from the start of `words`.
pub fn read_result(bytes: &[u8], words: &mut [u32]) -> Result<OrderSheet, Refused>
    ensures promised { ReadResultPromise words.old bytes.now (result_in_c result) words.new }
    ensures named { IfOk result NamesOne }
{
    let shape = head::shape_from(bytes, words)?;
    let line = head::order_from(shape.rest)?;
    let lengths = shape.lengths;
    rows::store_rows(line.rest, &lengths, words)?;
    Ok(OrderSheet {
        lengths,
        release: line.release,
        order: line.order,
    })
}
