// A row of longwords: checked first, then converted.
ghost use Rattle.std.specs.Prelude.{◌≡◌, false, ◌%◌, length};
ghost use Rattle.std.specs.Int.{from_le_bytes, w32};
ghost use Rattle.std.specs.List.{list_any};
ghost use Rattle.base.specs.Refusals.{refusal_of};
ghost use Rattle.scalers.specs.Scalers.{is_bad, longwords_in, checked_from, converted_row, convert_of};

use crate::longwords::{Way, converted, is_bad};
use base::{Fault, Refused};

// Whether some longword does not pass. Gathered over the whole row, and not by `any`, which stops at the first: the vector unit takes eight
// longwords at a time.
fn is_any_bad(way: Way, longwords: &[[u8; 4]]) -> bool
    ensures { result ≡ list_any (λ w. is_bad way (from_le_bytes w32 w)) longwords.now }
{
    longwords.iter().fold(
        false,
        |found, w| found | is_bad(way, u32::from_le_bytes(*w)),
    )
}

// Where the first longword is that does not pass.
fn first_bad(way: Way, row: &[u8]) -> Option<usize>
    requires { length row.now % 4 ≡ 0 }
    ensures { result ≡ checked_from way 0 (longwords_in row.now) }
{
    let (longwords, _) = row.as_chunks::<4>();
    if !is_any_bad(way, longwords) {
        return None;
    }
    let n = longwords
        .iter()
        .position(|w| is_bad(way, u32::from_le_bytes(*w)))?;
    Some(4 * n)
}

// A row that passes.
fn convert_all(way: Way, row: &mut [u8])
    requires whole { length row.old % 4 ≡ 0 }
    requires passes { checked_from way 0 (longwords_in row.old) ≡ None }
    ensures { row.new ≡ converted_row way row.old }
{
    // By number: as_chunks_mut says nothing of what the row ends as.
    for n in 0..row.len() / 4 {
        let at = 4 * n;
        let w = base::whole_at(row, at);
        base::put_long(row, at, converted(way, w));
    }
}

// A call: 31, then 32, and no byte changes where one of them is answered.
pub fn convert(way: Way, row: &mut [u8]) -> Result<(), Refused>
    ensures answer { refusal_of result ≡ (convert_of way row.old).refusal }
    ensures bytes { row.new ≡ (convert_of way row.old).row }
{
    if row.len() % 4 != 0 {
        return Err(Refused::from(Fault::BrokenRow));
    }
    if let Some(place) = first_bad(way, row) {
        return Err(Refused {
            fault: Fault::BadLongword,
            place,
        });
    }
    convert_all(way, row);
    Ok(())
}
