// The entry points of decimal scalers. The row is lent: no other byte of a buffer is in reach.
ghost use Rattle.std.specs.Prelude.{◌≡◌};
ghost use Rattle.scalers.specs.Scalers.{convert_of};
ghost use Rattle.scalers.specs.declared.longwords.Way.TheVariants.{ToBinary, ToDecimal};
ghost use Rattle.host.specs.Numbers.{refusal_numbers};

use crate::numbers::refusal_numbers;
use scalers::Way;

#[unsafe(no_mangle)]
pub extern "C" fn camlist_to_binary_v2(row: &mut [u8], answer: &mut [u64; 2])
    ensures answer { answer.new ≡ refusal_numbers (convert_of ToBinary row.old).refusal }
    ensures row { row.new ≡ (convert_of ToBinary row.old).row }
{
    *answer = refusal_numbers(scalers::convert(Way::ToBinary, row));
}

#[unsafe(no_mangle)]
pub extern "C" fn camlist_to_decimal_v2(row: &mut [u8], answer: &mut [u64; 2])
    ensures answer { answer.new ≡ refusal_numbers (convert_of ToDecimal row.old).refusal }
    ensures row { row.new ≡ (convert_of ToDecimal row.old).row }
{
    *answer = refusal_numbers(scalers::convert(Way::ToDecimal, row));
}
