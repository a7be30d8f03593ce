// One longword: whether it passes, and what it is converted to. Bits 31 and 30 stay.
ghost use Rattle.std.specs.Prelude.{◌≡◌, false};
ghost use Rattle.scalers.specs.Scalers.{is_bad, converted_to};

// Which way a row is converted. A case and no closure: the definitions go by the same two.
#[derive(Clone, Copy, Debug, PartialEq, Eq)]
pub enum Way {
    ToBinary,
    ToDecimal,
}

// One of bits 29 to 24 set, or a digit above 9. With six more in each digit, one above 9 carries into the next and changes its lowest bit; the
// highest digit and the bits above it are tested together.
#[tactic(auto, using(crate::proofs::Bad::bad_decimal))]
fn is_no_decimal(w: u32) -> bool
    ensures { result ≡ is_bad Way.ToBinary w }
{
    let d = w % 0x4000_0000;
    (d > 0x99_9999) | (((d + 0x66_6666) ^ d) & 0x11_1110 != 0)
}

// A longword that does not pass. On the way to decimal one of bits 29 to 24 is worth more than any value that passes.
#[tactic(auto, using(crate::proofs::Bad::bad_value))]
pub fn is_bad(way: Way, w: u32) -> bool
    ensures { result ≡ is_bad way w }
{
    match way {
        Way::ToBinary => is_no_decimal(w),
        Way::ToDecimal => w % 0x4000_0000 > 999999,
    }
}

// Two digits in a byte are six times the higher one more than the number that they are.
fn binary_of(w: u32) -> u32
    ensures { result ≡ converted_to Way.ToBinary w }
{
    let tens = w / 16 % 16 + w / 4096 % 16 * 256 + w / 1048576 % 16 * 65536;
    let pairs = w - tens * 6;
    w / 0x4000_0000 * 0x4000_0000
        + pairs % 256
        + pairs / 256 % 256 * 100
        + pairs / 65536 % 256 * 10000
}

// A digit is a quotient by a power of ten less ten times the next one, so that the packed digits are the value and six times each quotient at its
// place: one sum instead of six remainders.
fn decimal_of(w: u32) -> u32
    requires { is_bad Way.ToDecimal w ≡ false }
    ensures { result ≡ converted_to Way.ToDecimal w }
{
    let v = w % 0x4000_0000;
    let s = (((v / 100000 * 16 + v / 10000) * 16 + v / 1000) * 16 + v / 100) * 16 + v / 10;
    w + s * 6
}

// A longword that passes, converted.
pub fn converted(way: Way, w: u32) -> u32
    requires { is_bad way w ≡ false }
    ensures { result ≡ converted_to way w }
{
    match way {
        Way::ToBinary => binary_of(w),
        Way::ToDecimal => decimal_of(w),
    }
}
