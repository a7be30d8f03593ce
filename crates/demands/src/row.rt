// A row of demands, two bytes each, before it is added.
ghost use Rattle.std.specs.Prelude.{◌≡◌};
ghost use Rattle.demands.specs.Demands.{is_crate, is_row};

pub fn is_crate(n: u8) -> bool
    ensures { result ≡ is_crate n }
{
    (1 <= n) & (n <= 62)
}

// Whether bytes are whole demands, each of a crate. Gathered over the whole row, and not by `all`, which stops at the first: the vector unit takes
// many bytes at a time. A `fold` is not so taken: measured, it makes a row 4 instructions a demand longer, of 15.5.
pub fn is_row(row: &[u8]) -> bool
    ensures { result ≡ is_row row.now }
{
    if row.len() % 2 != 0 {
        return false;
    }
    let (demands, _) = row.as_chunks::<2>();
    let mut are = true;
    for &[crate_number, _] in demands {
        are &= is_crate(crate_number);
    }
    are
}
