// The names of the error codes.
ghost use Rattle.std.specs.Prelude.{◌≡◌};
ghost use Rattle.camac.specs.Names.{name_of};

// 001's names of the sixteen error codes, filled with blanks.
const NAMES: [[u8; 16]; 16] = [
    *b"NO ERROR        ",
    *b"ILLEGAL COMMAND ",
    *b"RESERVED        ",
    *b"RESERVED        ",
    *b"SERIAL ERROR    ",
    *b"RESERVED        ",
    *b"RESERVED        ",
    *b"NO-Q            ",
    *b"NO-X            ",
    *b"N>23            ",
    *b"STE             ",
    *b"TIMEOUT         ",
    *b"ADNR            ",
    *b"NO SYNC         ",
    *b"RESERVED        ",
    *b"RESERVED        ",
];

// The name of an error code; blanks for a number above 15.
pub fn error_name(code: usize) -> [u8; 16]
    ensures { result ≡ name_of code }
{
    NAMES.get(code).copied().unwrap_or([b' '; 16])
}
