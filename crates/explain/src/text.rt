// What is printed in many places: a count of things, a word, bytes, an address.
use camac::Address;
use std::fmt;

// A number of one thing, or of several.
#[derive(Clone, Copy)]
pub(crate) struct Count<'a> {
    n: u64,
    one: &'a str,
    several: &'a str,
}

pub(crate) fn plural<'a>(n: u64, one: &'a str, several: &'a str) -> Count<'a> {
    Count { n, one, several }
}

impl fmt::Display for Count<'_> {
    fn fmt<W: fmt::Write>(&self, f: &mut fmt::Formatter<W>) -> fmt::Result {
        let n = self.n;
        let things = if n == 1 { self.one } else { self.several };
        write!(f, "{n} {things}")
    }
}

// A word of 16 or of 24 bits. Bits above those are not shown.
#[derive(Clone, Copy)]
pub(crate) struct Word {
    pub wide: bool,
    pub bits: u32,
}

impl fmt::Display for Word {
    fn fmt<W: fmt::Write>(&self, f: &mut fmt::Formatter<W>) -> fmt::Result {
        if self.wide {
            write!(f, "{:06X}h", self.bits & 0x00FF_FFFF)
        } else {
            write!(f, "{:04X}h", self.bits & 0xFFFF)
        }
    }
}

// Bytes, each behind a blank.
#[derive(Clone, Copy)]
pub(crate) struct Bytes<'a>(pub &'a [u8]);

impl fmt::Display for Bytes<'_> {
    fn fmt<W: fmt::Write>(&self, f: &mut fmt::Formatter<W>) -> fmt::Result {
        for byte in self.0 {
            write!(f, " {byte:02X}")?;
        }
        Ok(())
    }
}

// Where a command goes.
#[derive(Clone, Copy)]
pub(crate) struct Destination(pub Address);

impl fmt::Display for Destination {
    fn fmt<W: fmt::Write>(&self, f: &mut fmt::Formatter<W>) -> fmt::Result {
        let Address {
            crate_number,
            station,
            subaddress,
            function,
        } = self.0;
        write!(
            f,
            "crate {crate_number}, N {station}, A {subaddress}, F {function}"
        )
    }
}
