// Refusals in words: what is wrong, the bytes at its place, what was expected.
use crate::text::Bytes;
use base::{Fault, Refused};
use camac::Transfer;
use std::io;
use std::io::Write;

// The most bytes that are shown of a field: a head and two longwords.
const SHOWN: usize = 11;

// A refusal that has the place of a field.
pub(crate) fn print_field_refused(
    out: &mut impl Write,
    list: &[u8],
    count: usize,
    refused: Refused,
) -> io::Result<()> {
    print_refused(out, refused)?;
    let field = list.get(refused.place..).unwrap_or(&[]);
    let shown = start_of(field);
    if shown.is_empty() {
        writeln!(out, "  the bytes there: none")?;
    } else {
        writeln!(out, "  the bytes there:{}", Bytes(shown))?;
    }
    write!(out, "  expected: {}", expected_of(refused.fault, field))?;
    if refused.fault == Fault::NoSuchTarget {
        write!(out, "{count}")?;
    }
    writeln!(out)
}

// The bytes that are shown of a field, from which on the list is given.
fn start_of(field: &[u8]) -> &[u8] {
    let size = (3 + base::short_at(field, 1)).min(SHOWN);
    &field[..size.min(field.len())]
}

// A refusal's number, place and words.
pub(crate) fn print_refused(out: &mut impl Write, refused: Refused) -> io::Result<()> {
    let Refused { fault, place } = refused;
    let reason = reason_of(fault);
    writeln!(out, "\nrefused {}, place {place}: {reason}", fault.number())
}

fn reason_of(fault: Fault) -> &'static str {
    match fault {
        Fault::PastEnd => "a field runs past the end of the list",
        Fault::FirstField => "the first field is missing or wrong",
        Fault::UnknownTag => "unknown tag, or a second first field",
        Fault::WrongLength => "length wrong for its tag",
        Fault::TooManyInstructions => "more than 4,096 instructions",
        Fault::ZeroBit => "a bit that must be zero is set",
        Fault::NoSuchAddress => "no such crate or station",
        Fault::WrongMode => {
            "transfer mode does not go with its length, Q-mode, address or function"
        }
        Fault::WrongCount => "wrong word count or inline data",
        Fault::NoSuchTarget => "jump to no instruction",
        Fault::NoHalt => "the list comes to no halt",
        Fault::ShortIncoming => "incoming buffer too short",
        Fault::ShortOutgoing => "outgoing buffer too short",
        Fault::ReplyNotFormed => "a reply is not well formed",
        _ => "not of a list",
    }
}

// What the field should have been.
fn expected_of(fault: Fault, field: &[u8]) -> &'static str {
    match fault {
        Fault::PastEnd => "a tag, a length of two bytes and a body of that length",
        Fault::FirstField => "01 04 00 01 00, then R in two bytes, low byte first, 1 to 65,535",
        Fault::UnknownTag => "tag 10h (CAMAC), 20h (jump), 21h (literal) or 2Fh (halt)",
        Fault::WrongLength => {
            "length 4 or 8 for tag 10h (CAMAC), 2 for 20h (jump), 4 for 21h (literal), 0 for 2Fh (halt)"
        }
        Fault::TooManyInstructions => "the end of the list",
        Fault::ZeroBit => "bits 31, 30, 15, 14, 7 and 2 of the first longword zero",
        Fault::NoSuchAddress => "crate 1 to 62; N 1 to 23, or 30 where the Q-mode is not scan",
        Fault::WrongMode => mode_expected(transfer_in(field)),
        Fault::WrongCount => second_expected(transfer_in(field)),
        _ => "the number of an instruction of this list, less than ",
    }
}

// The transfer of a CAMAC field's first longword.
fn transfer_in(field: &[u8]) -> Transfer {
    camac::command_in(base::long_at(field, 3), 0).transfer
}

// What goes with a transfer mode.
fn mode_expected(transfer: Transfer) -> &'static str {
    match transfer {
        Transfer::Single(_, _) => "length 4 for a single",
        Transfer::Block(_, _, _) => "length 8 and a read or write function for a block",
        Transfer::Enhanced(_, _, _) => {
            "length 8 for an enhanced block; in stop and ignore a read or write function, in repeat a read function, in Q-mode 3 (list sequencer) N 30, F 12, A 0 to 3"
        }
        Transfer::Inline(_, _, _) => "length 8 and a write function for an inline write",
    }
}

// What the second longword has to be.
fn second_expected(transfer: Transfer) -> &'static str {
    match transfer {
        Transfer::Inline(_, _, _) => "data that fits the word size",
        _ => {
            "the two's complement of 1 to 65,536 halfwords, an even number for words of 24 bits, in scan at most (23 - N) x 16 + 16 - A words"
        }
    }
}
