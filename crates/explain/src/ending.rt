// How a run ended, or what it waits for: its code, counts, status and last moved word.
use crate::text::{Bytes, Destination, plural};
use calls::Operation;
use camac::Address;
use reply::{Note, Record, Reply, status};
use std::io;
use std::io::Write;
use walk::Counts;

// The most bytes that are shown of a buffer.
const SHOWN: usize = 40;

// The bits of the status but that of the end, and the words for each.
const BITS: [(u32, &str); 11] = [
    (status::DERR, "bit 26, delayed error"),
    (status::TIMEOUT, "bit 25, timeout or tries spent"),
    (status::NO_SYNC, "bit 24, no sync"),
    (status::ERR, "bit 23, ERR met"),
    (status::SCAN_LEFT, "bit 22, scan left station 23"),
    (status::LPE, "bit 21, longitudinal parity error met"),
    (status::TPE, "bit 20, transverse parity error met"),
    (status::NOT_RECOGNISED, "bit 19, address not recognised"),
    (status::ERROR, "bit 18, parity error or ERR met"),
    (status::NO_X, "bit 17, X = 0 met"),
    (status::NO_Q, "bit 16, Q = 0 met"),
];

// The run's end, with its last reply; or what it waits for.
pub(crate) fn print_end(
    out: &mut impl Write,
    run: Record,
    wanted: Option<Operation>,
    last: Option<Reply>,
) -> io::Result<()> {
    let instruction = run.spot.instruction;
    match wanted {
        Some(operation) => {
            write!(out, "\nwaits at instruction {instruction} for ")?;
            print_wanted(out, run.left as u64, operation)
        }
        None => {
            write!(out, "\nended at instruction {instruction} with ")?;
            print_code(out, run.status >> 28, last)
        }
    }
}

// The code, one hexadecimal digit of the status word, its name and what it means.
fn print_code(out: &mut impl Write, code: u32, last: Option<Reply>) -> io::Result<()> {
    write!(out, "code {code:X}, ")?;
    let name = camac::error_name(code as usize);
    let name = name.trim_ascii_end();
    out.write_all(name)?;
    writeln!(out, ": {}", cause_of(code, last))
}

// Why a run ended, by the number in the status word: the cause itself is not kept there. Code Bh has two causes.
fn cause_of(code: u32, last: Option<Reply>) -> &'static str {
    match code {
        0 => "the run came to its halt",
        4 => "the command reached the crate damaged, ERR while X = 1",
        7 => "Q = 0 in stop",
        8 => "X = 0, no module took the command",
        9 => "the scan left station 23 before all its words were done",
        10 => "a parity error, TPE or LPE",
        11 => match last {
            Some(Reply::Timeout) => "no reply came in time",
            _ => "a word was tried R times, and Q = 0 on the last",
        },
        12 => "no crate recognised the address",
        _ => "the highway was not in sync",
    }
}

// The operation that a run waits for, with so many words left.
fn print_wanted(out: &mut impl Write, left: u64, operation: Operation) -> io::Result<()> {
    let Operation {
        crate_number,
        station,
        subaddress,
        function,
        ..
    } = operation;
    let to = Destination(Address {
        crate_number,
        station,
        subaddress,
        function,
    });
    let words = plural(left, "word", "words");
    writeln!(out, "{words}: {to} is wanted next")
}

// Operations and marks beside W, B and O.
pub(crate) fn print_counts(out: &mut impl Write, run: Record, most: Counts) -> io::Result<()> {
    let marks = run.marks;
    print_used(out, "operations", run.operations, most.worst)?;
    print_used(out, "bytes stored", marks.incoming as u64, most.incoming)?;
    print_used(out, "bytes taken", marks.outgoing as u64, most.outgoing)
}

fn print_used(out: &mut impl Write, what: &str, used: u64, most: u64) -> io::Result<()> {
    writeln!(out, "  {what}: {used} of at most {most}")
}

// The status, and each of its bits in words.
pub(crate) fn print_status(out: &mut impl Write, bits: u32) -> io::Result<()> {
    let code = bits >> 28;
    write!(out, "  status {bits:08X}h: bits 31 to 28, code {code:X};")?;
    for (bit, words) in BITS {
        if bits & bit != 0 {
            write!(out, " {words};")?;
        }
    }
    if bits & status::ENDED != 0 {
        writeln!(out, " bit 7, ended")
    } else {
        writeln!(out, " not ended")
    }
}

// The last moved word, its buffer and place.
pub(crate) fn print_last(
    out: &mut impl Write,
    incoming: &[u8],
    outgoing: &[u8],
    note: Note,
) -> io::Result<()> {
    if note.size == 0 {
        return writeln!(out, "  no word was moved");
    }
    let buffer = if note.buffer == 0 {
        "incoming"
    } else {
        "outgoing"
    };
    let offset = note.offset;
    let word = Bytes(calls::last_moved(incoming, outgoing, note));
    writeln!(
        out,
        "  last moved word: {buffer} bytes from {offset} on,{word}"
    )
}

// The first of a buffer's bytes up to its mark.
pub(crate) fn print_used_bytes(
    out: &mut impl Write,
    name: &str,
    buffer: &[u8],
    mark: usize,
) -> io::Result<()> {
    let Some(shown) = buffer.get(..mark.min(SHOWN)) else {
        return Ok(());
    };
    if shown.is_empty() {
        return Ok(());
    }
    let more = if shown.len() < mark { " .." } else { "" };
    writeln!(out, "  {name} buffer:{}{more}", Bytes(shown))
}
