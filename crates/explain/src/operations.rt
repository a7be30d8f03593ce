// The operations of a run in words, stretches of like replies gathered.
use crate::listing::Listing;
use crate::text::Word;
use calls::Operation;
use camac::{Command, Direction, Transfer};
use listfile::Instruction;
use packing::Marks;
use qmodes::{Answer, QMode, ScanPosition};
use reply::{Note, Record, Reply};
use std::io::Write;
use std::{fmt, io};

// The bytes of a moved word in its buffer: the first, the last, and whether a pad stands before them.
#[derive(Clone, Copy)]
struct Moved {
    from: usize,
    to: usize,
    padded: bool,
}

// An operation and its reply: the operation's number and instruction; the word that was moved; the code with which the run ended there, 0
// where it did not or by a halt. The code is a number, as in the status word: the cause itself is not kept there.
#[derive(Clone, Copy)]
pub(crate) struct Event {
    number: u64,
    instruction: usize,
    made: Operation,
    reply: Reply,
    moved: Option<Moved>,
    code: u32,
}

// The event of a reply that took a run from one record to the next.
pub(crate) fn event_of(before: Record, made: Operation, reply: Reply, after: Record) -> Event {
    Event {
        number: after.operations,
        instruction: before.spot.instruction,
        made,
        reply,
        moved: moved_between(before, after),
        code: after.status >> 28,
    }
}

// A word that is moved is noted, each at another place.
fn moved_between(before: Record, after: Record) -> Option<Moved> {
    let note = after.note;
    if note == before.note {
        return None;
    }
    let from = note.offset;
    Some(Moved {
        from,
        to: from.saturating_add(note.size).saturating_sub(1),
        padded: mark_of(note, before.marks) < from,
    })
}

// The mark of the buffer that a note names.
fn mark_of(note: Note, marks: Marks) -> usize {
    if note.buffer == 0 {
        marks.incoming
    } else {
        marks.outgoing
    }
}

impl Event {
    // Whether another is of the same instruction, with a like reply, and as much a cause to end the run.
    fn is_like(self, other: Event) -> bool {
        self.instruction == other.instruction
            && self.code == other.code
            && without_data(self.reply) == without_data(other.reply)
    }
}

fn without_data(reply: Reply) -> Reply {
    match reply {
        Reply::Answered(answer) => Reply::Answered(Answer { word: 0, ..answer }),
        other => other,
    }
}

fn data_of(reply: Reply) -> u32 {
    match reply {
        Reply::Answered(answer) => answer.word,
        _ => 0,
    }
}

// Operations in a row with like replies: the first and the last of them.
#[derive(Clone, Copy)]
pub(crate) struct Stretch {
    first: Event,
    last: Event,
}

impl Stretch {
    // The last operation's reply.
    pub fn reply(self) -> Reply {
        self.last.reply
    }

    fn is_single(self) -> bool {
        self.first.number == self.last.number
    }
}

// A stretch with one event more. Where that is of another kind the stretch is printed, and one begins.
pub(crate) fn gathered(
    out: &mut impl Write,
    listing: &Listing,
    stretch: Option<Stretch>,
    event: Event,
) -> io::Result<Stretch> {
    match stretch {
        Some(Stretch { first, .. }) if first.is_like(event) => Ok(Stretch { first, last: event }),
        _ => {
            print_stretch(out, listing, stretch)?;
            Ok(Stretch {
                first: event,
                last: event,
            })
        }
    }
}

// A stretch in words: its operations, what was answered, what came of it.
pub(crate) fn print_stretch(
    out: &mut impl Write,
    listing: &Listing,
    stretch: Option<Stretch>,
) -> io::Result<()> {
    let Some(stretch) = stretch else {
        return Ok(());
    };
    let instruction = listing.instruction(stretch.first.instruction);
    let Some(Instruction::Camac(command)) = instruction else {
        return Ok(());
    };
    print_operations(out, stretch)?;
    print_written(out, command, stretch)?;
    write!(out, ": ")?;
    print_reply(out, stretch.first.reply)?;
    print_read(out, command, stretch)?;
    write!(out, ": ")?;
    print_effect(out, command, stretch)?;
    writeln!(out)
}

// The numbers of the operations, their instruction, N, A and F. In a scan the position moves.
fn print_operations(out: &mut impl Write, stretch: Stretch) -> io::Result<()> {
    let Stretch { first, last } = stretch;
    if stretch.is_single() {
        write!(out, "  operation {}", first.number)?;
    } else {
        write!(out, "  operations {} to {}", first.number, last.number)?;
    }
    let from = position_of(first.made);
    let to = position_of(last.made);
    let Operation {
        crate_number,
        function,
        ..
    } = first.made;
    write!(
        out,
        ", instruction {}, crate {crate_number}, {}",
        first.instruction,
        Position(from)
    )?;
    if from != to {
        write!(out, " to {}", Position(to))?;
    }
    write!(out, ", F {function}")
}

fn position_of(operation: Operation) -> ScanPosition {
    ScanPosition {
        station: operation.station,
        subaddress: operation.subaddress,
    }
}

#[derive(Clone, Copy)]
struct Position(ScanPosition);

impl fmt::Display for Position {
    fn fmt<W: fmt::Write>(&self, f: &mut fmt::Formatter<W>) -> fmt::Result {
        let ScanPosition {
            station,
            subaddress,
        } = self.0;
        write!(f, "N {station}, A {subaddress}")
    }
}

// The data of a write.
fn print_written(out: &mut impl Write, command: Command, stretch: Stretch) -> io::Result<()> {
    if is_writing(command.transfer) {
        let first = stretch.first.made.word;
        let last = stretch.last.made.word;
        print_data(out, command.wide, stretch, first, last)?;
    }
    Ok(())
}

fn is_writing(transfer: Transfer) -> bool {
    matches!(transfer, Transfer::Inline(_, _, _))
        || matches!(camac::direction_of(transfer), Direction::Outgoing)
}

// The first word of a stretch, and the last.
fn print_data(
    out: &mut impl Write,
    wide: bool,
    stretch: Stretch,
    first: u32,
    last: u32,
) -> io::Result<()> {
    let first = Word { wide, bits: first };
    let last = Word { wide, bits: last };
    if stretch.is_single() {
        write!(out, ", data {first}")
    } else {
        write!(out, ", data {first} first, {last} last")
    }
}

fn print_reply(out: &mut impl Write, reply: Reply) -> io::Result<()> {
    match reply {
        Reply::Answered(answer) => print_flags(out, answer),
        Reply::Timeout => write!(out, "timeout"),
        Reply::NotRecognised => write!(out, "address not recognised"),
        Reply::NoSync => write!(out, "no sync"),
    }
}

// Q and X, and the other flags that are set.
fn print_flags(out: &mut impl Write, answer: Answer) -> io::Result<()> {
    write!(
        out,
        "Q = {}, X = {}",
        u8::from(answer.q),
        u8::from(answer.x)
    )?;
    let others = [
        (answer.err, "ERR"),
        (answer.derr, "DERR"),
        (answer.tpe, "TPE"),
        (answer.lpe, "LPE"),
    ];
    for (is_set, name) in others {
        if is_set {
            write!(out, ", {name}")?;
        }
    }
    Ok(())
}

// The words that were read and moved.
fn print_read(out: &mut impl Write, command: Command, stretch: Stretch) -> io::Result<()> {
    let Stretch { first, last } = stretch;
    if last.moved.is_some() && !is_writing(command.transfer) {
        let first = data_of(first.reply);
        let last = data_of(last.reply);
        print_data(out, command.wide, stretch, first, last)?;
    }
    Ok(())
}

// What came of a reply.
fn print_effect(out: &mut impl Write, command: Command, stretch: Stretch) -> io::Result<()> {
    let last = stretch.last;
    let qmode = camac::qmode_of(command.transfer);
    if last.code != 0 {
        if last.moved.is_some() {
            print_done(out, command, stretch)?;
            write!(out, "; then ")?;
        }
        return write!(out, "the run ends");
    }
    if reply::done_by(qmode, last.reply) {
        return print_done(out, command, stretch);
    }
    match qmode {
        QMode::Stop => write!(out, "not moved, the block is closed"),
        QMode::Ignore => Ok(()),
        QMode::Repeat => write!(out, "not ready, tried again"),
        QMode::Scan => write!(out, "no word here, on to the next station"),
    }
}

// Where the words went that were done.
fn print_done(out: &mut impl Write, command: Command, stretch: Stretch) -> io::Result<()> {
    match camac::direction_of(command.transfer) {
        Direction::Incoming => {
            write!(out, "stored at ")?;
            print_place(out, stretch)?;
            if command.wide {
                write!(out, ", Q and X in bits 31 and 30")?;
            }
            Ok(())
        }
        Direction::Outgoing => {
            write!(out, "taken from ")?;
            print_place(out, stretch)
        }
        Direction::Neither => write!(out, "done"),
    }
}

// The bytes of words in their buffer.
fn print_place(out: &mut impl Write, stretch: Stretch) -> io::Result<()> {
    let Stretch { first, last } = stretch;
    let (Some(first), Some(last)) = (first.moved, last.moved) else {
        return Ok(());
    };
    write!(out, "{} to {}", first.from, last.to)?;
    if first.padded {
        write!(out, ", behind 2 pad bytes")?;
    }
    Ok(())
}
