// The run over a row of replies, in words.
use crate::ending::{print_counts, print_end, print_last, print_status, print_used_bytes};
use crate::listing::Listing;
use crate::operations::{Stretch, event_of, gathered, print_stretch};
use crate::refusals::print_refused;
use crate::text::{Bytes, plural};
use base::Fault;
use calls::Yield;
use files::MOST_BYTES;
use std::io;
use std::io::Write;
use walk::Counts;

// Where a run came to, the operation that it wants next, and its last operations, which are not printed yet.
#[derive(Clone, Copy)]
struct Told {
    came: Yield,
    stretch: Option<Stretch>,
}

// The first reply that is not well formed, or the bytes left over behind the last: its number and its bytes.
fn first_wrong(replies: &[u8]) -> Option<(usize, &[u8])> {
    replies
        .chunks(8)
        .enumerate()
        .find(|(_, reply)| reply::reply_of(reply).is_none())
}

// A row with a reply that is not well formed.
fn print_wrong(out: &mut impl Write, number: usize, reply: &[u8]) -> io::Result<()> {
    print_refused(out, Fault::ReplyNotFormed.into())?;
    writeln!(
        out,
        "  the bytes of reply {number}, counted from 0:{}",
        Bytes(reply)
    )?;
    writeln!(
        out,
        "  expected: eight bytes; kind 0 to 3; flags 0 to 3Fh; two zero bytes; three of data; a zero byte; of kinds 1 to 3 all others zero"
    )
}

// One reply taken, and told with those like it.
fn take(
    out: &mut impl Write,
    listing: &Listing,
    told: Told,
    incoming: &mut [u8],
    outgoing: &[u8],
    reply: &[u8],
) -> io::Result<Told> {
    let (Some(made), Some(answer)) = (told.came.wanted, reply::reply_of(reply)) else {
        return Ok(told);
    };
    let before = told.came.run;
    match step::step(listing.list, before, incoming, outgoing, reply) {
        Ok(came) => {
            let event = event_of(before, made, answer, came.run);
            let stretch = Some(gathered(out, listing, told.stretch, event)?);
            Ok(Told { came, stretch })
        }
        Err(refused) => {
            print_refused(out, refused)?;
            let came = Yield {
                wanted: None,
                ..told.came
            };
            Ok(Told { came, ..told })
        }
    }
}

// From the start a step for each reply, until the run has ended or the replies run out.
fn run_over(
    out: &mut impl Write,
    listing: &Listing,
    came: Yield,
    replies: &[u8],
    incoming: &mut [u8],
    outgoing: &[u8],
) -> io::Result<Told> {
    let mut told = Told {
        came,
        stretch: None,
    };
    for reply in replies.chunks_exact(8) {
        if told.came.wanted.is_none() {
            break;
        }
        told = take(out, listing, told, incoming, outgoing, reply)?;
    }
    Ok(told)
}

// Replies behind the run's end.
fn print_left(out: &mut impl Write, n: u64) -> io::Result<()> {
    if 0 < n {
        writeln!(
            out,
            "  behind the end: {}, not taken",
            plural(n, "reply", "replies")
        )?;
    }
    Ok(())
}

// The run of an admitted list.
pub(crate) fn explain_run(
    out: &mut impl Write,
    listing: &Listing,
    counts: Counts,
    replies: &[u8],
    outgoing: &[u8],
) -> io::Result<()> {
    if let Some((number, reply)) = first_wrong(replies) {
        return print_wrong(out, number, reply);
    }
    let given = (replies.len() / 8) as u64;
    writeln!(out, "\nrun over {}", plural(given, "reply", "replies"))?;
    // On the stack, as every buffer here: what is printed never hangs on memory.
    let mut incoming = [0; MOST_BYTES];
    let first = match step::start(listing.list, &mut incoming, outgoing) {
        Ok(first) => first,
        Err(refused) => return print_refused(out, refused),
    };
    let Told { came, stretch } = run_over(out, listing, first, replies, &mut incoming, outgoing)?;
    let Yield { run, wanted } = came;
    print_stretch(out, listing, stretch)?;
    print_end(out, run, wanted, stretch.map(|stretch| stretch.reply()))?;
    print_counts(out, run, counts)?;
    print_status(out, run.status)?;
    print_last(out, &incoming, outgoing, run.note)?;
    let marks = run.marks;
    print_used_bytes(out, "incoming", &incoming, marks.incoming)?;
    print_used_bytes(out, "outgoing", outgoing, marks.outgoing)?;
    print_left(out, given.saturating_sub(run.operations))
}
