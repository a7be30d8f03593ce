// camrun: admits run.lst, runs it over the replies of run.rep with the outgoing words of run.out, and prints what happened. Each file is
// read up to 65,536 bytes; a missing one is empty. The incoming buffer is 65,536 zero bytes.
#![tactic(auto)]

ghost use Rattle.calls.specs.Calls.{step_of};
ghost use Rattle.reply.specs.Effect.{state_of};
ghost use Rattle.step.specs.InPlace.{Leaves};

use base::{Fault, Refused};
use calls::{Operation, Yield};
use files::{Rooms, RunFiles};
use reply::Record;
use std::io;
use std::io::Write;
use walk::Counts;

// The bytes of the incoming buffer.
const INCOMING: usize = 65536;

fn main(rt: HostRuntime) -> io::Result<()> {
    let mut rooms = Rooms::new();
    let found = files::read_files(&rt, &mut rooms);
    let mut out = files::output(&rt);
    run_list(&mut out, found)?;
    out.flush()
}

fn run_list(out: &mut impl Write, found: RunFiles) -> io::Result<()> {
    match walk::admit(found.list, INCOMING, found.outgoing.len()) {
        Ok(counts) => print_admitted(out, counts)?,
        Err(refused) => return print_refused(out, refused),
    }
    if row::read_row(found.replies).is_none() {
        return print_refused(out, Fault::ReplyNotFormed.into());
    }
    run_replies(out, found)
}

// Start, then a step for each reply until the run has ended or the replies run out.
fn run_replies(out: &mut impl Write, found: RunFiles) -> io::Result<()> {
    let RunFiles {
        list,
        replies,
        outgoing,
    } = found;
    let mut incoming = [0; INCOMING];
    let first = match step::start(list, &mut incoming, outgoing) {
        Ok(first) => first,
        Err(refused) => return print_refused(out, refused),
    };
    let Yield {
        mut run,
        mut wanted,
    } = first;
    for reply in replies.chunks_exact(8) {
        let Some(operation) = wanted else {
            break;
        };
        print_operation(out, run.operations, operation)?;
        match take_reply(list, &mut run, &mut incoming, outgoing, reply) {
            Ok(next) => wanted = next,
            Err(refused) => return print_refused(out, refused),
        }
    }
    print_end(out, run)
}

// One reply, taken by a step whose record is lent.
fn take_reply(
    list: &[u8],
    run: &mut Record,
    incoming: &mut [u8],
    outgoing: &[u8],
    reply: &[u8],
) -> Result<Option<Operation>, Refused>
    ensures leaves { Leaves (step_of list.now (state_of run.old incoming.old outgoing.now) reply.now)
        result run.new incoming.new outgoing.now }
{
    step::step_in_place(list, run, incoming, outgoing, reply)
}

fn print_refused(out: &mut impl Write, refused: Refused) -> io::Result<()> {
    writeln!(out, "refused {} {}", refused.fault.number(), refused.place)
}

fn print_admitted(out: &mut impl Write, counts: Counts) -> io::Result<()> {
    let Counts {
        worst,
        incoming,
        outgoing,
    } = counts;
    writeln!(out, "admitted {worst} {incoming} {outgoing}")
}

// The operation whose reply is taken next; `made` operations were made before it.
fn print_operation(out: &mut impl Write, made: u64, operation: Operation) -> io::Result<()> {
    let Operation {
        crate_number,
        station,
        subaddress,
        function,
        ..
    } = operation;
    let number = made.saturating_add(1);
    writeln!(
        out,
        "op {number} {crate_number} {station} {subaddress} {function}"
    )
}

fn print_end(out: &mut impl Write, run: Record) -> io::Result<()> {
    if run.ended {
        let status = run.status;
        let code = status >> 28;
        write!(out, "end {code:X} {status:08X}")?;
    } else {
        write!(out, "waiting")?;
    }
    writeln!(out, " {} {}", run.operations, run.marks.incoming)
}
