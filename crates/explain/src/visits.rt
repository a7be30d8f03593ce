// The walk, visit by visit, as admission adds it up.
ghost use Rattle.std.specs.Prelude.{◌^◌, ◌<◌, ◌≤◌, length};
ghost use Rattle.listfile.specs.model.Table.{TableRight};

use crate::listing::Listing;
use crate::text::plural;
use camac::Transfer;
use listfile::Instruction;
use qmodes::QMode;
use std::io;
use std::io::Write;
use walk::{Counts, Turn};

// Every visit of a list that passed 1 to 10.
pub(crate) fn print_walk(out: &mut impl Write, listing: &Listing) -> io::Result<()>
    requires few { length listing.now.places.now ≤ 4096 }
    requires small { listing.now.limit < 2 ^ 16 }
    requires right { TableRight listing.now.list.now listing.now.places.now (length listing.now.places.now) }
{
    let mut here = walk::first_spot();
    let mut sums = Counts {
        worst: 0,
        incoming: 0,
        outgoing: 0,
    };
    writeln!(out, "\nwalk, with no block short")?;
    writeln!(
        out,
        " number  operations at most        incoming mark        outgoing mark"
    )?;
    // One for each instruction that a list can have, on the stack: no memory is asked for that may be missing.
    let mut seen = [false; 4096];
    for _visit in 0..listing.places.len() {
        let k = here.instruction;
        let Some(&place) = listing.places.get(k) else {
            break;
        };
        if seen[k] {
            break;
        }
        seen[k] = true;
        let turn = walk::turn_at(listing.list, place, here, listing.limit, sums);
        let Some(Turn { next, sums: after }) = turn else {
            return writeln!(out, "{k:>7}  halt");
        };
        print_visit(out, k, sums, after)?;
        let instruction = listfile::instruction_at(listing.list, place);
        print_why(out, instruction, listing.limit, sums, after)?;
        here = next;
        sums = after;
    }
    print_lost(out, listing.places.len(), here.instruction)
}

// The instruction that is visited, its share of W, and the marks before and after it.
fn print_visit(out: &mut impl Write, k: usize, before: Counts, after: Counts) -> io::Result<()> {
    let share = after.worst.saturating_sub(before.worst);
    write!(out, "{k:>7}{share:>20}")?;
    write!(out, "{:>10} to {:>7}", before.incoming, after.incoming)?;
    write!(out, "{:>10} to {:>7}", before.outgoing, after.outgoing)
}

// How a visit's share of W comes about, and the pad where longwords follow a mark that is no multiple of 4.
fn print_why(
    out: &mut impl Write,
    instruction: Instruction,
    limit: u64,
    before: Counts,
    after: Counts,
) -> io::Result<()> {
    let stored = before.incoming < after.incoming && before.incoming % 4 == 2;
    let taken = before.outgoing < after.outgoing && before.outgoing % 4 == 2;
    if let Instruction::Camac(command) = instruction {
        print_share(out, limit, command.transfer)?;
    }
    if is_of_longwords(instruction) && (stored || taken) {
        write!(out, "  2 pad bytes first")?;
    }
    writeln!(out)
}

// Words; in repeat with the tries of each; in scan the lesser of its positions and of its words with a miss at each station.
fn print_share(out: &mut impl Write, limit: u64, transfer: Transfer) -> io::Result<()> {
    let words = plural(camac::words_of(transfer), "word", "words");
    match camac::qmode_of(transfer) {
        QMode::Stop | QMode::Ignore => write!(out, "  {words}"),
        QMode::Repeat => {
            let tries = plural(limit, "try", "tries");
            write!(out, "  {words}, {tries} each")
        }
        QMode::Scan => {
            let from = camac::position_of(transfer);
            let stations = plural(from.stations_left(), "station", "stations");
            let positions = plural(from.positions_left(), "position", "positions");
            write!(out, "  {words} less 1, and {stations}; at most {positions}")
        }
    }
}

fn is_of_longwords(instruction: Instruction) -> bool {
    match instruction {
        Instruction::Camac(command) => command.wide,
        Instruction::Literal(_) => true,
        Instruction::Jump(_) | Instruction::Halt => false,
    }
}

// Where a walk comes to that doesn't halt.
fn print_lost(out: &mut impl Write, instructions: usize, k: usize) -> io::Result<()> {
    if k < instructions {
        writeln!(out, "  the walk comes to instruction {k} again")
    } else {
        writeln!(out, "  the walk passes the last field")
    }
}
