// explain: says in words what the list run.lst does and, over the replies of run.rep with the outgoing words of run.out, what its run does and how it
// ends. Each file is read up to 65,536 bytes; a missing one is empty. The incoming buffer is 65,536 zero bytes.
#![tactic(auto)]

mod ending;
mod fields;
mod listing;
mod operations;
mod refusals;
mod replies;
mod text;
mod visits;

ghost use Rattle.std.specs.Prelude.{◌≤◌, length};

use crate::fields::{print_field, print_head, print_parts, print_second};
use crate::listing::Listing;
use crate::refusals::{print_field_refused, print_refused};
use crate::replies::explain_run;
use crate::text::plural;
use crate::visits::print_walk;
use base::{Fault, Refused};
use files::{MOST_BYTES, Rooms, RunFiles};
use std::io::Write;
use std::{fmt, io};
use walk::Counts;

// The place behind the first field.
const FIRST: usize = 7;

fn main(rt: HostRuntime) -> io::Result<()> {
    let mut rooms = Rooms::new();
    let found = files::read_files(&rt, &mut rooms);
    let mut out = files::output(&rt);
    print_full(&mut out, "run.lst", found.list)?;
    print_full(&mut out, "run.rep", found.replies)?;
    print_full(&mut out, "run.out", found.outgoing)?;
    explain(&mut out, found)?;
    out.flush()
}

// A file of which the buffer holds no more.
fn print_full(out: &mut impl Write, name: &str, bytes: &[u8]) -> io::Result<()> {
    if bytes.len() == MOST_BYTES {
        writeln!(out, "{name}: 65536 bytes were read, and no more are")?;
    }
    Ok(())
}

// The list; then, where its fields are right, its walk and its run.
fn explain(out: &mut impl Write, found: RunFiles) -> io::Result<()> {
    let list = found.list;
    let mut table = [0; 4096];
    let checked = listfile::check_list(list, &mut table);
    writeln!(
        out,
        "list of {}",
        plural(list.len() as u64, "byte", "bytes")
    )?;
    match checked {
        Ok(sizes) => {
            print_fields(out, list, list.len())?;
            let listing = Listing {
                list,
                places: &table[..sizes.count],
                limit: sizes.limit as u64,
            };
            print_walk(out, &listing)?;
            explain_admitted(out, &listing, found.replies, found.outgoing)
        }
        Err(refused) => explain_refused(out, list, refused),
    }
}

// A list that one of 1 to 10 refuses: the fields before its place, all of them with 10, and what is wrong.
fn explain_refused(out: &mut impl Write, list: &[u8], refused: Refused) -> io::Result<()> {
    let end = match refused.fault {
        Fault::NoSuchTarget => list.len(),
        _ => refused.place.min(list.len()),
    };
    let count = print_fields(out, list, end)?;
    print_wrong_field(out, list, count, refused)?;
    print_field_refused(out, list, count, refused)
}

// The fields from the first on that begin before a place: how many instructions they are.
fn print_fields(out: &mut impl Write, list: &[u8], end: usize) -> io::Result<usize>
    requires { end ≤ length list.now }
{
    let limit = base::short_at(list, 5) as u64;
    let mut at = FIRST;
    let mut count = 0;
    if 0 < end {
        print_head(out, limit)?;
    }
    // Places and not numbers are counted: a field's length says where the next begins, as listfile's Reader finds it, which no other crate can name.
    while at < end {
        let Ok(instruction) = listfile::read_at(list, at, count) else {
            break;
        };
        print_field(out, at, count, limit, instruction)?;
        at = at + 3 + base::short_at(list, at + 1);
        count += 1;
    }
    Ok(count)
}

// A field that 6 to 9 refuses: what its bits say.
fn print_wrong_field(
    out: &mut impl Write,
    list: &[u8],
    count: usize,
    refused: Refused,
) -> io::Result<()> {
    if !matches!(
        refused.fault,
        Fault::ZeroBit | Fault::NoSuchAddress | Fault::WrongMode | Fault::WrongCount
    ) {
        return Ok(());
    }
    let place = refused.place;
    let Some(field) = list.get(place..) else {
        return Ok(());
    };
    let first = base::long_at(field, 3);
    print_parts(out, place, count, first)?;
    if base::short_at(field, 1) == 8 {
        print_second(out, first, base::long_at(field, 7))?;
    }
    writeln!(out)
}

// Admission of a list whose fields are right, then its run.
fn explain_admitted(
    out: &mut impl Write,
    listing: &Listing,
    replies: &[u8],
    outgoing: &[u8],
) -> io::Result<()> {
    match walk::admit(listing.list, MOST_BYTES, outgoing.len()) {
        Ok(counts) => {
            writeln!(out, "\nadmitted: {}", Bounds(counts))?;
            explain_run(out, listing, counts, replies, outgoing)
        }
        Err(refused) => {
            print_refused(out, refused)?;
            print_needed(out, listing.list, refused.fault, outgoing.len())
        }
    }
}

// W, B and O.
#[derive(Clone, Copy)]
struct Bounds(Counts);

impl fmt::Display for Bounds {
    fn fmt<W: fmt::Write>(&self, f: &mut fmt::Formatter<W>) -> fmt::Result {
        let Counts {
            worst,
            incoming,
            outgoing,
        } = self.0;
        let operations = plural(worst, "operation", "operations");
        let stored = plural(incoming, "byte", "bytes");
        let taken = plural(outgoing, "byte", "bytes");
        write!(
            f,
            "W = {operations} at most, B = {stored} stored at most, O = {taken} taken at most"
        )
    }
}

// What 11, 20 and 21 expect.
fn print_needed(
    out: &mut impl Write,
    list: &[u8],
    fault: Fault,
    outgoing: usize,
) -> io::Result<()> {
    // Every list fits these lengths.
    let Ok(counts) = walk::admit(list, usize::MAX, usize::MAX) else {
        return writeln!(
            out,
            "  expected: a halt, reached before an instruction comes again or the last field is passed"
        );
    };
    let bounds = Bounds(counts);
    if fault == Fault::ShortIncoming {
        writeln!(
            out,
            "  expected: room for B bytes, where 65536 are here; {bounds}"
        )
    } else {
        writeln!(
            out,
            "  expected: O bytes, where run.out has {outgoing}; {bounds}"
        )
    }
}
