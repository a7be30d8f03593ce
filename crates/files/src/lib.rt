// What the programs read and write: the files of a run, and the standard output.
#![tactic(auto)]

ghost use Rattle.std.specs.Prelude.{◌≡◌, ◌≤◌, [], length, replicate};
ghost use Rattle.std.specs.Io.KnownBytes.{Consumes};
ghost use Rattle.std.specs.Io.Buffered.{writer_buffer};

use std::alloc::AllocGlobal;
use std::fs::File;
use std::io;
use std::io::{BufWriter, Print, Printer, Read};
use std::rt::Files;

/// The most bytes that are read of a file.
pub const MOST_BYTES: usize = 65536;

/// Room for the files of a run. It lies with the caller, so that what is printed never hangs on memory.
#[derive(Clone, Copy)]
pub struct Rooms {
    pub list: [u8; MOST_BYTES],
    pub replies: [u8; MOST_BYTES],
    pub outgoing: [u8; MOST_BYTES],
}

impl Rooms {
    pub fn new() -> Rooms
        ensures list { result.list ≡ replicate MOST_BYTES 0 }
        ensures replies { result.replies ≡ replicate MOST_BYTES 0 }
        ensures outgoing { result.outgoing ≡ replicate MOST_BYTES 0 }
    {
        Rooms {
            list: [0; MOST_BYTES],
            replies: [0; MOST_BYTES],
            outgoing: [0; MOST_BYTES],
        }
    }
}

/// The files of a run: run.lst, run.rep and run.out.
#[derive(Clone, Copy)]
pub struct RunFiles<'a> {
    pub list: &'a [u8],
    pub replies: &'a [u8],
    pub outgoing: &'a [u8],
}

pub fn read_files<'a>(rt: &impl Files, rooms: &'a mut Rooms) -> RunFiles<'a>
    ensures list { length result.list.now ≤ MOST_BYTES }
    ensures replies { length result.replies.now ≤ MOST_BYTES }
    ensures outgoing { length result.outgoing.now ≤ MOST_BYTES }
{
    let Rooms {
        list,
        replies,
        outgoing,
    } = rooms;
    RunFiles {
        list: read_file(rt, "run.lst", list),
        replies: read_file(rt, "run.rep", replies),
        outgoing: read_file(rt, "run.out", outgoing),
    }
}

/// The bytes at a file's start, as many as there is room for. A missing file is empty.
pub fn read_file<'a>(rt: &impl Files, name: &str, room: &'a mut [u8]) -> &'a [u8]
    ensures { length result.now ≤ length room.old }
{
    match File::open(rt, name) {
        Ok(mut file) => read_start(&mut file, room),
        Err(_) => &[],
    }
}

/// The bytes that a reader gives before it ends, fails or fills the room.
pub fn read_start<'a, R: Read>(reader: &mut R, room: &'a mut [u8]) -> &'a [u8]
    ensures within { length result.now ≤ length room.old }
    ensures bytes { Consumes (R.remaining reader.old) (R.remaining reader.new) result.now }
{
    // Not read_to_end, which wants memory of its own: what is printed never hangs on memory.
    let mut size = 0;
    while size < room.len() {
        match reader.read(&mut room[size..]) {
            Ok(0) | Err(_) => break,
            Ok(more) => size += more,
        }
    }
    &room[..size]
}

/// The standard output behind a buffer, or behind none where there is no memory for one.
pub fn output<R: Print + AllocGlobal>(rt: &R) -> BufWriter<Printer<'_, R>>
    ensures { writer_buffer result ≡ [] }
{
    match BufWriter::new(rt.alloc(), io::writer(rt)) {
        Ok(out) => out,
        Err(_) => BufWriter::with_capacity(rt.alloc(), 0, io::writer(rt)).unwrap(),
    }
}
