// The fields of a list in words.
use crate::text::{Destination, Word, plural};
use camac::{Command, Direction, Transfer};
use listfile::Instruction;
use qmodes::QMode;
use std::io::Write;
use std::{fmt, io};

// The first field, below the names of the columns.
pub(crate) fn print_head(out: &mut impl Write, limit: u64) -> io::Result<()> {
    writeln!(out, "  place  number  what it does")?;
    writeln!(out, "      0    head  format 1, try limit R = {limit}")
}

// An instruction, with its place and its number.
pub(crate) fn print_field(
    out: &mut impl Write,
    place: usize,
    number: usize,
    limit: u64,
    instruction: Instruction,
) -> io::Result<()> {
    write!(out, "{place:>7}{number:>8}  ")?;
    match instruction {
        Instruction::Camac(command) => print_command(out, limit, command),
        Instruction::Jump(target) => writeln!(out, "jump to instruction {target}"),
        Instruction::Literal(value) => writeln!(out, "store the literal longword {value:08X}h"),
        Instruction::Halt => writeln!(out, "halt: end the run with code 0"),
    }
}

// A CAMAC instruction: what it moves and where; in a second line its Q-mode and AD.
fn print_command(out: &mut impl Write, limit: u64, command: Command) -> io::Result<()> {
    let Command { transfer, wide, ad } = command;
    let to = Destination(camac::address_of(transfer));
    let function = function_of(transfer);
    writeln!(out, "{}, {to} ({function})", Moves { transfer, wide })?;
    write!(out, "                 ")?;
    print_rule(out, limit, transfer)?;
    print_ad(out, camac::qmode_of(transfer), ad)
}

// What a transfer moves.
#[derive(Clone, Copy)]
struct Moves {
    transfer: Transfer,
    wide: bool,
}

impl fmt::Display for Moves {
    fn fmt<W: fmt::Write>(&self, f: &mut fmt::Formatter<W>) -> fmt::Result {
        let wide = self.wide;
        let verb = verb_of(camac::direction_of(self.transfer));
        match self.transfer {
            Transfer::Single(_, _) if verb.is_empty() => write!(f, "command without data"),
            Transfer::Single(_, _) => write!(f, "{verb}{}", Words { n: 1, wide }),
            Transfer::Block(_, _, n) => write!(f, "{verb}a block of {}", Words { n, wide }),
            Transfer::Enhanced(_, _, n) => {
                write!(f, "{verb}an enhanced block of {}", Words { n, wide })
            }
            Transfer::Inline(_, _, bits) => {
                write!(f, "write the list's own word {}", Word { wide, bits })
            }
        }
    }
}

// A command that moves no word of a buffer has no verb.
fn verb_of(direction: Direction) -> &'static str {
    match direction {
        Direction::Incoming => "read ",
        Direction::Outgoing => "write ",
        Direction::Neither => "",
    }
}

// Some words and their size.
#[derive(Clone, Copy)]
struct Words {
    n: u64,
    wide: bool,
}

impl fmt::Display for Words {
    fn fmt<W: fmt::Write>(&self, f: &mut fmt::Formatter<W>) -> fmt::Result {
        let words = plural(self.n, "word", "words");
        let bits = bits_of(self.wide);
        write!(f, "{words} of {bits} bits")
    }
}

fn bits_of(wide: bool) -> u32 {
    if wide { 24 } else { 16 }
}

// What the function is: control where its 8-bit is set, else a write where its 16-bit is. A list sequencer's A says the direction.
fn function_of(transfer: Transfer) -> &'static str {
    let function = camac::address_of(transfer).function;
    if function & 8 == 0 {
        if function & 16 == 0 { "read" } else { "write" }
    } else if camac::is_enhanced(transfer) {
        "list sequencer, A says the direction"
    } else {
        "control"
    }
}

// The Q-mode, and what Q does.
fn print_rule(out: &mut impl Write, limit: u64, transfer: Transfer) -> io::Result<()> {
    match camac::qmode_of(transfer) {
        QMode::Stop if camac::is_block_of(transfer) => {
            write!(out, "stop (Q = 0 closes the block, the list goes on)")
        }
        QMode::Stop => write!(out, "stop (Q = 0 ends the run)"),
        QMode::Ignore => write!(out, "ignore (a word is done whatever Q is)"),
        QMode::Repeat => write!(
            out,
            "repeat (a word is tried until Q = 1; Q = 0 on try {limit} ends the run)"
        ),
        QMode::Scan => write!(
            out,
            "scan (Q = X = 1: next subaddress, else next station; past station 23 the run ends)"
        ),
    }
}

// AD, and what it says of other errors. A scan asks for no X.
fn print_ad(out: &mut impl Write, qmode: QMode, ad: bool) -> io::Result<()> {
    let ended = if ad {
        "AD = 1 (not ended"
    } else {
        "AD = 0 (ended"
    };
    let no_x = if qmodes::is_scan(qmode) {
        ""
    } else {
        "X = 0, "
    };
    writeln!(
        out,
        "; {ended} by {no_x}a parity error, or a damaged command: ERR while X = 1)"
    )
}

// The parts of a CAMAC field that is refused: no words are made of them, since they may not go together.
pub(crate) fn print_parts(
    out: &mut impl Write,
    place: usize,
    number: usize,
    first: u32,
) -> io::Result<()> {
    let Command { transfer, wide, .. } = camac::command_in(first, 0);
    let mode = camac::mode_in(first);
    let qmode = (first >> 3) % 4;
    let to = Destination(camac::address_of(transfer));
    let bits = bits_of(wide);
    write!(
        out,
        "{place:>7}{number:>8}  refused: transfer mode {mode}, Q-mode {qmode}, {to}, {bits} bits"
    )
}

// The second longword: none of a single's, the data of an inline write, or the count of a block.
pub(crate) fn print_second(out: &mut impl Write, first: u32, second: u32) -> io::Result<()> {
    match camac::command_in(first, second).transfer {
        Transfer::Single(_, _) => write!(out, ", second longword {second:08X}h"),
        Transfer::Inline(_, _, data) => write!(out, ", data {data:08X}h"),
        _ => {
            let halfwords = (1 << 32) - u64::from(second);
            write!(
                out,
                ", count {}",
                plural(halfwords, "halfword", "halfwords")
            )
        }
    }
}
