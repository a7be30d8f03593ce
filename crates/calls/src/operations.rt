// The operation wanted next.
ghost use Rattle.std.specs.Prelude.{◌≡◌, ◌^◌, ◌<◌};
ghost use Rattle.calls.specs.Calls.{word_wanted, operation_of, outgoing_word};

use camac::{Command, Direction, Transfer};
use reply::Record;

// The operation wanted next: crate, N, A, F, data, and whether it is enhanced.
#[derive(Clone, Copy, Debug, PartialEq, Eq)]
pub struct Operation {
    pub crate_number: u8,
    pub station: u8,
    pub subaddress: u8,
    pub function: u8,
    pub word: u32,
    pub enhanced: bool,
}

// The word that a write takes. Every mark is below 2^63: it counts bytes of a buffer.
fn outgoing_word(d: Direction, wide: bool, mark: usize, outgoing: &[u8]) -> u32
    requires { mark < 2 ^ 63 }
    ensures { result ≡ outgoing_word d wide mark outgoing.now }
{
    match d {
        Direction::Outgoing => packing::fetch(outgoing, mark, wide),
        Direction::Incoming | Direction::Neither => 0,
    }
}

// The data of the operation wanted. Every mark is below 2^63: it counts bytes of a buffer.
#[tactic(auto, unfolding(crate::specs::Calls::word_wanted))]
fn word_wanted(t: Transfer, wide: bool, mark: usize, outgoing: &[u8]) -> u32
    requires { mark < 2 ^ 63 }
    ensures { result ≡ word_wanted t wide mark outgoing.now }
{
    match t {
        Transfer::Inline(_, _, word) => word,
        Transfer::Single(..) | Transfer::Block(..) | Transfer::Enhanced(..) => {
            outgoing_word(camac::direction_of(t), wide, mark, outgoing)
        }
    }
}

// The operation that a record waits for. Every mark is below 2^63: it counts bytes of a buffer.
#[tactic(auto, unfolding(crate::specs::Calls::operation_of))]
pub fn operation_of(c: Command, r: Record, outgoing: &[u8]) -> Operation
    requires { r.marks.outgoing < 2 ^ 63 }
    ensures { result ≡ operation_of c r outgoing.now }
{
    let address = camac::address_of(c.transfer);
    Operation {
        crate_number: address.crate_number,
        station: r.position.station,
        subaddress: r.position.subaddress,
        function: address.function,
        word: word_wanted(c.transfer, c.wide, r.marks.outgoing, outgoing),
        enhanced: camac::is_enhanced(c.transfer),
    }
}
