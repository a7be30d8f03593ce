// W, B and O: the sums over the walk.
ghost use Rattle.std.specs.Prelude.{◌≡◌, ◌^◌, ◌<◌, ◌≤◌};
ghost use Rattle.camac.specs.Words.{command_in, words_of};
ghost use Rattle.listfile.specs.Fields.{tag_at, first_at, second_at};
ghost use Rattle.listfile.specs.model.Table.{FieldPassed};
ghost use Rattle.listfile.specs.declared.field.Tag.TheVariants.{CamacTag};
ghost use Rattle.walk.specs.model.Sums.{SumsTo, added_by, after_literal, after_command};

use camac::{Command, Direction};

// Its bound stands in contracts, since admission answers it too. W, B and O: the worst count, and the incoming and the outgoing mark after every word of the walk.
#[derive(Clone, Copy, Debug, PartialEq, Eq)]
pub struct Counts {
    pub worst: u64,
    pub incoming: u64,
    pub outgoing: u64,
}

// The sums after some words of a direction, with W as it is after them.
fn added_by(d: Direction, wide: bool, words: u64, worst: u64, s: Counts) -> Counts
    requires { (words ≤ 2 ^ 32) × SumsTo (2 ^ 62) s }
    ensures { result ≡ added_by d wide words worst s }
{
    match d {
        Direction::Incoming => Counts {
            worst,
            incoming: packing::mark_after_words(wide, words, s.incoming),
            ..s
        },
        Direction::Outgoing => Counts {
            worst,
            outgoing: packing::mark_after_words(wide, words, s.outgoing),
            ..s
        },
        Direction::Neither => Counts { worst, ..s },
    }
}

// The sums after a literal, a longword in the incoming buffer.
pub(crate) fn after_literal(s: Counts) -> Counts
    requires { SumsTo (2 ^ 62) s }
    ensures { result ≡ after_literal s }
{
    Counts {
        incoming: packing::mark_after_words(true, 1, s.incoming),
        ..s
    }
}

// The sums after a CAMAC instruction with all its words.
pub(crate) fn after_command(limit: u64, c: Command, s: Counts) -> Counts
    requires { (limit < 2 ^ 16) × ((words_of c.transfer ≤ 2 ^ 32) × SumsTo (2 ^ 62) s) }
    ensures { result ≡ after_command limit c s }
{
    let t = c.transfer;
    let words = camac::words_of(t);
    let worst = s.worst
        + qmodes::worst_words(limit, camac::qmode_of(t), camac::position_of(t), words);
    added_by(camac::direction_of(t), c.wide, words, worst, s)
}

// The same for the CAMAC field at a place, by the bits of its longwords.
pub(crate) fn after_field(limit: u64, list: &[u8], at: usize, s: Counts) -> Counts
    requires { (limit < 2 ^ 16) × (FieldPassed list.now at × ((tag_at list.now at ≡ CamacTag) × SumsTo (2 ^ 62) s)) }
    ensures { result ≡ after_command limit (command_in (first_at list.now at) (second_at list.now at)) s }
{
    let first = listfile::first_at(list, at);
    let wide = camac::is_wide(first);
    let words = listfile::words_at(list, at, first);
    let worst = s.worst
        + qmodes::worst_words(limit, camac::qmode_in(first), camac::start_in(first), words);
    added_by(camac::direction_in(first), wide, words, worst, s)
}
