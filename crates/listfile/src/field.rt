// One field of the list file: its tag, its length, its instruction, refusals 1 and 3 to 9.
ghost use Rattle.std.specs.Prelude.{◌≡◌, ◌^◌, ◌<◌, ◌≤◌, length, leb};
ghost use Rattle.base.specs.Refusals.{numbered};
ghost use Rattle.listfile.specs.Fields.{tag_at, body_length, next_field, place_after, second_at, body_of, field_of};
ghost use Rattle.listfile.specs.model.Table.{instruction_at, read_by};

use base::Fault;
use camac::Command;

#[derive(Clone, Copy, Debug, PartialEq, Eq)]
pub enum Instruction {
    Camac(Command),
    Jump(u16),
    Literal(u32),
    Halt,
}

const MOST_INSTRUCTIONS: usize = 4096;

// What a field's tag byte says. An unknown tag is a case of its own, as in the definition, and no missing one: its refusal is its own too.
#[derive(Clone, Copy, Debug, PartialEq, Eq)]
pub enum Tag {
    CamacTag,
    JumpTag,
    LiteralTag,
    HaltTag,
    UnknownTag,
}

impl From<u8> for Tag {
    ghost use Rattle.listfile.specs.model.Table.{ReadsTag};

    ghost from_gives = { ReadsTag };

    fn from(byte: u8) -> Tag
        ensures { ReadsTag byte result }
    {
        match byte {
            0x10 => Tag::CamacTag,
            0x20 => Tag::JumpTag,
            0x21 => Tag::LiteralTag,
            0x2F => Tag::HaltTag,
            _ => Tag::UnknownTag,
        }
    }
}

fn tag_at(list: &[u8], at: usize) -> Tag
    ensures { result ≡ tag_at list.now at }
{
    Tag::from(base::byte_at(list, at))
}

// The place behind the field at a place. A place is below 2^63: it counts bytes of a list.
pub(crate) fn next_place(list: &[u8], at: usize) -> usize
    requires { at < 2 ^ 63 }
    ensures { result ≡ next_field list.now at }
{
    at + 3 + base::short_at(list, at + 1)
}

// Where a reader comes to behind the field at any offset.
pub(crate) fn place_after(list: &[u8], at: usize) -> usize
    ensures { result ≡ place_after list.now at }
{
    if at < list.len() {
        let next = next_place(list, at);
        if next < list.len() {
            return next;
        }
    }
    list.len()
}

// No field starts at a place at or past the end.
pub(crate) fn is_past(list: &[u8], at: usize) -> bool
    ensures { result ≡ leb (length list.now) at }
{
    list.len() <= at
}

// The second longword. 0 and not None where the field has none: the definition has it so, and a single's is not looked at. A place is below 2^63.
fn second_at(list: &[u8], at: usize) -> u32
    requires { at < 2 ^ 63 }
    ensures { result ≡ second_at list.now at }
{
    if base::short_at(list, at + 1) == 8 {
        return base::long_at(list, at + 7);
    }
    0
}

// The instruction of a field that has passed its checks.
#[tactic(auto, unfolding(crate::specs::model::Table::instruction_at, crate::specs::model::Table::instruction_by, crate::specs::Fields::first_at))]
pub fn instruction_at(list: &[u8], place: u16) -> Instruction
    ensures { result ≡ instruction_at list.now place }
{
    let at = usize::from(place);
    match tag_at(list, at) {
        Tag::CamacTag => {
            let first = base::long_at(list, at + 3);
            if camac::mode_in(first) == 0 {
                return Instruction::Camac(camac::single_in(first));
            }
            let second = second_at(list, at);
            Instruction::Camac(camac::command_in(first, second))
        }
        Tag::JumpTag => Instruction::Jump(base::short_at(list, at + 3) as u16),
        Tag::LiteralTag => Instruction::Literal(base::long_at(list, at + 3)),
        Tag::HaltTag | Tag::UnknownTag => Instruction::Halt,
    }
}

// A CAMAC field's body, which lies in the list and has one longword or two.
#[tactic(auto, unfolding(crate::specs::Fields::body_of, crate::specs::Fields::first_at))]
fn camac_at(list: &[u8], at: usize) -> Result<Instruction, Fault>
    requires { (next_field list.now at ≤ length list.now) × (4 ≤ body_length list.now at) }
    ensures { numbered result ≡ body_of Tag.CamacTag list.now at }
{
    let len = base::short_at(list, at + 1);
    let command = camac::decode(len, base::whole_at(list, at + 3), second_at(list, at))?;
    Ok(Instruction::Camac(command))
}

// A field that lies in the list, by its tag: refusals 3, 4 and 6 to 9.
#[tactic(auto, unfolding(crate::specs::Fields::body_of))]
fn body_at(list: &[u8], at: usize) -> Result<Instruction, Fault>
    requires { next_field list.now at ≤ length list.now }
    ensures { numbered result ≡ read_by (tag_at list.now at) list.now at }
{
    let len = base::pair_at(list, at + 1);
    match tag_at(list, at) {
        Tag::CamacTag if len == 4 || len == 8 => camac_at(list, at),
        Tag::JumpTag if len == 2 => Ok(Instruction::Jump(base::short_at(list, at + 3) as u16)),
        Tag::LiteralTag if len == 4 => Ok(Instruction::Literal(base::long_at(list, at + 3))),
        Tag::HaltTag if len == 0 => Ok(Instruction::Halt),
        Tag::UnknownTag => Err(Fault::UnknownTag),
        Tag::CamacTag | Tag::JumpTag | Tag::LiteralTag | Tag::HaltTag => Err(Fault::WrongLength),
    }
}

// The field at an offset, with `count` instructions before it: its instruction, or refusal 1 or 3 to 9. Both bytes of the length are there, here and
// in body_at: to ask for each, as `short_at` does, takes 25 instructions more a field.
pub fn field_at(list: &[u8], at: usize, count: usize) -> Result<Instruction, Fault>
    ensures { numbered result ≡ field_of list.now at count }
{
    if list.len() <= at {
        return Err(Fault::PastEnd);
    }
    if list.len() < at + 3 {
        return Err(Fault::PastEnd);
    }
    let next = at + 3 + base::pair_at(list, at + 1);
    if list.len() < next {
        return Err(Fault::PastEnd);
    }
    if MOST_INSTRUCTIONS <= count {
        return Err(Fault::TooManyInstructions);
    }
    body_at(list, at)
}
