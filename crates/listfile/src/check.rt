// All fields front to back: refusals 1 to 10.
ghost use Rattle.std.specs.Prelude.{◌≡◌, ◌≤◌, length};
ghost use Rattle.listfile.specs.Fields.{is_first, first_fault, fields_from, bad_target, first_bad_jump, program_of};
ghost use Rattle.listfile.specs.model.Table.{first_fields, TableRight, TargetBelow, Beyond, fields_by, TableBy, bad_jump_by, listed_by, TableChecked};
ghost use Rattle.base.specs.Refusals.{number_or_0};

use crate::field::{Instruction, instruction_at, next_place};
use crate::reader::read_at;
use base::{Fault, Refused};

// The number of instructions, and a number above the target of each jump.
#[derive(Clone, Copy, Debug, PartialEq, Eq)]
pub struct Extent {
    pub count: usize,
    pub furthest: usize,
}

// The number of instructions, and R.
#[derive(Clone, Copy, Debug, PartialEq, Eq)]
pub struct Sizes {
    pub count: usize,
    pub limit: usize,
}

// A number above a jump's target too.
fn beyond(furthest: usize, i: Instruction) -> usize
    ensures { (furthest ≤ result) × TargetBelow result i }
{
    match i {
        Instruction::Jump(target) => furthest.max(usize::from(target) + 1),
        Instruction::Camac(_) | Instruction::Literal(_) | Instruction::Halt => furthest,
    }
}

// Front to back over the fields behind the first; the table gets the place of each.
fn pass_fields(list: &[u8], table: &mut [u16; 4096]) -> Result<Extent, Refused>
    requires { 7 ≤ length list.now }
    ensures { (fields_from (length list.now) list.now 7 0 ≡ fields_by list.now result)
        × TableBy list.now table.new result }
{
    let mut at: usize = 7;
    let mut count: usize = 0;
    let mut furthest: usize = 0;
    // A field's length says where the next begins, so that no range gives the places.
    while at < list.len() {
        let i = match read_at(list, at, count) {
            Ok(i) => i,
            Err(fault) => return Err(Refused { fault, place: at }),
        };
        let next = next_place(list, at);
        // 4,096 fields of at most 11 bytes: no bits are lost.
        table[count] = at as u16;
        furthest = beyond(furthest, i);
        at = next;
        count += 1;
    }
    Ok(Extent { count, furthest })
}

fn is_bad_target(count: usize, i: Instruction) -> bool
    ensures { result ≡ bad_target count i }
{
    match i {
        Instruction::Jump(target) => count <= usize::from(target),
        Instruction::Camac(_) | Instruction::Literal(_) | Instruction::Halt => false,
    }
}

// The first jump whose target is no instruction, field by field.
fn check_jumps(list: &[u8], table: &[u16], count: usize) -> Option<usize>
    requires { (count ≤ length table.now) × TableRight list.now table.now count }
    ensures { first_bad_jump count (first_fields list.now count) ≡ bad_jump_by result }
{
    // By number: a loop over the table's first part was tried, and its proof did not close.
    for k in 0..count {
        let place = table[k];
        if is_bad_target(count, instruction_at(list, place)) {
            return Some(usize::from(place));
        }
    }
    None
}

// Refusal 10 over all fields, which are looked at again only where a jump leads past the last instruction.
fn bad_jump(list: &[u8], table: &[u16], extent: Extent) -> Option<usize>
    requires { (extent.count ≤ length table.now)
        × (TableRight list.now table.now extent.count × Beyond list.now extent.count extent.furthest) }
    ensures { first_bad_jump extent.count (first_fields list.now extent.count) ≡ bad_jump_by result }
{
    if extent.furthest <= extent.count {
        return None;
    }
    check_jumps(list, table, extent.count)
}

// The first field's tag, format and zero byte are as in the table. It is seven bytes.
fn is_first(list: &[u8]) -> bool
    requires { 7 ≤ length list.now }
    ensures { result ≡ is_first list.now }
{
    (list[0] == 1) & (list[3] == 1) & (list[4] == 0)
}

// Refusals 1 and 2 of the first field.
fn check_first(list: &[u8]) -> Result<(), Fault>
    ensures { number_or_0 result ≡ first_fault list.now }
{
    if list.is_empty() {
        return Err(Fault::FirstField);
    }
    if list.len() < 3 {
        return Err(Fault::PastEnd);
    }
    let len = base::short_at(list, 1);
    if list.len() < 3 + len {
        return Err(Fault::PastEnd);
    }
    if len != 4 {
        return Err(Fault::FirstField);
    }
    if base::short_at(list, 5) < 1 {
        return Err(Fault::FirstField);
    }
    if is_first(list) {
        return Ok(());
    }
    Err(Fault::FirstField)
}

// Refusals 1 to 10, or the number of instructions and R, with the place of each instruction in the table. List, table and sizes stay parameters side
// by side: a struct with what the table holds as a ghost field was tried, and FieldPassed, which has a number in it, is no proposition.
pub fn check_list(list: &[u8], table: &mut [u16; 4096]) -> Result<Sizes, Refused>
    ensures { (program_of list.now ≡ listed_by list.now result)
        × TableChecked list.now table.new result }
{
    check_first(list)?;
    let extent = pass_fields(list, table)?;
    if let Some(place) = bad_jump(list, table, extent) {
        return Err(Refused {
            fault: Fault::NoSuchTarget,
            place,
        });
    }
    Ok(Sizes {
        count: extent.count,
        limit: base::short_at(list, 5),
    })
}
