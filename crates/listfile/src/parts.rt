// Parts of a field that has passed its checks, read in place: what a walk or a run asks of it without decoding it whole. That a field passed
// stands in contracts: a struct for it would be made anew wherever one is read in place.
ghost use Rattle.std.specs.Prelude.{◌≡◌, ◌+◌};
ghost use Rattle.base.specs.Bytes.{short_at};
ghost use Rattle.camac.specs.Words.{command_in, words_of};
ghost use Rattle.camac.specs.model.Bits.{Passes};
ghost use Rattle.listfile.specs.Fields.{tag_at, first_at, second_at};
ghost use Rattle.listfile.specs.model.Table.{FieldPassed};
ghost use Rattle.listfile.specs.declared.field.Tag.TheVariants.{CamacTag, JumpTag};

use crate::field::Tag;

pub fn tag_in(list: &[u8], at: usize) -> Tag
    requires { FieldPassed list.now at }
    ensures { result ≡ tag_at list.now at }
{
    Tag::from(list[at])
}

// The first longword of a CAMAC field.
pub fn first_at(list: &[u8], at: usize) -> u32
    requires { FieldPassed list.now at × (tag_at list.now at ≡ CamacTag) }
    ensures { (result ≡ first_at list.now at) × Passes result }
{
    base::whole_at(list, at + 3)
}

// n of the CAMAC field with a first longword. The second one is read only of a block, and only a block needs it.
pub fn words_at(list: &[u8], at: usize, first: u32) -> u64
    requires { FieldPassed list.now at × ((tag_at list.now at ≡ CamacTag) × (first ≡ first_at list.now at)) }
    ensures { result ≡ words_of (command_in first (second_at list.now at)).transfer }
{
    if camac::is_block(first) {
        return camac::words_in(first, base::whole_at(list, at + 7));
    }
    1
}

// A jump's target.
pub fn target_at(list: &[u8], at: usize) -> u16
    requires { FieldPassed list.now at × (tag_at list.now at ≡ JumpTag) }
    ensures { result ≡ short_at list.now (at + 3) }
{
    base::pair_at(list, at + 3) as u16
}
