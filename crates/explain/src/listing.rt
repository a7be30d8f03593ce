// A list whose fields are right, with the place of each instruction.
use listfile::Instruction;

#[derive(Clone, Copy)]
pub(crate) struct Listing<'a> {
    pub list: &'a [u8],
    pub places: &'a [u16],
    pub limit: u64,
}

impl Listing<'_> {
    // An instruction by its number.
    pub fn instruction(&self, number: usize) -> Option<Instruction> {
        let place = *self.places.get(number)?;
        Some(listfile::instruction_at(self.list, place))
    }
}
