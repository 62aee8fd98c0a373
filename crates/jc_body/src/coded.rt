//! A method's code as it was read.
ghost use Rattle.std.specs.Prelude.{◌≡◌};

use crate::items::CodeItems;
use jc_bytes::List;
use jc_methods::Insn;

/// What a Code attribute holds, its instructions, and where they begin.
#[derive(Debug, Drop)]
pub struct Coded {
    pub items: CodeItems,
    /// The instructions. A jump that leads to no instruction names the number of instructions.
    pub insns: List<Insn>,
    /// The offset of each instruction, and then the length of the code.
    pub starts: List<u32>,
}

impl Coded {
    /// How many local variables the method has.
    pub fn max_locals(&self) -> u16
        ensures { result ≡ self.now.items.max_locals }
    {
        self.items.max_locals
    }
}
