// A block as a value, the bytes that write it, and the check of bytes: where the block ends, or the first fault.
#![tactic(auto)]

ghost use Rattle.blockbytes.specs.Laws.{ReadIsEncoded, EncodedIsRead, OneBlock};

pub mod fault;
pub mod form;

// The greatest size of a block, and of a block file.
pub const MAX_BLOCK: usize = 65_536;

// The laws of a block's bytes: reading and writing are each other's inverse, and bytes are one block at most.
pub fn block_encoding()
    ensures read { ReadIsEncoded }
    ensures written { EncodedIsRead }
    ensures one { OneBlock }
{}
