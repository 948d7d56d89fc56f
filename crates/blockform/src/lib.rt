// Blocks and block files as bytes: the check of their form, and readers that hand out their parts.
#![tactic(auto)]

pub mod fault;
pub mod file;
pub mod reader;

pub use blockbytes::block_encoding;

// The greatest size of a block, and of a block file.
pub use blockbytes::MAX_BLOCK;
