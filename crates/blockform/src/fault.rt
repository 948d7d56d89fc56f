// The faults of a block's form, of a block file and of a buffer.
ghost use Rattle.std.specs.Prelude.{◌≡◌};
ghost use Rattle.blockform.specs.Faults.{short_refusal};

pub use blockbytes::fault::FormFault;
pub use blockfile::fault::{FileFault, PeekFault};
use compact::ShortBuffer;
use refusal::Refusal;

// A buffer too short for a compact size, as a refusal: for users of this library, who need not name the crate of compact sizes.
pub fn short_buffer() -> Refusal
    ensures { result ≡ short_refusal }
{
    ShortBuffer.into()
}
