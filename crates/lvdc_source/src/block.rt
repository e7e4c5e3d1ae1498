ghost use Rattle.std.specs.Prelude.{◌≡◌};
ghost use Rattle.lvdc_source.specs.Items.{block_after};

use crate::Body;

/// The kind of block that a line stands in.
#[derive(Clone, Copy, PartialEq, Eq)]
pub enum Block {
    /// No block is open yet.
    Nowhere,
    /// A block of code, which `CODE` or `ORG` opens.
    Code,
    /// A block of words, which `WORDS` opens.
    Words,
}

impl Block {
    /// The kind of block that the line after an item stands in.
    pub fn after(self, body: &Body) -> Block
        ensures { result ≡ block_after self body.now }
    {
        match body {
            Body::Code | Body::Org { .. } => Block::Code,
            Body::Words { .. } => Block::Words,
            _ => self,
        }
    }
}
