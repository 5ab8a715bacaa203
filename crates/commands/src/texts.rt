//! Program texts while they are read: what is kept of one, and where its refusals are.

ghost use Rattle.std.specs.Prelude.{◌≡◌, List, [], ℕ, IfSome, OnOk};
ghost use Rattle.assembler.specs.Gaps.{all_placed};
ghost use Rattle.commands.specs.Texts.{spelled_with};

use assembler::{AsmError, Gap, idle_part};
use std::alloc::{AllocError, Global};

/// The bytes of a text but for some that change nothing, and where these were dropped, the first
/// ones first.
#[derive(Drop)]
pub struct KeptText {
    pub bytes: Vec<u8>,
    pub gaps: Vec<Gap>,
}

impl KeptText {
    /// A text without bytes.
    pub fn new(alloc: Global) -> Self
        ensures bytes { result.bytes.items ≡ [] }
        ensures gaps { result.gaps.items ≡ [] }
    {
        KeptText {
            bytes: Vec::new(alloc),
            gaps: Vec::new(alloc),
        }
    }

    /// Where an error in the bytes is in the whole text, unless there is no number for its line or
    /// its column.
    pub fn placed(&self, error: AsmError) -> Option<AsmError>
        ensures { IfSome result (λ e. e ≡ all_placed self.now.gaps.items error) }
    {
        let mut placed = error;
        let mut at = self.gaps.len();
        while at > 0 {
            at -= 1;
            placed = self.gaps[at].placed(placed)?;
        }
        Some(placed)
    }

    /// Drops bytes that change nothing, if many are found.
    pub fn shorten(&mut self, alloc: Global) -> Result<(), AllocError>
        ensures { OnOk result ((more : List ℕ)
            → spelled_with self.old more ≡ spelled_with self.new more) }
    {
        let Some(part) = idle_part(alloc, self.bytes.as_slice())? else {
            return Ok(());
        };
        let text = self.bytes.as_slice();
        let gap = Gap::of(part.from, part.to, text);
        let mut kept = Vec::new(alloc);
        kept.extend_from_slice(&text[..part.from])?;
        kept.extend_from_slice(&text[part.to..])?;
        self.gaps.push(gap)?;
        self.bytes = kept;
        Ok(())
    }
}
