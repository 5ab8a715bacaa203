//! A source that is lent, so that it is still there after what reads it.

use frames::Source;
use std::io;

/// A source that is lent: reads go to it, and afterwards its owner has it again.
#[derive(Drop)]
pub struct Lent<'a, S> {
    pub source: &'a mut S,
}

impl<'a, S: Source> Source for Lent<'a, S> {
    ghost remaining = { λ lent. S.remaining lent.source.now };

    ghost may_fail = { S.may_fail };

    #[inline(always)]
    fn read_some(&mut self, buffer: &mut [u8]) -> io::Result<usize> {
        self.source.read_some(buffer)
    }

    #[inline(always)]
    fn held(&self) -> Option<&[u8]> {
        self.source.held()
    }
}
