//! The progress of a survey, as a terminal shows it.

use exact_io::write_bytes;
use std::alloc::{AllocError, Global};
use std::io::Write;

/// Erases the progress line, when written before other lines.
const CLEARED: &str = "\r\x1b[K";

/// The progress of a survey.
#[derive(Clone, Copy, Drop)]
pub struct SurveyProgress {
    /// Says whether it is shown.
    is_shown: bool,
    /// Says how many images there are.
    total: usize,
    /// Says how many of them are judged.
    done: usize,
    /// The hundredths that were shown last.
    shown: usize,
}

impl SurveyProgress {
    /// Of this number of images, none is judged yet.
    pub fn of(total: usize, is_shown: bool) -> Self {
        SurveyProgress {
            is_shown,
            total,
            done: 0,
            shown: 100,
        }
    }

    fn line(&self, alloc: Global) -> Result<String, AllocError> {
        let (done, total) = (self.done, self.total);
        format!(in alloc; "{CLEARED}{done} of {total}")
    }

    /// Shows the progress, unless the same number of hundredths was shown last.
    pub fn show<W: Write>(&mut self, alloc: Global, err: &mut W) -> Result<(), AllocError> {
        if !self.is_shown || self.total == 0 {
            return Ok(());
        }
        let hundredths = self.done.saturating_mul(100) / self.total;
        if hundredths != self.shown {
            let line = self.line(alloc)?;
            let _ = write_bytes(err, line.as_bytes());
            self.shown = hundredths;
        }
        Ok(())
    }

    /// Clears what was shown.
    pub fn clear<W: Write>(&self, err: &mut W) {
        if self.is_shown {
            let _ = write_bytes(err, CLEARED.as_bytes());
        }
    }

    /// An image is judged.
    pub fn advance(&mut self) {
        self.done = self.done.saturating_add(1);
    }
}
