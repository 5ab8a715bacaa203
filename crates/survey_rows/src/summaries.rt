//! How many images got which verdict, and the status that says so.

ghost use Rattle.std.specs.Prelude.{◌≡◌, ◌≤◌};
ghost use Rattle.survey_rows.specs.Summaries.{status_of, with_image};

use crate::rows::Judgement;

/// Says how many images got which verdict. A folder that has a row counts as one.
#[derive(Clone, Copy, Default, Drop)]
pub struct Summary {
    pub accepted: u64,
    pub refused: u64,
    pub unreadable: u64,
    pub unjudged: u64,
}

impl Summary {
    /// The status: 5 if memory ran out, else 4 if a file or a folder was not read in full, else 2
    /// if an image is refused, else 0.
    pub fn status(&self) -> u8
        ensures says { result ≡ status_of self.now }
        ensures most { result ≤ 5 }
    {
        if self.unjudged != 0 {
            5
        } else if self.unreadable != 0 {
            4
        } else if self.refused != 0 {
            2
        } else {
            0
        }
    }

    /// Counts an image.
    pub fn count(&mut self, verdict: Judgement)
        ensures { self.new ≡ with_image self.old verdict }
    {
        match verdict {
            Judgement::Accepted => self.accepted = self.accepted.saturating_add(1),
            Judgement::Refused(_) => self.refused = self.refused.saturating_add(1),
            Judgement::Unreadable => self.unreadable = self.unreadable.saturating_add(1),
            Judgement::NoMemory => self.unjudged = self.unjudged.saturating_add(1),
        }
    }
}
