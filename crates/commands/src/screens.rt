//! What a terminal shows of work that takes over a second.

use super::watching::is_terminal;
use exact_io::write_bytes;
use std::alloc::Global;
use std::fs;
use std::rt::{Clock, Files};
use std::time::Instant;

/// Makes a line replace the one that is shown, when written before it.
const CLEARED: &str = "\r\x1b[K";

/// After how many milliseconds something is shown first.
const FIRST: u128 = 1000;

/// Says how many milliseconds are between two lines.
const NEXT: u128 = 200;

/// Standard error, if it is a terminal, for work that takes over a second. What was shown is
/// cleared at the end.
pub struct Screen<'a, R: Files + Clock> {
    rt: &'a R,
    alloc: Global,
    /// Says whether nothing is shown while standard output is a terminal too.
    is_shared: bool,
    /// The time at which the work began, unless nothing is to be shown.
    start: Option<Instant>,
    /// After how many milliseconds the next line is shown.
    due: u128,
    terminal: Option<R::File>,
}

impl<'a, R: Files + Clock> Screen<'a, R> {
    /// For work that begins now, and writes to standard output only at its end.
    pub fn new(rt: &'a R, alloc: Global) -> Self {
        Screen {
            rt,
            alloc,
            is_shared: false,
            start: Instant::now(rt).ok(),
            due: FIRST,
            terminal: None,
        }
    }

    /// For work that writes to standard output throughout: nothing is shown if standard output is a
    /// terminal too.
    pub fn shared(rt: &'a R, alloc: Global) -> Self {
        let mut screen = Screen::new(rt, alloc);
        screen.is_shared = true;
        screen
    }

    fn open(&mut self) {
        let is_hidden = self.is_shared && is_terminal(self.rt, "/dev/stdout");
        if !is_hidden && is_terminal(self.rt, "/dev/stderr") {
            self.terminal = fs::create(self.rt, "/dev/stderr").ok();
        }
    }

    /// Returns whether it is time to show something, and it can be shown.
    pub fn is_due(&mut self) -> bool {
        let Some(start) = self.start else {
            return false;
        };
        let Ok(now) = Instant::now(self.rt) else {
            return false;
        };
        let elapsed = now.duration_since(start).as_millis();
        if elapsed < self.due {
            return false;
        }
        self.due = elapsed.saturating_add(NEXT);
        if self.terminal.is_none() {
            self.open();
        }
        if self.terminal.is_none() {
            self.start = None;
        }
        self.terminal.is_some()
    }

    /// Shows how much is done, in place of what was shown before.
    pub fn show(&mut self, count: u64, what: &str) {
        let Ok(line) = format!(in self.alloc; "{CLEARED}{count} {what}") else {
            return;
        };
        if let Some(terminal) = &mut self.terminal {
            let _ = write_bytes(terminal, line.as_bytes());
        }
    }
}

impl<R: Files + Clock> Drop for Screen<'_, R> {
    fn drop(self) {
        let Screen {
            rt: _,
            alloc: _,
            is_shared: _,
            start: _,
            due: _,
            terminal,
        } = self;
        if let Some(mut terminal) = terminal {
            let _ = write_bytes(&mut terminal, CLEARED.as_bytes());
        }
    }
}
