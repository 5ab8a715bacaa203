//! Where the lines of a report go: to a writer, or nowhere.
ghost use Rattle.std.specs.Prelude.{◌≡◌, ℕ, List, Option, None, OnOk, OnErr};
ghost use Rattle.std.specs.Io.KnownBytes.{Appends, Keeps};
ghost use Rattle.exact_io.specs.Transfers.{AppendsBeginning};
ghost use Rattle.isa_model.specs.Reporting.Reports.{frame_line, skip_line, last_line};
ghost use Rattle.maps.specs.Maps.{rows_of, contents_of};
ghost use Rattle.map_texts.specs.Listings.{text_of};
ghost use Rattle.host.specs.Forms.{report_form_by};

use super::forms::ReportForm;
use super::lines::{line_of_finish, line_of_skip, make_line_of_frame};
use super::numbers::ReportLine;
use frames::{Unwritten, write_whole};
use isa_model::{End, Finish};
use map_texts::write_maps;
use maps::Maps;
use std::io::Write;

/// Takes the lines of a report: any writer does, or nothing.
///
/// Where a line is written, nothing is tried again after a failure.
pub trait Report {
    /// The bytes that were written, where contracts know them.
    ghost written: { Self → Option (List ℕ) };

    /// Puts the line of a frame that was run, by its number and length.
    fn put_frame(
        &mut self,
        form: ReportForm,
        number: u32,
        end: End,
        length: usize,
    ) -> Result<(), Unwritten>
        ensures ok { OnOk result (Appends (written self.old) (written self.new)
            (frame_line (report_form_by form) number end length)) }
        ensures err { OnErr result (AppendsBeginning (written self.old) (written self.new)
            (frame_line (report_form_by form) number end length)) };

    /// Puts the line of a frame that was not run, by its number, length and reason.
    fn put_skip(&mut self, number: u32, length: usize, reason: u32) -> Result<(), Unwritten>
        ensures ok { OnOk result (Appends (written self.old) (written self.new)
            (skip_line number length reason)) }
        ensures err { OnErr result (AppendsBeginning (written self.old) (written self.new)
            (skip_line number length reason)) };

    /// Puts the lines of what maps hold, which stay as they are.
    fn put_maps(&mut self, maps: &mut Maps) -> Result<(), Unwritten>
        ensures ok { OnOk result (Appends (written self.old) (written self.new)
            (text_of (rows_of maps.old) (contents_of maps.old))) }
        ensures err { OnErr result (AppendsBeginning (written self.old) (written self.new)
            (text_of (rows_of maps.old) (contents_of maps.old))) }
        ensures stay { maps.new ≡ maps.old };

    /// Puts the last line.
    fn put_finish(&mut self, frames: u32, finish: Finish) -> Result<(), Unwritten>
        ensures ok { OnOk result (Appends (written self.old) (written self.new)
            (last_line frames finish)) }
        ensures err { OnErr result (AppendsBeginning (written self.old) (written self.new)
            (last_line frames finish)) };

    /// Hands on what was put so far. What fails here fails again at the next line.
    fn hand_on(&mut self)
        ensures { Keeps (written self.old) (written self.new) };
}

impl<W: Write> Report for W {
    ghost written = { λ writer. W.contents writer };

    #[inline(always)]
    fn put_frame(
        &mut self,
        form: ReportForm,
        number: u32,
        end: End,
        length: usize,
    ) -> Result<(), Unwritten> {
        let mut line = ReportLine::new();
        make_line_of_frame(&mut line, form, number, end, length);
        write_whole(self, line.as_slice())
    }

    #[inline(always)]
    fn put_skip(&mut self, number: u32, length: usize, reason: u32) -> Result<(), Unwritten> {
        let line = line_of_skip(number, length, reason);
        write_whole(self, line.as_slice())
    }

    fn put_maps(&mut self, maps: &mut Maps) -> Result<(), Unwritten> {
        match write_maps(maps, self) {
            Ok(()) => Ok(()),
            Err(_) => Err(Unwritten),
        }
    }

    fn put_finish(&mut self, frames: u32, finish: Finish) -> Result<(), Unwritten> {
        let line = line_of_finish(frames, finish);
        write_whole(self, line.as_slice())
    }

    #[inline(always)]
    fn hand_on(&mut self) {
        let _ = self.flush();
    }
}

/// A report of which no line is made.
#[derive(Clone, Copy)]
pub struct NoReport;

impl Report for NoReport {
    ghost written = { λ report. None };

    #[inline(always)]
    fn put_frame(
        &mut self,
        _form: ReportForm,
        _number: u32,
        _end: End,
        _length: usize,
    ) -> Result<(), Unwritten> {
        Ok(())
    }

    #[inline(always)]
    fn put_skip(&mut self, _number: u32, _length: usize, _reason: u32) -> Result<(), Unwritten> {
        Ok(())
    }

    fn put_maps(&mut self, _maps: &mut Maps) -> Result<(), Unwritten> {
        Ok(())
    }

    fn put_finish(&mut self, _frames: u32, _finish: Finish) -> Result<(), Unwritten> {
        Ok(())
    }

    #[inline(always)]
    fn hand_on(&mut self) {}
}
