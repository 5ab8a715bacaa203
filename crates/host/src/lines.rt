//! The report's lines of packet frames and its last line.
ghost use Rattle.std.specs.Prelude.{◌≡◌, ◌+◌, ◌≤◌, [], ◌++◌, length, decimal, codes};
ghost use Rattle.arrayvec.specs.ArrayVec.{array_vec_len};
ghost use Rattle.isa_model.specs.Reporting.Reports.{action_name, frame_line, skip_line, last_line, reason_text};
ghost use Rattle.host.specs.Forms.{report_form_by};

use super::forms::ReportForm;
use super::numbers::{ReportLine, push_number, push_text};
use super::reasons::reason_of;
use isa_model::{Action, End, Finish, Version};

// Appends the field of an action, with a blank on both sides.
#[inline(always)]
fn push_action(line: &mut ReportLine, action: Action)
    requires { array_vec_len line.old + 10 ≤ 96 }
    ensures items { line.new.items
        ≡ line.old.items ++ (codes " " ++ action_name action ++ codes " ") }
    ensures len { array_vec_len line.new ≤ array_vec_len line.old + 10 }
{
    match action {
        Action::Aborted => push_text(line, " ABORTED "),
        Action::Drop => push_text(line, " DROP "),
        Action::Pass => push_text(line, " PASS "),
        Action::Tx => push_text(line, " TX "),
        Action::Redirect => push_text(line, " REDIRECT "),
        Action::Invalid => push_text(line, " INVALID "),
    }
}

// Appends the field of a reason, in a stream that has reasons.
#[inline(always)]
fn push_reason(line: &mut ReportLine, stream: Version, reason: u32)
    requires { array_vec_len line.old + 21 ≤ 96 }
    ensures items { line.new.items ≡ line.old.items ++ reason_text stream reason }
    ensures len { array_vec_len line.new ≤ array_vec_len line.old + 21 }
{
    match stream {
        Version::One => {}
        Version::Two => {
            line.push(b' ');
            push_number(line, u64::from(reason));
        }
    }
}

/// Makes the line of the frame with this number and length, by how its run ended, in a buffer.
#[tactic(auto, unfolding(isa_model::specs::Reporting::Reports::frame_line))]
#[inline(always)]
pub fn make_line_of_frame(
    line: &mut ReportLine,
    form: ReportForm,
    number: u32,
    end: End,
    length: usize,
)
    requires { line.old.items ≡ [] }
    ensures { line.new.items ≡ frame_line (report_form_by form) number end length }
{
    push_number(line, u64::from(number));
    match end {
        End::Exit(answer, steps) => {
            push_action(line, Action::of(answer));
            push_number(line, length as u64);
            line.push(b' ');
            push_number(line, u64::from(steps));
            push_reason(line, form.stream, reason_of(form.program, answer));
        }
        End::Trap(trap_reason, steps) => {
            push_text(line, " TRAP ");
            push_text(line, trap_reason.name());
            line.push(b' ');
            push_number(line, length as u64);
            line.push(b' ');
            push_number(line, u64::from(steps));
        }
        End::Limit => {
            push_text(line, " LIMIT ");
            push_number(line, length as u64);
            line.push(b' ');
            push_number(line, u64::from(form.limit));
        }
    }
    line.push(b'\n');
}

/// The line of a frame that has a reason already, and is not run.
#[tactic(auto, unfolding(isa_model::specs::Reporting::Reports::skip_line))]
pub fn line_of_skip(number: u32, length: usize, reason: u32) -> ReportLine
    ensures { result.items ≡ skip_line number length reason }
{
    let mut line = ReportLine::new();
    push_number(&mut line, u64::from(number));
    push_text(&mut line, " SKIP ");
    push_number(&mut line, length as u64);
    push_text(&mut line, " 0 ");
    push_number(&mut line, u64::from(reason));
    line.push(b'\n');
    line
}

/// The last line, by how many frames were found and how the stream ended.
#[tactic(auto, unfolding(isa_model::specs::Reporting::Reports::last_line))]
pub fn line_of_finish(frames: u32, finish: Finish) -> ReportLine
    ensures { result.items ≡ last_line frames finish }
{
    let mut line = ReportLine::new();
    match finish {
        Finish::End => {
            push_text(&mut line, "end ");
            push_number(&mut line, u64::from(frames));
        }
        Finish::Fault(fault, offset) => {
            push_text(&mut line, "fault ");
            push_text(&mut line, fault.code());
            push_text(&mut line, " at ");
            push_number(&mut line, offset);
        }
    }
    line.push(b'\n');
    line
}
