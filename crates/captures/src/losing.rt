//! The lines that say where a capture is damaged, and what is not kept of the frames that are read
//! or written.

ghost use Rattle.std.specs.Prelude.{◌≡◌, IfOk};
ghost use Rattle.std.specs.String.{string_bytes};
ghost use Rattle.captures.specs.Losing.{captured_text, count_line, damage_text, damage_words, interface_words, left_text, lost_line, lost_of, lost_text, unsaid_text};

use super::choices::FramesOf;
use super::counts::CaptureCounts;
use super::frame_forms::CopyCounts;
use super::kinds::{CaptureKind, LostCounts};
use super::packets::{CaptureDamage, PacketFault};
use std::alloc::{AllocError, Global};

// A line with these words and a count, unless it is 0.
fn lost_line(alloc: Global, words: &str, count: u64) -> Result<String, AllocError>
    ensures { IfOk result (λ line. string_bytes line ≡ lost_line words.now count) }
{
    if count == 0 {
        return Ok(String::new(alloc));
    }
    format!(in alloc; "frames without {words}: {count}\n")
}

// Why an interface is lost.
fn interface_words(kind: CaptureKind) -> &'static str
    ensures { result.now ≡ interface_words kind }
{
    match kind {
        CaptureKind::Pcap => "their interface, which a pcap has not, and a pcapng has",
        CaptureKind::Pcapng => "their interface, since it is 4,096 or more",
    }
}

// The lines of what a capture does not say.
fn lost_text(alloc: Global, kind: CaptureKind, lost: LostCounts) -> Result<String, AllocError>
    ensures { IfOk result (λ text. string_bytes text ≡ lost_text kind lost) }
{
    let interfaces = lost_line(alloc, interface_words(kind), lost.interfaces)?;
    let queues = lost_line(alloc, "their queue, which a capture has not", lost.queues)?;
    let reasons = "their reason, which a pcap has not, and a pcapng has";
    let reasons = lost_line(alloc, reasons, lost.reasons)?;
    let times = lost_line(alloc, "their time, which a pcap has up to 2106", lost.times)?;
    format!(in alloc; "{interfaces}{queues}{reasons}{times}")
}

/// What a capture that was written does not say.
#[derive(Clone, Copy)]
pub struct Loss {
    pub kind: CaptureKind,
    pub counts: LostCounts,
}

// A line with a count, unless it is 0.
fn count_line(alloc: Global, words: &str, count: u64) -> Result<String, AllocError>
    ensures { IfOk result (λ line. string_bytes line ≡ count_line words.now count) }
{
    if count == 0 {
        return Ok(String::new(alloc));
    }
    format!(in alloc; "{words}: {count}\n")
}

// The lines of what the stream that a capture becomes does not say.
fn captured_text(alloc: Global, counts: CaptureCounts) -> Result<String, AllocError>
    ensures { IfOk result (λ text. string_bytes text ≡ captured_text counts) }
{
    let cut = count_line(
        alloc,
        "frames that were cut when they were captured",
        counts.cut,
    )?;
    let words = "frames of over 9,216 bytes, which no stream takes";
    let long = count_line(alloc, words, counts.long)?;
    format!(in alloc; "{cut}{long}")
}

// The lines of what a stream does not say.
fn left_text(alloc: Global, counts: CopyCounts) -> Result<String, AllocError>
    ensures { IfOk result (λ text. string_bytes text ≡ left_text counts) }
{
    let words =
        "frames left out, since XPF1 takes up to 4,096 bytes, and XPF2 (--reasons) up to 9,216";
    let left_out = count_line(alloc, words, counts.left_out as u64)?;
    let reasons = "their reason, which XPF1 has not, and XPF2 (--reasons) has";
    let reasons = lost_line(alloc, reasons, counts.unreasoned as u64)?;
    format!(in alloc; "{left_out}{reasons}")
}

/// What the output does not say of the frames.
#[derive(Clone, Copy)]
pub enum Lost {
    Nothing,
    Capture(Loss),
    Stream(CopyCounts),
}

// The lines of what the output does not say.
fn lost_of(alloc: Global, lost: Lost) -> Result<String, AllocError>
    ensures { IfOk result (λ text. string_bytes text ≡ lost_of lost) }
{
    match lost {
        Lost::Nothing => Ok(String::new(alloc)),
        Lost::Capture(Loss { kind, counts }) => lost_text(alloc, kind, counts),
        Lost::Stream(counts) => left_text(alloc, counts),
    }
}

// What is wrong with a record of a capture.
fn damage_words(fault: PacketFault) -> &'static str
    ensures { result.now ≡ damage_words fault }
{
    match fault {
        PacketFault::TruncatedRecord => "a record that ends within its head",
        PacketFault::TooLong => "a packet or a block that is too long",
        PacketFault::TruncatedPacket => "a record of which the end is missing",
        PacketFault::BadBlock => "a block whose lengths or whose byte-order magic are wrong",
        PacketFault::UnknownInterface => "a packet of an interface that is not described",
        PacketFault::UnknownInterfaceLink => "a packet of an interface with another link type",
        PacketFault::TooManyInterfaces => "a section with more than 4,096 interfaces",
    }
}

// The line of where a capture is damaged, if it is.
fn damage_text(alloc: Global, damage: Option<CaptureDamage>) -> Result<String, AllocError>
    ensures { IfOk result (λ text. string_bytes text ≡ damage_text damage) }
{
    match damage {
        None => Ok(String::new(alloc)),
        Some(CaptureDamage { fault, offset }) => {
            let words = damage_words(fault);
            format!(in alloc; "at byte {offset}: {words}\n")
        }
    }
}

/// Where a capture is damaged, and what is not kept of the frames.
#[derive(Clone, Copy)]
pub struct Unsaid {
    pub damage: Option<CaptureDamage>,
    pub captured: CaptureCounts,
    pub lost: Lost,
}

impl Unsaid {
    ghost use Rattle.captures.specs.Choices.{frames_counts, frames_damage};

    /// All is kept, as far as is known.
    pub fn nothing() -> Unsaid {
        Unsaid {
            damage: None,
            captured: CaptureCounts::none(),
            lost: Lost::Nothing,
        }
    }

    /// What is not kept of frames that came from this source, and where its capture is damaged.
    pub fn of<R>(frames: &FramesOf<R>, lost: Lost) -> Unsaid
        ensures { result ≡ record {
          damage = frames_damage frames.now;
          captured = frames_counts frames.now;
          lost = lost;
        } }
    {
        Unsaid {
            damage: frames.damage(),
            captured: frames.counts(),
            lost,
        }
    }
}

/// The lines of where a capture is damaged, and of what is not kept.
pub fn unsaid_text(alloc: Global, unsaid: Unsaid) -> Result<String, AllocError>
    ensures { IfOk result (λ text. string_bytes text ≡ unsaid_text unsaid) }
{
    let damage = damage_text(alloc, unsaid.damage)?;
    let captured = captured_text(alloc, unsaid.captured)?;
    let lost = lost_of(alloc, unsaid.lost)?;
    format!(in alloc; "{damage}{captured}{lost}")
}
