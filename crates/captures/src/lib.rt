//! Frames in other forms: captures in the pcap and pcapng formats, read packet by packet and as the
//! frame stream that they become; captures that are written of the frames of a stream; and streams
//! that are written again, as records of either version or as text.
//!
//! `specs/Captured.antt` defines which packets the bytes of a capture have and how they end, by the
//! records of `specs/Pcap.antt` and `specs/Pcapng.antt`, and `specs/FrameBytes.antt` the frame
//! stream. `specs/CaptureBytes.antt` defines the bytes of a capture of packet frames,
//! `specs/Texts.antt` the text of a frame, and `specs/Copies.antt` what is written of the frames
//! that a source has. Memory is taken once, for the longest record that is read.
#![tactic(auto)]

mod blocks;
mod choices;
mod collecting;
mod copying;
mod counts;
mod following;
mod forms;
mod frame_forms;
mod gathering;
mod interfaces;
mod kinds;
mod lending;
mod links;
mod losing;
mod options;
mod packet_bytes;
mod packets;
mod pieces;
mod placing;
mod reader;
mod reasons;
mod records;
mod rows;
mod spelling;
mod streams;
mod taking;
mod texts;
mod writer;

pub use choices::FramesOf;
pub use copying::copy_frames;
pub use counts::CaptureCounts;
pub use following::{Followed, Unfollowed};
pub use forms::{
    CaptureFormat, CaptureRefusal, LinkType, MAX_BLOCK, MAX_CAPTURED, NumberOrder, PcapForm,
    PcapngForm, Reasons, TimeUnit, capture_format,
};
pub use frame_forms::{CopyCounts, FrameForm, StreamEnd};
pub use kinds::{CaptureForm, CaptureKind, LostCounts};
pub use lending::Lent;
pub use losing::{Loss, Lost, Unsaid, unsaid_text};
pub use packets::{CaptureDamage, CapturedHead, PacketEnd, PacketFault};
pub use pieces::put;
pub use placing::Placing;
pub use reader::{CaptureReader, Captured, OpenFailure};
pub use streams::CaptureStream;
pub use writer::CaptureWriter;
