//! Reads and writes streams of packet frames: the magic `XPF1` or `XPF2`, and then records of a
//! head and a body. In `XPF2` a reason is between them, and a body may be longer. No call takes
//! memory.
//!
//! `isa_model`'s `specs/Reporting/Streams.antt` defines which frames a stream has and how it ends,
//! and `specs/Inputs.antt` here says that a reader returns exactly these.
#![tactic(auto)]

mod buffers;
mod filling;
mod heads;
mod reader;
mod sources;
mod writer;

pub use buffers::{Ahead, Buffered, FRONT};
pub use filling::fill;
pub use reader::{FrameReader, Next};
pub use sources::{InMemory, Source};
pub use writer::{Unwritten, write_frame, write_frame2, write_record, write_whole};
