//! Texts of the maps of a session, and streams on it.

use super::buffers::holds;
use super::images::{MAPS, ONE_FRAME};
use calls::Session;
use calls::buffers::TextSize;
use calls::filling::{MapRefusal, fill_session};
use calls::listing::list_session;
use calls::opening::{close_session, open_image};
use calls::session_streams::stream_session;
use calls::streaming::Streamed;
use std::alloc::Global;
use std::process::Abort;

/// A call on a session.
enum Call {
    Open,
    Fill(&'static [u8]),
    /// With room for that many bytes.
    List(usize),
    Stream(&'static [u8]),
    Close,
}

/// The status, and three numbers, which are 9 if nothing was written: the code, the line and the
/// column of a text that fills maps; the size of a list; the sizes of the report and of the frames
/// out, and how many frames there were.
type Returned = (u32, usize, usize, usize);

fn filled(alloc: Global, session: &mut Session, text: &[u8]) -> Returned {
    let mut out = MapRefusal {
        line: 9,
        column: 9,
        code: 9,
    };
    let status = fill_session(alloc, session, text, &mut out);
    (status, out.code as usize, out.line, out.column)
}

fn listed(alloc: Global, session: &mut Session, buffer: &mut [u8]) -> Returned {
    let mut out = TextSize { size: 9 };
    let status = list_session(alloc, session, buffer, &mut out);
    (status, out.size, 9, 9)
}

fn streamed(alloc: Global, session: &mut Session, stream: &[u8], report: &mut [u8]) -> Returned {
    let mut sent = [7; 40];
    let mut out = Streamed {
        report: 9,
        sent: 9,
        offset: 9,
        frames: 9,
        fault: 9,
    };
    let status = stream_session(alloc, session, stream, report, &mut sent, &mut out);
    (status, out.report, out.sent, out.frames as usize)
}

fn called(alloc: Global, session: &mut Session, call: &Call, buffer: &mut [u8]) -> Returned {
    match call {
        Call::Open => (open_image(alloc, &MAPS, session), 9, 9, 9),
        Call::Fill(text) => filled(alloc, session, *text),
        Call::List(room) => {
            let room = (*room).min(buffer.len());
            listed(alloc, session, &mut buffer[..room])
        }
        Call::Stream(stream) => streamed(alloc, session, *stream, buffer),
        Call::Close => {
            close_session(alloc, session);
            (0, 9, 9, 9)
        }
    }
}

/// Calls, one after another on one session, with what each returns and writes.
const CALLS: &[(Call, Returned, &'static [u8])] = &[
    (Call::Fill(b""), (1, 9, 9, 9), b""),
    (Call::List(240), (1, 9, 9, 9), b""),
    (Call::Stream(ONE_FRAME), (1, 9, 9, 9), b""),
    (Call::Open, (0, 9, 9, 9), b""),
    (
        Call::List(240),
        (0, 96, 9, 9),
        b"map 1 00000000 00000000\nmap 1 01000000 00000000\n\
          map 1 02000000 00000000\nmap 1 03000000 00000000\n",
    ),
    (
        Call::Fill(b"map 0 6200 010203\n# a comment\nmap 1 02000000 0000000A"),
        (0, 0, 0, 0),
        b"",
    ),
    // the line before the one that is refused stays done
    (
        Call::Fill(b"map 0 6100 040506\nmap 0 63 070809\nmap 0 6100 000000\n"),
        (2, 3, 2, 7),
        b"",
    ),
    (Call::Fill(b"map 0 6300 070809"), (2, 5, 1, 7), b""),
    (Call::Fill(b"map 2 6300 070809"), (2, 2, 1, 5), b""),
    (Call::Fill(b"map 0 6300 0708"), (2, 4, 1, 12), b""),
    (Call::Fill(b"0 PASS 2 2\nmop"), (2, 1, 2, 1), b""),
    (
        Call::Fill(b"map 1 00000000 0000000000000000000000"),
        (2, 6, 1, 24),
        b"",
    ),
    (Call::List(24), (0, 132, 9, 9), b"map 0 6100 040506\nmap 0 "),
    (
        Call::Stream(ONE_FRAME),
        (0, 149, 26, 1),
        b"0 PASS 2 2\nmap 0 6100 040506\nmap 0 6200 010203\n\
          map 1 00000000 00000000\nmap 1 01000000 00000000\n\
          map 1 02000000 0000000a\nmap 1 03000000 00000000\nend 1\n",
    ),
    (Call::Close, (0, 9, 9, 9), b""),
    (Call::List(240), (1, 9, 9, 9), b""),
];

#[test]
fn texts_of_a_session(rt: HostRuntime) {
    let mut session = Session::closed();
    for (index, (call, wanted, written)) in CALLS.iter().enumerate() {
        let mut buffer = [7; 240];
        let found = called(rt.alloc(), &mut session, call, &mut buffer);
        assert!(rt;
            found == *wanted && holds(&buffer, *written),
            "call {index}"
        );
    }
}
