//! Sessions: opened, run, looked into and closed.

use super::images::{ENDLESS, HEAD, INTERFACE, MAPS, OTHER, PASS, UNGUARDED};
use calls::Session;
use calls::map_calls::{Changed, delete_key, key_at_rank, look_up_key, update_key};
use calls::opening::{close_session, open_image, open_with_table};
use calls::running::Ended;
use calls::session_runs::run_session;
use std::alloc::Global;
use std::process::Abort;

/// A call on a session.
enum Call {
    Open(&'static [u8]),
    OpenWithTable(&'static [u8], &'static [u8]),
    /// On a packet of that many bytes.
    Run(usize),
    Close,
    /// In a map, with a key, and room for a value of that many bytes.
    Lookup(usize, &'static [u8], usize),
    /// With flags.
    Update(usize, &'static [u8], &'static [u8], u64),
    Delete(usize, &'static [u8]),
    /// The key at a rank in a map, and room for a key and a value of that many bytes.
    Next(usize, usize, usize, usize),
}

/// The status, a number, and the steps of a run, or 0 for another call. The number is r0 of a run,
/// or the answer of an update or a delete; or a map value, or a key with its value above it, the
/// lowest byte first. It is 9 if nothing was written, and so are the steps of a run.
type Returned = (u32, u64, u32);

fn ran(alloc: Global, session: &mut Session, length: usize) -> Returned {
    let mut packet = [0; 9217];
    let mut out = Ended { r0: 9, steps: 9 };
    let body = &mut packet[..length.min(9217)];
    let status = run_session(alloc, session, &HEAD, body, &mut out);
    (status, out.r0, out.steps)
}

fn number(bytes: &[u8; 4]) -> u64 {
    u64::from(bytes[0])
        | u64::from(bytes[1]) << 8
        | u64::from(bytes[2]) << 16
        | u64::from(bytes[3]) << 24
}

fn looked_up(
    alloc: Global,
    session: &mut Session,
    map: usize,
    key: &[u8],
    size: usize,
) -> Returned {
    let mut value = [9, 0, 0, 0];
    let status = look_up_key(alloc, session, map, key, &mut value[..size.min(4)]);
    (status, number(&value), 0)
}

fn changed(status: u32, out: Changed) -> Returned {
    (status, out.answer, 0)
}

/// The key at a rank with its value, with room for a key and a value of these sizes.
fn listed(
    alloc: Global,
    session: &mut Session,
    map: usize,
    rank: usize,
    sizes: (usize, usize),
) -> Returned {
    let mut key = [9, 0, 0, 0];
    let mut value = [0; 4];
    let (key_bytes, value_bytes) = (&mut key[..sizes.0.min(4)], &mut value[..sizes.1.min(4)]);
    let status = key_at_rank(alloc, session, map, rank, key_bytes, value_bytes);
    (status, number(&value) << 32 | number(&key), 0)
}

fn called(alloc: Global, session: &mut Session, call: &Call) -> Returned {
    let mut out = Changed { answer: 9 };
    match call {
        Call::Open(image) => (open_image(alloc, image, session), 9, 0),
        Call::OpenWithTable(image, table) => {
            (open_with_table(alloc, image, table, session), 9, 0)
        }
        Call::Run(length) => ran(alloc, session, *length),
        Call::Close => {
            close_session(alloc, session);
            (0, 9, 0)
        }
        Call::Lookup(map, key, size) => looked_up(alloc, session, *map, key, *size),
        Call::Update(map, key, value, flags) => {
            let status = update_key(alloc, session, *map, key, value, *flags, &mut out);
            changed(status, out)
        }
        Call::Delete(map, key) => {
            let status = delete_key(alloc, session, *map, key, &mut out);
            changed(status, out)
        }
        Call::Next(map, rank, key_size, value_size) => {
            listed(alloc, session, *map, *rank, (*key_size, *value_size))
        }
    }
}

/// Calls, one after another on one session, and what each returns. bpf(2): EEXIST is 17, E2BIG 7,
/// ENOENT 2, EINVAL 22.
const CALLS: &[(Call, Returned)] = &[
    (Call::Run(64), (1, 9, 9)),
    (Call::Open(&INTERFACE), (0, 9, 0)),
    (Call::Open(&PASS), (1, 9, 0)),
    (Call::Run(64), (0, 7, 2)),
    (Call::Run(9217), (1, 9, 9)),
    (Call::Run(9216), (0, 7, 2)),
    (Call::Close, (0, 9, 0)),
    (Call::Run(64), (1, 9, 9)),
    (Call::Close, (0, 9, 0)),
    // what opens no session, and calls while none is open
    (Call::Open(&UNGUARDED), (2, 9, 0)),
    (Call::Open(&ENDLESS), (2, 9, 0)),
    (Call::Open(&OTHER), (2, 9, 0)),
    (Call::Open(&[]), (2, 9, 0)),
    (Call::OpenWithTable(&UNGUARDED, b"XPT1"), (2, 9, 0)),
    (Call::OpenWithTable(&ENDLESS, b"XPT1"), (2, 9, 0)),
    (Call::OpenWithTable(&OTHER, b"XPT1"), (2, 9, 0)),
    (Call::OpenWithTable(&[], b"XPT1"), (2, 9, 0)),
    (Call::OpenWithTable(&PASS, b"XPT1\0\0\0\0"), (2, 9, 0)),
    (Call::Run(64), (1, 9, 9)),
    (Call::Next(0, 0, 2, 3), (1, 9, 0)),
    // a hash map
    (Call::Open(&MAPS), (0, 9, 0)),
    (Call::Lookup(0, b"b\0", 3), (7, 9, 0)),
    (Call::Next(0, 0, 2, 3), (7, 9, 0)),
    (Call::Update(0, b"b\0", b"\x05\0\0", 0), (0, 0, 0)),
    (Call::Lookup(0, b"b\0", 3), (0, 5, 0)),
    (
        Call::Update(0, b"b\0", b"\x06\0\0", 1),
        (0, u64::MAX - 16, 0),
    ),
    (
        Call::Update(0, b"b\0", b"\x06\0\0", 3),
        (0, u64::MAX - 21, 0),
    ),
    (
        Call::Update(0, b"a\0", b"\x04\0\0", 2),
        (0, u64::MAX - 1, 0),
    ),
    (Call::Update(0, b"a\0", b"\x04\0\0", 1), (0, 0, 0)),
    (
        Call::Update(0, b"c\0", b"\x07\0\0", 0),
        (0, u64::MAX - 6, 0),
    ),
    (Call::Next(0, 0, 2, 3), (0, 0x4_0000_0061, 0)),
    (Call::Next(0, 1, 2, 3), (0, 0x5_0000_0062, 0)),
    (Call::Next(0, 2, 2, 3), (7, 9, 0)),
    (Call::Delete(0, b"a\0"), (0, 0, 0)),
    (Call::Delete(0, b"a\0"), (0, u64::MAX - 1, 0)),
    (Call::Lookup(0, b"b", 3), (1, 9, 0)),
    (Call::Update(0, b"b\0", b"\x05\0", 0), (1, 9, 0)),
    (Call::Delete(0, b"abc"), (1, 9, 0)),
    // the array has keys of another size, and there is no third map
    (Call::Next(1, 0, 2, 3), (1, 9, 0)),
    (Call::Delete(2, b"b\0"), (1, 9, 0)),
    (Call::Run(64), (0, 2, 2)),
    (Call::Lookup(0, b"b\0", 3), (0, 5, 0)),
    // an array has all its keys
    (Call::Update(1, b"\x03\0\0\0", b"abcd", 0), (0, 0, 0)),
    (Call::Next(1, 3, 4, 4), (0, 0x6463_6261_0000_0003, 0)),
    (Call::Next(1, 4, 4, 4), (7, 9, 0)),
    (Call::Delete(1, b"\x03\0\0\0"), (0, u64::MAX - 21, 0)),
    (Call::Close, (0, 9, 0)),
    (Call::Close, (0, 9, 0)),
];

#[test]
fn calls_on_a_session(rt: HostRuntime) {
    let mut session = Session::closed();
    for (index, (call, wanted)) in CALLS.iter().enumerate() {
        let found = called(rt.alloc(), &mut session, call);
        assert!(rt; found == *wanted, "call {index}");
    }
}
