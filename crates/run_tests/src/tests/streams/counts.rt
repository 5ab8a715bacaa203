//! Runs whose packet frames are counted, with a report and without one.

use super::cases::{MAGIC, TWO};
use crate::tests::programs::image_of;
use crate::tests::rows::holds_at;
use explorer::{Verified, verify};
use host::{Counted, HostError, NoReport, run_checked_counted_from, run_counted_from};
use image::Image;
use isa_model::Action;
use maps::Maps;
use std::alloc::Global;

// Drops each frame, for reason 7.
const DROPS: &str = "version 2; r0 = 0x700000001 ll; exit";

// What the report has on two frames.
const REPORT: &[u8] = b"0 DROP 0 2\n1 DROP 0 2\nend 2\n";

// Whether two frames were dropped for reason 7, and nothing else is counted.
fn are_dropped(ended: &Result<Counted, HostError>) -> bool {
    let Ok(counted) = ended else {
        return false;
    };
    let counts = &counted.counts;
    let is_met = match counts.reasons.as_slice().first() {
        Some(met) => met.reason == 7 && met.frames == 2,
        None => false,
    };
    is_met
        && counted.traced.tally.frames == 2
        && counts.actions.of(Action::Drop) == 2
        && counts.actions.of(Action::Pass) == 0
        && counts.limit == 0
        && counts.skipped == 0
        && counts.other_reasons == 0
}

// With checks, and no report.
fn counts_checked(alloc: Global, image: Image) -> bool {
    let Ok(maps) = Maps::new(alloc, &image) else {
        return false;
    };
    let mut sent: Vec<u8> = Vec::new(alloc);
    let ended = run_checked_counted_from(alloc, image, maps, 100, TWO, &mut NoReport, &mut sent);
    are_dropped(&ended) && sent.as_slice() == MAGIC
}

// Without checks, and with a report.
fn counts_verified(alloc: Global, program: Verified) -> bool {
    let Ok(maps) = Maps::new(alloc, program.image()) else {
        return false;
    };
    let mut report: Vec<u8> = Vec::new(alloc);
    let mut sent: Vec<u8> = Vec::new(alloc);
    let ended = run_counted_from(alloc, program, maps, TWO, &mut report, &mut sent);
    are_dropped(&ended) && report.as_slice() == REPORT && sent.as_slice() == MAGIC
}

// Whether the counts are so, with checks or without.
fn counts_so(alloc: Global, is_checked: bool) -> bool {
    match image_of(alloc, DROPS) {
        Some(image) if is_checked => counts_checked(alloc, image),
        Some(image) => match verify(alloc, image) {
            Ok(program) => counts_verified(alloc, program),
            Err(_) => false,
        },
        None => false,
    }
}

#[test]
fn counts(rt: HostRuntime) {
    holds_at(&rt, counts_so(rt.alloc(), true), 0, 0);
    holds_at(&rt, counts_so(rt.alloc(), false), 1, 0);
}
