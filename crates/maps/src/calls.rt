//! Requests to helpers, and their answers.

ghost use Rattle.std.specs.Prelude.{◌≡◌, ◌+◌, ℕ};
ghost use Rattle.maps.specs.Calls.{FitsMaps, AnswersRequest, clock_calls};

use crate::Maps;
use isa_model::{Clock, Helper};

/// Says what a program asks of a helper. A map is named by its index, and a key and a value have
/// the sizes of its row. Arguments that the helper does not take are ignored.
#[derive(Clone, Copy)]
pub struct Request<'a> {
    pub helper: Helper,
    pub map: usize,
    pub key: &'a [u8],
    pub value: &'a [u8],
    pub flags: u64,
}

/// Says what a helper answers.
#[derive(Clone, Copy)]
pub enum Answer {
    Number(u64),
    /// The key that was looked up has its value at this place of the map.
    Value(usize),
}

/// Does what a helper is asked for. It takes no memory.
#[inline(always)]
pub fn call<C: Clock>(maps: &mut Maps, request: &Request<'_>, clock: &mut C) -> Answer
    requires { FitsMaps maps.old request.now }
    ensures answer { AnswersRequest (C.at clock.old) request.now maps.old result maps.new }
    ensures clock { (k : ℕ) → C.at clock.new k ≡ C.at clock.old (clock_calls request.now + k) }
{
    let Request {
        helper,
        map,
        key,
        value,
        flags,
    } = *request;
    match helper {
        Helper::MapLookupElem => match maps.find(map, key) {
            Some(place) => Answer::Value(place),
            None => Answer::Number(0),
        },
        Helper::MapUpdateElem => Answer::Number(maps.update(map, key, value, flags)),
        Helper::MapDeleteElem => Answer::Number(maps.delete(map, key)),
        Helper::KtimeGetNs => Answer::Number(clock.now()),
    }
}
