//! Tables: their bytes, and where in them the entries begin.

ghost use Rattle.std.specs.Prelude.{◌≡◌, ◌⊎◌, ◌≤◌, ◌-◌, IsTrue, false, List, Some, None, Ok, Err, MatchResult, MatchOption, OnOk, IfErr, IfSome, length, drop, [], ◌∷◌, ◌++◌};
ghost use Rattle.table_entries.specs.Reading.{seen};
ghost use Rattle.isa_model.specs.Code.Instructions.{Program};
ghost use Rattle.table_entries.specs.Entries.{Entry, IsAllowed, entry_in, entry_of};
ghost use Rattle.table_entries.specs.declared.entries.EntryHead.{EntryHead};
ghost use Rattle.table_entries.specs.declared.stops.StopReason.{StopReason};
ghost use Rattle.table_entries.specs.Growing.{with_place};
ghost use Rattle.table_entries.specs.KnownBytes.{AreSpelled, ArePassed};
ghost use Rattle.table_entries.specs.Forgetting.{IsWeakerFrame};
ghost use Rattle.stack_state.specs.declared.states.AbstractFrame.{AbstractFrame as TheFrame};
ghost use Rattle.table_entries.specs.Tables.{TableView, KeepsEntries, table_read, entry_at, count_of, ArePlaced, count_in, body_in, refusal_of, earlier};

use crate::entries::{EntryHead, read_entry};
use crate::forgetting::forget_unsaid;
use crate::known_bytes::KnownBytes;
use crate::passing::{Passing, pass_entry};
use crate::refusals::TableRefusal;
use crate::slices::{skip, u32_at};
use crate::spelled_entries::after_entry;
use crate::stops::StopReason;
use image::Image;
use isa_model::MAX_EXPLORED;
use stack_state::{MAX_CALLERS, State};
use std::alloc::Global;
use std::marker::Model;

/// A table whose bytes have the format, with every field allowed. Beside these, 8 bytes of memory
/// for each entry say where it begins: no entry is kept.
///
/// Contracts see the bytes and the places.
#[derive(Drop)]
pub struct Table<'a> {
    bytes: &'a [u8],
    places: Vec<usize>,
}

impl<'a> Model for Table<'a> {
    ghost use Rattle.table_entries.specs.Tables.{TableView};

    ghost Value = { TableView };

    ghost view = { λ t. record { bytes = t.bytes.now; places = t.places.items } };
}

// What is wrong with the first bytes, or how many entries there are.
pub(crate) fn count_in(bytes: &[u8]) -> Result<usize, TableRefusal>
    ensures { MatchResult result (λ count. count_in bytes.now ≡ Ok count)
        (λ refusal. count_in bytes.now ≡ Err refusal) }
{
    if bytes.len() < 8 {
        return Err(TableRefusal::Short);
    }
    if !bytes.starts_with(b"XPT1") {
        return Err(TableRefusal::Magic);
    }
    let count = u32_at(bytes, 4);
    if count == 0 || count > MAX_EXPLORED {
        return Err(TableRefusal::Count);
    }
    Ok(count as usize)
}

// Notes a place.
fn push_place(places: &mut Vec<usize>, place: usize) -> Result<(), TableRefusal>
    ensures ok { OnOk result (places.new.items ≡ places.old.items ++ place ∷ []) }
    ensures err { IfErr result (λ refusal. refusal ≡ TableRefusal.Memory) }
{
    match places.push(place) {
        Ok(()) => Ok(()),
        Err(_) => Err(TableRefusal::Memory),
    }
}

// Whether the entry of that index, with which the bytes begin, is allowed, and the bytes after it.
fn pass_or_refuse<'a>(
    image: &Image,
    index: usize,
    bytes: &'a [u8],
    passing: &mut Passing<'a>,
) -> Result<(bool, &'a [u8]), TableRefusal>
    requires { ArePassed (length image.now.maps) passing.old.frames.items }
    ensures passed { ArePassed (length image.now.maps) passing.new.frames.items }
    ensures read { MatchResult result (λ x. seen (entry_in image.now bytes.now) ≡ Ok (x.0, x.1.now))
        (λ refusal. (stop : StopReason) × (seen (entry_in image.now bytes.now) ≡ Err stop)
        × (refusal ≡ refusal_of stop index)) }
{
    match pass_entry(image, bytes, passing) {
        Ok(passed) => Ok(passed),
        Err(stop) => Err(refusal_of(stop, index)),
    }
}

// Where the entries begin, and the index of the first that has a field that is not allowed.
fn places_in(
    alloc: Global,
    image: &Image,
    count: usize,
    bytes: &[u8],
) -> Result<(Vec<usize>, Option<usize>), TableRefusal>
    requires { 8 ≤ length bytes.now }
    ensures { MatchResult result
        (λ x. ArePlaced image.now bytes.now count x.0.items x.1)
        (λ refusal. (refusal ≡ TableRefusal.Memory)
        ⊎ (body_in image.now bytes.now count ≡ Err refusal)) }
{
    let mut places = Vec::new(alloc);
    let mut first = None;
    let mut rest = skip(bytes, 8);
    let mut passing = Passing::new();
    for index in 0..count {
        push_place(&mut places, bytes.len() - rest.len())?;
        let (allowed, after) = pass_or_refuse(image, index, rest, &mut passing)?;
        first = earlier(first, allowed, index);
        rest = after;
    }
    if rest.is_empty() {
        Ok((places, first))
    } else {
        Err(TableRefusal::Long)
    }
}

// The bytes from a place on.
fn bytes_from(bytes: &[u8], place: usize) -> &[u8]
    ensures { result.now ≡ drop place bytes.now }
{
    if place > bytes.len() {
        &[]
    } else {
        skip(bytes, place)
    }
}

// The first index that was found, or else this one if its entry is not allowed.
fn earlier(first: Option<usize>, allowed: bool, index: usize) -> Option<usize>
    ensures { result ≡ earlier first allowed index }
{
    match first {
        Some(first) => Some(first),
        None => { if allowed { None } else { Some(index) } }
    }
}

fn refusal_of(stop: StopReason, index: usize) -> TableRefusal
    ensures { result ≡ refusal_of stop index }
{
    match stop {
        StopReason::Short => TableRefusal::Short,
        StopReason::Meaningless => TableRefusal::Entry(index),
    }
}

impl<'a> Table<'a> {
    /// The table that the bytes spell, or why they spell none: P1 to P5 and P9.
    ///
    /// A byte that has no meaning ends the reading, with P5 of its entry; a field that is not
    /// allowed does not, and its P5 comes last.
    pub fn of(alloc: Global, image: &Image, bytes: &'a [u8]) -> Result<Table<'a>, TableRefusal>
        ensures { MatchResult result
            (λ table. (entries : List Entry) × (table_read image.now bytes.now ≡ Ok entries)
            × KeepsEntries image.now table entries)
            (λ refusal. (refusal ≡ TableRefusal.Memory)
            ⊎ (table_read image.now bytes.now ≡ Err refusal)) }
    {
        let count = count_in(bytes)?;
        let (places, first) = places_in(alloc, image, count, bytes)?;
        match first {
            Some(index) => Err(TableRefusal::Entry(index)),
            None => Ok(Table { bytes, places }),
        }
    }

    /// A table of those bytes, with no entries.
    pub(crate) fn empty(alloc: Global, bytes: &'a [u8]) -> Table<'a>
        ensures { result ≡ record { bytes = bytes.now; places = [] } }
    {
        Table {
            bytes,
            places: Vec::new(alloc),
        }
    }

    /// Places one more entry, which begins `remaining` bytes before the end. False: memory ran out.
    pub(crate) fn place(&mut self, remaining: usize) -> bool
        requires { remaining ≤ length self.old.bytes }
        ensures placed { IsTrue result
            → self.new ≡ with_place self.old (length self.old.bytes - remaining) }
        ensures left { result ≡ false → self.new ≡ self.old }
    {
        match self.places.push(self.bytes.len() - remaining) {
            Ok(()) => true,
            Err(_) => false,
        }
    }

    /// Returns how many entries there are.
    pub fn len(&self) -> usize
        ensures { result ≡ count_of self.now }
    {
        self.places.len()
    }

    /// The number of the entry of that index.
    pub fn number(&self, index: usize) -> Option<u32>
        ensures number { (p : Program) (e : Entry) → entry_at p self.now index ≡ Some e
            → result ≡ Some e.number }
        ensures none { count_of self.now ≤ index → result ≡ None }
    {
        let place = *self.places.get(index)?;
        let bytes = bytes_from(self.bytes, place);
        if bytes.len() < 4 {
            return None;
        }
        Some(u32_at(bytes, 0))
    }

    /// The entry of that index; its state is read into `state`.
    ///
    /// The image is the one that the table was made with.
    pub fn read(&self, image: &Image, index: usize, state: &mut State) -> Option<EntryHead>
        ensures allowed { (head : EntryHead) → result ≡ Some head
            → IsAllowed image.now head.number state.new.slot }
        ensures entry { MatchOption result (entry_at image.now self.now index ≡ None)
            (λ head. entry_at image.now self.now index ≡ Some (entry_of head state.new)) }
    {
        let place = *self.places.get(index)?;
        match read_entry(image, bytes_from(self.bytes, place), state) {
            Ok((head, _)) => head,
            Err(_) => None,
        }
    }

    /// Returns what the entry of that index says besides its state, if its bytes spell this state.
    /// Nothing follows from None.
    ///
    /// The image is the one that the table was made with. More bytes may be known to
    /// spell the state afterwards.
    pub fn head_of(
        &self,
        image: &Image,
        index: usize,
        state: &State,
        known: &mut KnownBytes<'a>,
    ) -> Option<EntryHead>
        requires { AreSpelled (length image.now.maps) known.old state.now }
        ensures spelled { AreSpelled (length image.now.maps) known.new state.now }
        ensures allowed { IfSome result
            (λ head. IsAllowed image.now head.number state.now.slot) }
        ensures entry { IfSome result
            (λ head. entry_at image.now self.now index ≡ Some (entry_of head state.now)) }
    {
        let place = *self.places.get(index)?;
        let (head, _) = after_entry(image, bytes_from(self.bytes, place), state, known)?;
        Some(head)
    }

    /// Does what `head_of` does for the state without what the entry says nothing of in the
    /// innermost frame. The state is as before where None is returned.
    pub fn head_of_weaker(
        &self,
        image: &Image,
        index: usize,
        state: &mut State,
        known: &mut KnownBytes<'a>,
    ) -> Option<EntryHead>
        requires { AreSpelled (length image.now.maps) known.old state.old }
        ensures spelled { AreSpelled (length image.now.maps) known.new state.new }
        ensures left { result ≡ None → state.new ≡ state.old }
        ensures weaker { IfSome result (λ _. (g : TheFrame) × IsWeakerFrame state.old.innermost g
            × (state.new ≡ record state.old { innermost = g })) }
        ensures allowed { IfSome result
            (λ head. IsAllowed image.now head.number state.new.slot) }
        ensures entry { IfSome result
            (λ head. entry_at image.now self.now index ≡ Some (entry_of head state.new)) }
    {
        let place = *self.places.get(index)?;
        let whole = state.innermost.copy();
        known.keep(MAX_CALLERS, false);
        let entry = bytes_from(self.bytes, place);
        forget_unsaid(known.inner_bytes(entry), &mut state.innermost);
        if let Some(head) = self.head_of(image, index, state, known) {
            return Some(head);
        }
        state.innermost = whole;
        known.keep(MAX_CALLERS, false);
        None
    }
}
