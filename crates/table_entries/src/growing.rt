//! Tables whose entries are placed as they are asked for.
//!
//! An entry whose bytes spell a known state ends where its spelling does, so it is placed without a
//! look at its fields. Others are passed over: their fields are tested, to find where they end.

ghost use Rattle.std.specs.Prelude.{◌≡◌, ◌<◌, ◌≤◌, ◌+◌, ◌-◌, IsTrue, IfSome, Some, None, false, length, [], drop};
ghost use Rattle.isa_model.specs.Code.Instructions.{Program};
ghost use Rattle.table_entries.specs.Entries.{IsAllowed, entry_of};
ghost use Rattle.table_entries.specs.Tables.{entry_at, count_of};
ghost use Rattle.table_entries.specs.Growing.{IsBegun, MayGrow, Grows, with_place};
ghost use Rattle.table_entries.specs.KnownBytes.{AreSpelled, ArePassed};
ghost use Rattle.table_entries.specs.Forgetting.{IsWeakerFrame};
ghost use Rattle.stack_state.specs.declared.states.AbstractFrame.{AbstractFrame as TheFrame};

use crate::entries::EntryHead;
use crate::forgetting::forget_unsaid;
use crate::known_bytes::KnownBytes;
use crate::passing::{Passing, pass_entry};
use crate::slices::skip;
use crate::spelled_entries::after_entry;
use crate::tables::{Table, count_in};
use image::Image;
use stack_state::{MAX_CALLERS, State};
use std::alloc::Global;
use std::marker::Model;

/// A table whose first entries are placed: their bytes have the format, with every field allowed.
/// Placing an entry takes 8 bytes of memory.
///
/// Contracts see the table of those entries, the bytes after them, and the count of entries that
/// the first 8 bytes say.
#[derive(Drop)]
pub struct Growing<'a> {
    table: Table<'a>,
    rest: &'a [u8],
    count: usize,
}

impl<'a> Model for Growing<'a> {
    ghost use Rattle.table_entries.specs.Growing.{Grown};

    ghost Value = { Grown };

    ghost view = { λ g. record { table = g.table; rest = g.rest.now; count = g.count } };
}

impl<'a> Growing<'a> {
    /// The table of the bytes, with no entry placed yet. None: the first 8 bytes are not those of a
    /// table.
    pub fn begin(alloc: Global, bytes: &'a [u8]) -> Option<Growing<'a>>
        ensures bytes { IfSome result (λ growing. growing.table.bytes ≡ bytes.now) }
        ensures begun { IfSome result (λ growing. (p : Program) → IsBegun p growing) }
    {
        match count_in(bytes) {
            Ok(count) => Some(Growing {
                table: Table::empty(alloc, bytes),
                rest: skip(bytes, 8),
                count,
            }),
            Err(_) => None,
        }
    }

    /// A table that is read, with all its entries placed.
    pub fn of(table: Table<'a>) -> Growing<'a>
        ensures { result ≡ record {
          table = table.entry;
          rest = [];
          count = count_of table.entry;
        } }
    {
        let count = table.len();
        Growing {
            table,
            rest: &[],
            count,
        }
    }

    /// The table of the entries that are placed.
    pub fn placed(&self) -> &Table<'a>
        ensures { result.now ≡ self.now.table }
    {
        &self.table
    }

    /// The count of entries that the table's first 8 bytes say.
    pub fn count(&self) -> usize
        ensures { result ≡ self.now.count }
    {
        self.count
    }

    /// Returns whether all entries are placed, and no bytes are left over.
    pub fn is_whole(&self) -> bool
        ensures { IsTrue result → (count_of self.now.table ≡ self.now.count)
            × (length self.now.rest ≡ 0) }
    {
        self.table.len() == self.count && self.rest.is_empty()
    }

    // Places the next entry, which ends where the bytes `after` begin.
    fn place(&mut self, after: &'a [u8]) -> bool
        requires { length self.old.rest ≤ length self.old.table.bytes }
        ensures placed { IsTrue result → self.new ≡ record {
          table = with_place self.old.table (length self.old.table.bytes - length self.old.rest);
          rest = after.now;
          count = self.old.count;
        } }
        ensures left { result ≡ false → self.new ≡ self.old }
    {
        if self.table.place(self.rest.len()) {
            self.rest = after;
            true
        } else {
            false
        }
    }

    // Passes over the next entry and places it, if it is allowed.
    fn pass_next(&mut self, image: &Image, passing: &mut Passing<'a>) -> bool
        requires begun { IsBegun image.now self.old }
        requires more { count_of self.old.table < self.old.count }
        requires passed { ArePassed (length image.now.maps) passing.old.frames.items }
        ensures passed { ArePassed (length image.now.maps) passing.new.frames.items }
        ensures grows { Grows image.now self.old self.new }
        ensures next { IsTrue result → count_of self.new.table ≡ count_of self.old.table + 1 }
    {
        match pass_entry(image, self.rest, passing) {
            Ok((true, after)) => self.place(after),
            _ => false,
        }
    }

    // Places all entries up to that index, which is of an entry that is not placed yet.
    fn pass_to(&mut self, image: &Image, index: usize) -> bool
        requires begun { IsBegun image.now self.old }
        requires later { count_of self.old.table ≤ index }
        requires inside { index < self.old.count }
        ensures grows { Grows image.now self.old self.new }
        ensures there { IsTrue result → index < count_of self.new.table }
    {
        let mut passing = Passing::new();
        for _ in self.table.len()..index + 1 {
            if !self.pass_next(image, &mut passing) {
                return false;
            }
        }
        true
    }

    /// Places the entries up to that index, and returns whether the entry with that index is placed
    /// then.
    ///
    /// The image is the one with which other entries were placed.
    pub fn reach(&mut self, image: &Image, index: usize) -> bool
        requires { MayGrow image.now self.old }
        ensures grows { Grows image.now self.old self.new }
        ensures there { IsTrue result → index < count_of self.new.table }
        ensures found { index < count_of self.old.table → IsTrue result }
    {
        if index < self.table.len() {
            return true;
        }
        if index >= self.count {
            return false;
        }
        self.pass_to(image, index)
    }

    /// Returns what the entry of that index says besides its state, if it is the next one to be
    /// placed, and its bytes spell this state: then it is placed. Nothing follows from None.
    ///
    /// More bytes may be known to spell the state afterwards.
    pub fn take(
        &mut self,
        image: &Image,
        index: usize,
        state: &State,
        known: &mut KnownBytes<'a>,
    ) -> Option<EntryHead>
        requires may { MayGrow image.now self.old }
        requires spelled { AreSpelled (length image.now.maps) known.old state.now }
        ensures spelled { AreSpelled (length image.now.maps) known.new state.now }
        ensures grows { Grows image.now self.old self.new }
        ensures allowed { IfSome result (λ head. IsAllowed image.now head.number state.now.slot) }
        ensures entry { IfSome result
            (λ head. entry_at image.now self.new.table index ≡ Some (entry_of head state.now)) }
    {
        if index != self.table.len() || index >= self.count {
            return None;
        }
        let (head, after) = after_entry(image, self.rest, state, known)?;
        if self.place(after) { Some(head) } else { None }
    }

    /// Does what `take` does for the state without what the entry says nothing of in the innermost
    /// frame, if the entry's number is below this one. The state is as before where None is
    /// returned.
    pub fn take_weaker(
        &mut self,
        image: &Image,
        number: u32,
        index: usize,
        state: &mut State,
        known: &mut KnownBytes<'a>,
    ) -> Option<EntryHead>
        requires may { MayGrow image.now self.old }
        requires spelled { AreSpelled (length image.now.maps) known.old state.old }
        ensures spelled { AreSpelled (length image.now.maps) known.new state.new }
        ensures grows { Grows image.now self.old self.new }
        ensures left { result ≡ None → state.new ≡ state.old }
        ensures weaker { IfSome result (λ _. (g : TheFrame) × IsWeakerFrame state.old.innermost g
            × (state.new ≡ record state.old { innermost = g })) }
        ensures number { IfSome result (λ head. head.number < number) }
        ensures allowed { IfSome result (λ head. IsAllowed image.now head.number state.new.slot) }
        ensures entry { IfSome result
            (λ head. entry_at image.now self.new.table index ≡ Some (entry_of head state.new)) }
    {
        if index != self.table.len() {
            return None;
        }
        let innermost = state.innermost.copy();
        known.keep(MAX_CALLERS, false);
        forget_unsaid(known.inner_bytes(self.rest), &mut state.innermost);
        if let Some(head) = self.take(image, index, state, known) {
            if head.number < number {
                return Some(head);
            }
        }
        state.innermost = innermost;
        known.keep(MAX_CALLERS, false);
        None
    }
}
