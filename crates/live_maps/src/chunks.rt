//! Places in an order, in chunks: one that comes or goes moves places of its own chunk only.

ghost use Rattle.std.specs.Prelude.{◌≡◌, ◌≢◌, ◌+◌, ◌<◌, ◌≤◌, ◌^◌, ◌++◌, [], ℕ, All, length, IfOk, IfSome, IfNone, Some, slice_get, slice_index_or, vec_capacity};
ghost use Rattle.std.specs.List.{insert, remove};
ghost use Rattle.live_maps.specs.Ranks.{AreChunks, Begin, IsIn, IsShort, IsSpot, SamePlaces, all_places, lists_of};

use crate::hints::Hints;
use std::alloc::{AllocError, Global};

// The most places of a chunk. One that has so many is halved before another one comes.
const CHUNK: usize = 1024;

// How many places a chunk has once all are spread anew.
const SPREAD: usize = 768;

// There is a chunk for each so many places that there is room for.
const EACH: usize = 400;

// The index of a place in a chunk, which may be this one.
fn index_near(chunk: &Vec<u32>, i: usize, place: usize) -> Option<usize>
    ensures found { IfSome result (λ i. slice_get chunk.now.items i ≡ Some place) }
    ensures none { IfNone result ((i : ℕ) → slice_get chunk.now.items i ≢ Some place) }
{
    if i < chunk.len() && chunk[i] as usize == place {
        return Some(i);
    }
    chunk.iter().position(|p| *p as usize == place)
}

// Of the chunks that begin at these ranks, the one that a rank is in.
fn chunk_of(starts: &[u32], rank: usize) -> usize
    requires some { 0 < length starts.now }
    requires first { slice_index_or starts.now 0 0 ≤ rank }
    ensures inside { result < length starts.now }
    ensures low { slice_index_or starts.now result 0 ≤ rank }
    ensures high { result + 1 < length starts.now
        → rank < slice_index_or starts.now (result + 1) 0 }
{
    let mut low = 0;
    let mut high = starts.len();
    while low + 1 < high {
        let middle = low + (high - low) / 2;
        if starts[middle] as usize <= rank {
            low = middle;
        } else {
            high = middle;
        }
    }
    low
}

// Says at which rank each chunk begins, from this one on.
fn set_starts(chunks: &Vec<Vec<u32>>, starts: &mut [u32], from: usize)
    requires long { length starts.old ≡ length chunks.now.items }
    requires few { length (all_places chunks.now.items) < 2 ^ 32 }
    requires from { 0 < from }
    requires before { Begin from (lists_of chunks.now.items) starts.old }
    ensures long { length starts.new ≡ length starts.old }
    ensures begin { Begin (length chunks.now.items) (lists_of chunks.now.items) starts.new }
{
    for c in from..chunks.len() {
        starts[c] = starts[c - 1] + chunks[c - 1].len() as u32;
    }
}

// Moves the second half of a chunk to one that has no place.
fn halve(full: &mut Vec<u32>, spare: &mut Vec<u32>)
    requires empty { spare.old.items ≡ [] }
    requires room { length full.old.items ≤ vec_capacity spare.old }
    ensures halves { full.new.items ++ spare.new.items ≡ full.old.items }
    ensures capacity { vec_capacity full.new ≡ vec_capacity full.old }
    ensures spare { vec_capacity spare.old ≤ vec_capacity spare.new }
{
    let half = full.len() / 2;
    let _moved = spare.extend_from_slice(&full.as_slice()[half..]);
    full.truncate(half);
}

// Gives a chunk these places in place of its own.
fn refill(chunk: &mut Vec<u32>, places: &[u32])
    requires { length places.now ≤ vec_capacity chunk.old }
    ensures items { chunk.new.items ≡ places.now }
    ensures capacity { vec_capacity chunk.old ≤ vec_capacity chunk.new }
{
    chunk.clear();
    let _put = chunk.extend_from_slice(places);
}

/// Places in an order, one chunk after another.
#[derive(Drop)]
pub struct Chunks {
    pub chunks: Vec<Vec<u32>>,
    /// The rank at which each chunk begins.
    pub starts: Vec<u32>,
    /// Where all places are listed, to be spread anew.
    pub list: Vec<u32>,
    hints: Hints,
    pub room: u32,
}

impl Chunks {
    /// Room for this number of places.
    pub fn new(alloc: Global, room: u32) -> Result<Self, AllocError>
        ensures chunks { IfOk result AreChunks }
        ensures places { IfOk result (λ k. all_places k.chunks.items ≡ []) }
        ensures room { IfOk result (λ k. k.room ≡ room) }
    {
        let places = room as usize;
        let count = places / EACH + 1;
        let mut chunks = Vec::with_capacity(alloc, count)?;
        for c in 0..count {
            chunks.push_reserved(Vec::with_capacity(alloc, places.min(CHUNK))?);
        }
        let starts = vec![in alloc; 0; count]?;
        let list = Vec::with_capacity(alloc, places)?;
        let hints = Hints::new(alloc, places, count)?;
        Ok(Chunks {
            chunks,
            starts,
            list,
            hints,
            room,
        })
    }

    /// Returns how many places there are.
    pub fn len(&self) -> usize
        requires { AreChunks self.now }
        ensures { result ≡ length (all_places self.now.chunks.items) }
    {
        let last = self.chunks.len() - 1;
        self.starts[last] as usize + self.chunks[last].len()
    }

    // The chunk that has the place at a rank.
    fn chunk_with(&self, rank: usize) -> usize
        requires chunks { AreChunks self.now }
        requires rank { rank < length (all_places self.now.chunks.items) }
        ensures { IsIn rank result self.now.chunks.items }
    {
        chunk_of(self.starts.as_slice(), rank)
    }

    // A chunk that a place can be put into at a rank: the one of the place before it.
    fn chunk_for(&self, rank: usize) -> usize
        requires chunks { AreChunks self.now }
        requires rank { rank ≤ length (all_places self.now.chunks.items) }
        ensures { IsSpot rank result self.now.chunks.items }
    {
        if rank == 0 {
            0
        } else {
            self.chunk_with(rank - 1)
        }
    }

    /// The place at a rank.
    pub fn at(&self, rank: usize) -> usize
        requires chunks { AreChunks self.now }
        requires rank { rank < length (all_places self.now.chunks.items) }
        ensures { slice_get (all_places self.now.chunks.items) rank ≡ Some result }
    {
        let c = self.chunk_with(rank);
        self.chunks[c][rank - self.starts[c] as usize] as usize
    }

    // The rank of a place, if it is in the chunk that it was put into last.
    fn rank_near(&self, place: usize) -> Option<usize>
        requires { AreChunks self.now }
        ensures { IfSome result
            (λ k. slice_get (all_places self.now.chunks.items) k ≡ Some place) }
    {
        let (c, near) = self.hints.spot(place)?;
        if c < self.chunks.len() {
            let i = index_near(&self.chunks[c], near, place)?;
            Some(self.starts[c] as usize + i)
        } else {
            None
        }
    }

    // The rank of a place, which is looked for everywhere.
    fn rank_far(&self, place: usize) -> Option<usize>
        requires { AreChunks self.now }
        ensures found { IfSome result
            (λ k. slice_get (all_places self.now.chunks.items) k ≡ Some place) }
        ensures none { IfNone result
            ((k : ℕ) → slice_get (all_places self.now.chunks.items) k ≢ Some place) }
    {
        for c in 0..self.chunks.len() {
            if let Some(i) = index_near(&self.chunks[c], 0, place) {
                return Some(self.starts[c] as usize + i);
            }
        }
        None
    }

    /// The rank of a place.
    pub fn rank(&self, place: usize) -> Option<usize>
        requires { AreChunks self.now }
        ensures found { IfSome result
            (λ k. slice_get (all_places self.now.chunks.items) k ≡ Some place) }
        ensures none { IfNone result
            ((k : ℕ) → slice_get (all_places self.now.chunks.items) k ≢ Some place) }
    {
        match self.rank_near(place) {
            Some(rank) => Some(rank),
            None => self.rank_far(place),
        }
    }

    // Halves a chunk, if the last one has no place.
    fn halve(&mut self, c: usize)
        requires chunks { AreChunks self.old }
        requires inside { c < length self.old.chunks.items }
        ensures chunks { AreChunks self.new }
        ensures same { SamePlaces self.old self.new }
    {
        let last = self.chunks.len() - 1;
        if c == last || !self.chunks[last].is_empty() {
            return;
        }
        if let Some(mut spare) = self.chunks.pop() {
            halve(&mut self.chunks[c], &mut spare);
            self.hints.move_last(c + 1);
            self.hints.note_all(c + 1, spare.as_slice());
            let _put = self.chunks.insert(c + 1, spare);
            set_starts(&self.chunks, self.starts.as_mut_slice(), 1);
        }
    }

    // Spreads the places of the list over the chunks.
    fn spread(&mut self)
        requires chunks { AreChunks self.old }
        requires few { length self.old.list.items ≤ self.old.room }
        ensures chunks { AreChunks self.new }
        ensures places { all_places self.new.chunks.items ≡ self.old.list.items }
        ensures short { (c : ℕ) → IsShort c self.new.chunks.items }
        ensures room { self.new.room ≡ self.old.room }
    {
        for c in 0..self.chunks.len() {
            let start = (c * SPREAD).min(self.list.len());
            let end = (start + SPREAD).min(self.list.len());
            refill(&mut self.chunks[c], &self.list.as_slice()[start..end]);
            self.hints.note_all(c, &self.list.as_slice()[start..end]);
        }
        set_starts(&self.chunks, self.starts.as_mut_slice(), 1);
    }

    // Spreads all places anew.
    fn respread(&mut self)
        requires { AreChunks self.old }
        ensures chunks { AreChunks self.new }
        ensures same { SamePlaces self.old self.new }
        ensures short { (c : ℕ) → IsShort c self.new.chunks.items }
    {
        self.list.clear();
        for c in 0..self.chunks.len() {
            let _put = self.list.extend_from_slice(self.chunks[c].as_slice());
        }
        self.spread();
    }

    // A chunk that a place can be put into at a rank, and which has room for it.
    fn open_chunk(&mut self, rank: usize) -> usize
        requires chunks { AreChunks self.old }
        requires rank { rank ≤ length (all_places self.old.chunks.items) }
        ensures chunks { AreChunks self.new }
        ensures same { SamePlaces self.old self.new }
        ensures spot { IsSpot rank result self.new.chunks.items }
        ensures short { IsShort result self.new.chunks.items }
    {
        let c = self.chunk_for(rank);
        if self.chunks[c].len() < CHUNK {
            return c;
        }
        self.halve(c);
        let c = self.chunk_for(rank);
        if self.chunks[c].len() < CHUNK {
            return c;
        }
        self.respread();
        self.chunk_for(rank)
    }

    /// Puts in a place at a rank.
    pub fn insert(&mut self, rank: usize, place: u32)
        requires chunks { AreChunks self.old }
        requires rank { rank ≤ length (all_places self.old.chunks.items) }
        requires few { length (all_places self.old.chunks.items) < self.old.room }
        ensures chunks { AreChunks self.new }
        ensures places { all_places self.new.chunks.items
            ≡ insert (all_places self.old.chunks.items) rank place }
        ensures room { self.new.room ≡ self.old.room }
    {
        let c = self.open_chunk(rank);
        let i = rank - self.starts[c] as usize;
        let _put = self.chunks[c].insert(i, place);
        self.hints.note(place as usize, c, i);
        set_starts(&self.chunks, self.starts.as_mut_slice(), c + 1);
    }

    /// Takes out the place at a rank.
    pub fn remove(&mut self, rank: usize)
        requires chunks { AreChunks self.old }
        requires rank { rank < length (all_places self.old.chunks.items) }
        ensures chunks { AreChunks self.new }
        ensures places { all_places self.new.chunks.items
            ≡ remove (all_places self.old.chunks.items) rank }
        ensures room { self.new.room ≡ self.old.room }
    {
        let c = self.chunk_with(rank);
        let i = rank - self.starts[c] as usize;
        let _place = self.chunks[c].remove(i);
        set_starts(&self.chunks, self.starts.as_mut_slice(), c + 1);
    }

    /// Has these places in place of all others.
    pub fn refill(&mut self, places: &[usize])
        requires chunks { AreChunks self.old }
        requires few { length places.now ≤ self.old.room }
        requires small { (i p : ℕ) → slice_get places.now i ≡ Some p → p < 2 ^ 32 }
        ensures chunks { AreChunks self.new }
        ensures places { all_places self.new.chunks.items ≡ places.now }
        ensures room { self.new.room ≡ self.old.room }
    {
        self.list.clear();
        for place in places {
            self.list.push_reserved(*place as u32);
        }
        self.spread();
    }
}
