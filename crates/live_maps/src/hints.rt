//! Where a place is looked for first: advice, of which no clause says that it is right.

use std::alloc::{AllocError, Global};

// Where a place was put: the name of its chunk, and its index there at that time.
#[derive(Clone, Copy)]
struct Spot {
    name: u16,
    index: u16,
}

// A number, where it is small.
fn short(number: usize) -> u16 {
    (number % 65_536) as u16
}

/// Where each place was put. A chunk keeps its name when another one comes before it.
#[derive(Drop)]
pub struct Hints {
    // By place.
    spots: Vec<Spot>,
    // By chunk, its name.
    names: Vec<u16>,
    // By name, the chunk.
    chunks: Vec<u16>,
}

impl Hints {
    /// No place has been put anywhere.
    pub fn new(alloc: Global, places: usize, count: usize) -> Result<Self, AllocError> {
        let spots = vec![in alloc; Spot { name: 0, index: 0 }; places]?;
        let mut names = vec![in alloc; 0; count]?;
        for c in 0..names.len() {
            names[c] = short(c);
        }
        let chunks = names.clone()?;
        Ok(Hints {
            spots,
            names,
            chunks,
        })
    }

    /// The chunk and the index where a place may be.
    pub fn spot(&self, place: usize) -> Option<(usize, usize)> {
        let spot = *self.spots.get(place)?;
        let chunk = *self.chunks.get(usize::from(spot.name))?;
        Some((usize::from(chunk), usize::from(spot.index)))
    }

    /// Notes where a place is.
    pub fn note(&mut self, place: usize, c: usize, index: usize) {
        if place < self.spots.len() && c < self.names.len() {
            let name = self.names[c];
            self.spots[place] = Spot {
                name,
                index: short(index),
            };
        }
    }

    /// Notes where the places of a chunk are.
    pub fn note_all(&mut self, c: usize, places: &[u32]) {
        for i in 0..places.len() {
            self.note(places[i] as usize, c, i);
        }
    }

    /// Notes that the last chunk is now the c-th one.
    pub fn move_last(&mut self, c: usize) {
        if c < self.names.len() {
            self.names.as_mut_slice()[c..].rotate_right(1);
        }
        for k in c..self.names.len() {
            let name = self.names[k] as usize;
            if name < self.chunks.len() {
                self.chunks[name] = short(k);
            }
        }
    }
}
