//! Map stores: their answers to updates, deletes and look-ups, and texts that fill them.

mod answers;
mod stores;
mod texts;
