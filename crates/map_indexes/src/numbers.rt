//! Lists of optional numbers, each of which takes four bytes.

ghost use Rattle.std.specs.Prelude.{◌≡◌, ◌+◌, ◌<◌, ◌^◌, length, None, IfOk, IfSome, replicate, slice_index_or, slice_set};
ghost use Rattle.map_indexes.specs.OptionalNumbers.{number_of as the_number_of};

use crate::rooms::exact;
use std::alloc::{AllocError, Global};
use std::marker::Model;

/// A list that has at each index a number, or none. It has room for no more elements.
///
/// Contracts see the numbers.
#[derive(Drop)]
pub struct OptionalNumbers {
    // one more than the number, or 0 where there is none
    codes: Vec<u32>,
}

impl Model for OptionalNumbers {
    ghost use Rattle.std.specs.Prelude.{◌≡◌, ℕ, List, Option, length, map, vec_capacity};
    ghost use Rattle.map_indexes.specs.OptionalNumbers.{number_of};

    ghost Value = { List (Option ℕ) };

    ghost view = { λ l. map number_of l.codes.items };

    ghost invariant = { λ l. vec_capacity l.codes ≡ length l.codes.items };
}

impl OptionalNumbers {
    /// A list without numbers.
    pub fn new(alloc: Global, count: u32) -> Result<Self, AllocError>
        ensures { IfOk result (λ l. l ≡ replicate count None) }
    {
        let zeros = vec![in alloc; 0; count as usize]?;
        let codes = exact(zeros)?;
        Ok(OptionalNumbers { codes })
    }

    /// The number at an index.
    #[inline(always)]
    pub fn at(&self, i: usize) -> Option<usize>
        requires { i < length self.now }
        ensures { result ≡ slice_index_or self.now i None }
    {
        number_of(self.codes[i])
    }

    /// Writes the number at an index.
    pub fn set(&mut self, i: usize, number: Option<usize>)
        requires inside { i < length self.old }
        requires small { IfSome number (λ n. n + 1 < 2 ^ 32) }
        ensures { self.new ≡ slice_set self.old i number }
    {
        self.codes[i] = code_of(number);
    }
}

// The number that a code stands for.
#[inline(always)]
fn number_of(code: u32) -> Option<usize>
    ensures { result ≡ the_number_of code }
{
    if code == 0 {
        None
    } else {
        Some(code as usize - 1)
    }
}

// The code of a number.
fn code_of(number: Option<usize>) -> u32
    requires { IfSome number (λ n. n + 1 < 2 ^ 32) }
    ensures { the_number_of result ≡ number }
{
    match number {
        Some(n) => n as u32 + 1,
        None => 0,
    }
}
