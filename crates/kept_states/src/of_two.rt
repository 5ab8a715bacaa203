//! Which of two values are kept on a stack.

ghost use Rattle.std.specs.Prelude.{◌≡◌, IsTrue, IfOk, drop, reverse};
ghost use Rattle.kept_states.specs.OfTwo.{IsPut, first_of, second_of, count_of, top};

use std::alloc::AllocError;

/// Says which of two values are kept.
#[derive(Clone, Copy, Drop)]
pub enum OfTwo {
    Neither,
    First,
    Second,
    Both,
}

/// Takes the last value; if there is none, the answer is the other one.
#[inline(always)]
fn take_one<T: Copy + Drop>(values: &mut Vec<T>, there: T) -> T
    ensures value { result ≡ top there (reverse values.old.items) }
    ensures left { reverse values.new.items ≡ drop 1 (reverse values.old.items) }
{
    match values.pop() {
        Some(value) => value,
        None => there,
    }
}

impl OfTwo {
    /// Puts of two values those that differ from others after the values that were put before.
    #[inline(always)]
    pub fn put<T: Copy + Drop>(
        values: &mut Vec<T>,
        pair: (T, T),
        others: (T, T),
        differ: (bool, bool),
    ) -> Result<OfTwo, AllocError>
        requires first { ¬ IsTrue differ.0 → pair.0 ≡ others.0 }
        requires second { ¬ IsTrue differ.1 → pair.1 ≡ others.1 }
        ensures { IfOk result (λ which. IsPut which pair others (reverse values.old.items)
            (reverse values.new.items)) }
    {
        match differ {
            (false, false) => Ok(OfTwo::Neither),
            (true, false) => {
                values.push(pair.0)?;
                Ok(OfTwo::First)
            }
            (false, true) => {
                values.push(pair.1)?;
                Ok(OfTwo::Second)
            }
            (true, true) => {
                values.push(pair.0)?;
                values.push(pair.1)?;
                Ok(OfTwo::Both)
            }
        }
    }

    /// Takes these of two values, which were put last; the others are as given.
    #[inline(always)]
    pub fn take<T: Copy + Drop>(self, values: &mut Vec<T>, others: (T, T)) -> (T, T)
        ensures first { result.0 ≡ first_of self others.0 (reverse values.old.items) }
        ensures second { result.1 ≡ second_of self others.1 (reverse values.old.items) }
        ensures left { reverse values.new.items
            ≡ drop (count_of self) (reverse values.old.items) }
    {
        match self {
            OfTwo::Neither => others,
            OfTwo::First => (take_one(values, others.0), others.1),
            OfTwo::Second => (others.0, take_one(values, others.1)),
            OfTwo::Both => {
                let second = take_one(values, others.1);
                (take_one(values, others.0), second)
            }
        }
    }
}
