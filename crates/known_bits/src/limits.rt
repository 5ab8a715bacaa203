//! The least and the greatest member of a set with known bits.

ghost use Rattle.std.specs.Prelude.{◌≡◌, ℕ, ◌%◌, ◌^◌, ◌≤◌, ◌≤ℤ◌, ◌↔◌, Some, bit_or};
ghost use Rattle.std.specs.Int.{w64, cast_signed, cast_unsigned};

use crate::bits::Bits;
use isa_model::numbers;

const SIGN: u64 = 0x8000_0000_0000_0000;

impl Bits {
    ghost use Rattle.known_bits.specs.Bits.{Has, IsConstant, greatest_of};

    /// The member, if there is only one.
    pub fn number(self) -> Option<u64>
        ensures { (x : ℕ) → ((result ≡ Some x) ↔ IsConstant self x) }
    {
        if self.mask == 0 {
            Some(self.least())
        } else {
            None
        }
    }

    /// The least member.
    pub fn least(self) -> u64
        ensures value { result ≡ self.value }
        ensures member { Has self result }
        ensures limit { (x : ℕ) → Has self x → result ≤ x }
    {
        self.value
    }

    /// The greatest member.
    pub fn greatest(self) -> u64
        ensures value { result ≡ bit_or self.value self.mask }
        ensures member { Has self result }
        ensures limit { (x : ℕ) → Has self x → x ≤ result }
    {
        self.least() | self.mask
    }

    /// The greatest low half of a member.
    pub fn low_greatest(self) -> u32
        ensures value { result ≡ greatest_of self % 2 ^ 32 }
        ensures limit { (x : ℕ) → Has self x → x % 2 ^ 32 ≤ result }
    {
        numbers::low_32_bits(self.greatest())
    }

    /// The least member, read as a signed number: an unknown sign bit is set in it.
    pub fn signed_least(self) -> i64
        ensures member { Has self (cast_unsigned w64 result) }
        ensures limit { (x : ℕ) → Has self x → result ≤ℤ cast_signed w64 x }
    {
        if self.mask >= SIGN {
            (self.least() + SIGN).cast_signed()
        } else {
            self.least().cast_signed()
        }
    }

    /// The greatest member, read as a signed number: an unknown sign bit is clear in it.
    pub fn signed_greatest(self) -> i64
        ensures member { Has self (cast_unsigned w64 result) }
        ensures limit { (x : ℕ) → Has self x → cast_signed w64 x ≤ℤ result }
    {
        if self.mask >= SIGN {
            (self.greatest() - SIGN).cast_signed()
        } else {
            self.greatest().cast_signed()
        }
    }
}
