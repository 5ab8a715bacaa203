//! Sign extensions of low bits.

ghost use Rattle.std.specs.Prelude.{◌≡◌, ℕ, ℤ, ◌+◌, ◌%◌, ◌^◌, ◌<◌, ◌≤ℤ◌, ◌↔◌, FitsSigned, IsTrue};
ghost use Rattle.isa_model.specs.Code.Sizes.{width_bits, extension_bits, extension_width};
ghost use Rattle.isa_model.specs.Code.Numbers.{sign_extended};
ghost use Rattle.ranges.specs.Keeps.{extension_signed};
ghost use Rattle.ranges.specs.Wides.{Has};

use crate::low::Low;
use crate::range::Range;
use crate::wide::Wide;
use isa_model::{Extension, Width, numbers};

impl Range {
    ghost use Rattle.ranges.specs.Ranges as R;
    ghost use Rattle.ranges.specs.Wides as W;
    ghost use Rattle.ranges.specs.Lows as L;

    /// The low bits of the numbers, sign-extended.
    pub fn sign_extend(extension: Extension, a: Self) -> Self
        ensures contains { (x : ℕ) → R.Has a x → R.Has result (sign_extended extension x) }
        ensures exact { (u : ℕ) → R.IsConstant a u
            → R.IsConstant result (sign_extended extension u) }
        ensures fits { result.wide.greatest < 2 ^ width_bits (extension_width extension) }
        ensures small { a.wide.greatest + a.wide.greatest < 2 ^ extension_bits extension
            → W.IsBetween result.wide a.wide.least a.wide.greatest }
        ensures signed { (x : ℕ) → R.Has a x → extension_width extension ≡ Width.Full64
            → W.IsSignedOf (extension_signed extension) result.wide }
        ensures kept { (x : ℕ) → R.Has a x → extension_width extension ≡ Width.Full64
            → W.IsSignedOf (extension_signed extension) a.wide → R.Encloses a result }
        ensures low_signed { (x : ℕ) → R.Has a x
            → L.IsSignedOf (extension_signed extension) result.low }
        ensures low_kept { (x : ℕ) → R.Has a x → L.IsSignedOf (extension_signed extension) a.low
            → L.Encloses a.low result.low }
        ensures tight { (x : ℕ) → R.Has a x → R.IsTight result }
    {
        if a.wide.least == a.wide.greatest {
            return Range::constant(numbers::sign_extend(extension, a.wide.least));
        }
        Range {
            wide: Wide::sign_extend(extension, a.wide),
            low: a.low_extended(extension),
        }
        .settled()
    }

    // The low halves of the extended numbers.
    fn low_extended(self, extension: Extension) -> Low
        ensures contains { (x : ℕ) → R.Has self x
            → L.Has result (sign_extended extension x % 2 ^ 32) }
        ensures signed { (x : ℕ) → R.Has self x
            → L.IsSignedOf (extension_signed extension) result }
        ensures kept { L.IsSignedOf (extension_signed extension) self.low
            → L.Encloses self.low result }
        ensures same { extension_width extension ≡ Width.Full64
            → W.IsSignedOf (extension_signed extension) self.wide → L.Encloses self.low result }
    {
        let extended = self.low.extended(extension);
        if self.wide.is_extended(extension) {
            self.low.with(extended)
        } else {
            extended
        }
    }
}

impl Wide {
    ghost use Rattle.ranges.specs.Wides.{IsConstant, IsBetween, IsSignedOf, Encloses};

    // The low bits of the numbers, sign-extended.
    pub(crate) fn sign_extend(extension: Extension, a: Self) -> Self
        ensures contains { (x : ℕ) → Has a x → Has result (sign_extended extension x) }
        ensures exact { (u : ℕ) → IsConstant a u → IsConstant result (sign_extended extension u) }
        ensures fits { result.greatest < 2 ^ width_bits (extension_width extension) }
        ensures small { a.greatest + a.greatest < 2 ^ extension_bits extension
            → IsBetween result a.least a.greatest }
        ensures signed { (x : ℕ) → Has a x → extension_width extension ≡ Width.Full64
            → IsSignedOf (extension_signed extension) result }
        ensures kept { (x : ℕ) → Has a x → extension_width extension ≡ Width.Full64
            → IsSignedOf (extension_signed extension) a → Encloses a result }
    {
        if a.least == a.greatest {
            return Wide::constant(numbers::sign_extend(extension, a.least));
        }
        let extended = all_extended(extension);
        if a.is_extended(extension) {
            a.with(extended)
        } else {
            extended
        }
    }

    // Whether the limits show that the extension changes none of the numbers.
    pub(crate) fn is_extended(self, extension: Extension) -> bool
        ensures sound { IsTrue result → (x : ℕ) → Has self x → sign_extended extension x ≡ x }
        ensures fits { IsTrue result → self.greatest < 2 ^ width_bits (extension_width extension) }
        ensures small { self.greatest + self.greatest < 2 ^ extension_bits extension
            → IsTrue result }
        ensures signed { extension_width extension ≡ Width.Full64
            → IsSignedOf (extension_signed extension) self
            → IsTrue result }
    {
        if self.greatest < sign_bit_read(extension) {
            return true;
        }
        match width_made(extension) {
            Width::Low32 => false,
            Width::Full64 => {
                let all = all_extended(extension);
                all.signed_least <= self.signed_least && self.signed_greatest <= all.signed_greatest
            }
        }
    }
}

// All numbers that the extension may result in.
fn all_extended(extension: Extension) -> Wide
    ensures contains { (x : ℕ) → Has result (sign_extended extension x) }
    ensures fits { result.greatest < 2 ^ width_bits (extension_width extension) }
    ensures signed { extension_width extension ≡ Width.Full64 → (z : ℤ)
        → ((result.signed_least ≤ℤ z) × (z ≤ℤ result.signed_greatest)
        ↔ FitsSigned (extension_signed extension) z) }
{
    match extension {
        Extension::Full8 => Wide::signed_between(-0x80, 0x7f),
        Extension::Full16 => Wide::signed_between(-0x8000, 0x7fff),
        Extension::Full32 => Wide::signed_between(-0x8000_0000, 0x7fff_ffff),
        Extension::Low8 => Wide::any(Width::Low32),
        Extension::Low16 => Wide::any(Width::Low32),
    }
}

fn width_made(extension: Extension) -> Width
    ensures { result ≡ extension_width extension }
{
    match extension {
        Extension::Low8 | Extension::Low16 => Width::Low32,
        _ => Width::Full64,
    }
}

// The sign bit of the bits that are read, as a number.
fn sign_bit_read(extension: Extension) -> u64
    ensures { result + result ≡ 2 ^ extension_bits extension }
{
    match extension {
        Extension::Low8 | Extension::Full8 => 0x80,
        Extension::Low16 | Extension::Full16 => 0x8000,
        Extension::Full32 => 0x8000_0000,
    }
}
