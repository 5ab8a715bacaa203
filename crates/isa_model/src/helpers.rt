//! The helpers that programs call. bpf-helpers(7).

ghost use Rattle.std.specs.Prelude.{◌≡◌, ◌++◌, Some};
ghost use Rattle.std.specs.Option.{option_to_list};
ghost use Rattle.isa_model.specs.Code.Helpers.{helper_numbered, arguments_of};

use crate::registers::Reg;

/// A helper, by its name in `linux/bpf.h`. The arguments are in r1 to r5, the answer is in r0.
#[derive(Clone, Copy)]
pub enum Helper {
    /// (map, key): a pointer to the key's value, or 0.
    MapLookupElem,
    /// (map, key, value, flags): 0 or a negative error.
    MapUpdateElem,
    /// (map, key): 0 or a negative error.
    MapDeleteElem,
    /// (): the clock's answer.
    KtimeGetNs,
}

impl Helper {
    /// The helper of that number, if there is one.
    pub fn numbered(number: i32) -> Option<Self>
        ensures { result ≡ helper_numbered number }
    {
        match number {
            1 => Some(Helper::MapLookupElem),
            2 => Some(Helper::MapUpdateElem),
            3 => Some(Helper::MapDeleteElem),
            5 => Some(Helper::KtimeGetNs),
            _ => None,
        }
    }

    /// Its arguments: the registers that it reads.
    pub fn arguments(self) -> (Option<Reg>, Option<Reg>, Option<Reg>, Option<Reg>)
        ensures { option_to_list result.0 ++ option_to_list result.1 ++ option_to_list result.2
            ++ option_to_list result.3 ≡ arguments_of (Some self) }
    {
        match self {
            Helper::MapLookupElem | Helper::MapDeleteElem => {
                (Some(Reg::R1), Some(Reg::R2), None, None)
            }
            Helper::MapUpdateElem => (Some(Reg::R1), Some(Reg::R2), Some(Reg::R3), Some(Reg::R4)),
            Helper::KtimeGetNs => (None, None, None, None),
        }
    }
}
