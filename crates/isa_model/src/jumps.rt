//! The targets of jumps and local calls. RFC 9669, section 4.3.

ghost use Rattle.std.specs.Prelude.{◌≡◌, ◌<◌, ◌^◌, unwrap_or};
ghost use Rattle.isa_model.specs.Machine.Steps.{target};

/// The slot at a distance from an instruction at `slot`, in a program of `slots` slots: distances
/// count from the slot after the instruction. For one before slot 0 `slots` is returned, where no
/// instruction begins.
pub fn destination(slot: usize, by: i32, slots: usize) -> usize
    requires { slot < 2 ^ 63 }
    ensures { result ≡ unwrap_or (target slot by) slots }
{
    let to = slot as i128 + 1 + i128::from(by);
    if to < 0 { slots } else { to as usize }
}
