//! What docs/REFUSALS.md says of the codes of control flow (by checks/entries.py).

ghost use Rattle.std.specs.Prelude.{IfSome};
ghost use Rattle.messages.specs.Entries.{IsEntryOf};

/// The entry of a code, if it is one of these.
pub fn entry(code: &str) -> Option<&'static str>
    ensures { IfSome result (λ text. IsEntryOf code.now text.now) }
{
    let text = match code {
        "G1" => "G1, a jump or a call leads outside the code. A distance counts from \
             the\n\
             slot after the jump; a name is safer.\n\
             \n    \
             # refused G1 slot 1\n    \
             # the jump or call leads outside the code\n    \
             # slot 1: goto +3\n    \
             # it leads to slot 5, and the code has slots 0 to 2: count from the \
             slot after it, or use a name\n    \
             r0 = 2\n    \
             goto +3\n    \
             exit\n",
        "G2" => "G2, a jump or a call leads into the second half of a wide load, which\n\
             fills two slots. Use a name, or count it twice.\n\
             \n    \
             # refused G2 slot 1\n    \
             # the jump or call leads into the second half of a wide load\n    \
             # slot 1: if r0 > 1 goto +1\n    \
             # it leads to slot 3, the second half of what begins at slot 2: count \
             that twice, or use a name\n    \
             r0 = 2\n    \
             if r0 > 1 goto +1\n    \
             r1 = 5 ll\n    \
             exit\n",
        "G3" => "G3, the last instruction of a function falls through. End the function \
             by\n\
             `exit` or a jump; a call falls through, too.\n\
             \n    \
             # refused G3 slot 1\n    \
             # the last instruction of the function falls through\n    \
             # slot 1: r0 += 1\n    \
             # the code ends after it: end the function by exit or a jump\n    \
             r0 = 2\n    \
             r0 += 1\n",
        "G4" => "G4, no path leads from slot 0 to the instruction. Remove it, or jump \
             to\n\
             it.\n\
             \n    \
             # refused G4 slot 2\n    \
             # no path leads from slot 0 to the instruction\n    \
             # slot 2: r0 = 1\n    \
             # neither what is before it nor a jump or call leads here: remove it, \
             or jump to it\n    \
             r0 = 2\n    \
             exit\n    \
             r0 = 1\n    \
             exit\n",
        "G5" => "G5, a jump leads from one function into another. A function begins at \
             slot\n\
             0 and at the target of each call, and ends before the next one: jump \
             within\n\
             it, or call.\n\
             \n    \
             # refused G5 slot 0\n    \
             # the jump leads into another function\n    \
             # slot 0: goto +2\n    \
             # it leads to slot 3, in the function from slot 3 on (called at slot \
             1), and is in that from slot 0 on: jump within one, or call\n            \
             goto inner\n            \
             call inner\n            \
             exit\n    \
             inner:  r0 = 2\n            \
             exit\n",
        "G6" => "G6, out of memory: `out of memory` with status 5.\n",
        _ => return None,
    };
    Some(text)
}
