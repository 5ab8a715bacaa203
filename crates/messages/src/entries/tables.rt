//! What docs/REFUSALS.md says of the codes of proof tables (by checks/entries.py).

ghost use Rattle.std.specs.Prelude.{IfSome};
ghost use Rattle.messages.specs.Entries.{IsEntryOf};

/// The entry of a code, if it is one of these.
pub fn entry(code: &str) -> Option<&'static str>
    ensures { IfSome result (λ text. IsEntryOf code.now text.now) }
{
    let text = match code {
        "P1" => "P1, the bytes do not begin with `XPT1`. It is not a proof table; see \
             that\n\
             IMAGE comes before TABLE.\n\
             \n    \
             # refused P1\n    \
             # the bytes do not begin with XPT1\n    \
             # make the table anew: xdpvm prove IMAGE TABLE\n    \
             58425031 0000 0200\n",
        "P2" => "P2, fewer bytes than the head has, or than the entries have. The file \
             was\n\
             cut, or the count is wrong.\n\
             \n    \
             # refused P2\n    \
             # the table is shorter than its head, or than its entries\n    \
             # make the table anew: xdpvm prove IMAGE TABLE\n    \
             58505431 01000000 02000000\n",
        "P3" => "P3, there are bytes after the last entry. Remove them, or correct the\n\
             count.\n\
             \n    \
             $ (cat examples/pass.table; echo) > longer.table\n    \
             $ xdpvm recheck examples/pass.image longer.table 2>&1\n    \
             refused P3\n    \
             the table is longer than its entries\n    \
             make the table anew: xdpvm prove IMAGE TABLE\n    \
             xdpvm explain P3 says more\n",
        "P4" => "P4, the count of entries is 0 or over 1,000,000.\n\
             \n    \
             # refused P4\n    \
             # the table has no entries, or more than 1000000\n    \
             # make the table anew: xdpvm prove IMAGE TABLE\n    \
             58505431 00000000\n",
        "P5" => "P5, a field of the entry has no meaning or is not allowed. Entries \
             count\n\
             from 0. A table that `prove` wrote for another program may have it \
             too, if\n\
             this program does not have its slots or maps.\n\
             \n    \
             # refused P5 entry 1\n    \
             # a field of the entry has a value that is not allowed\n    \
             # entry 1\n    \
             # make the table anew: xdpvm prove IMAGE TABLE\n    \
             entry 2 slot 0 to 1\n      \
             r1 context\n    \
             entry 0 slot 1                  # the number is not from 1 to \
             1,000,000\n      \
             r0 number 2\n",
        "P6" => "P6, entry 0 does not cover the start of a run: slot 0, one call frame, \
             the\n\
             context in r1, and nothing else is known. It may say less than that, \
             but not\n\
             more.\n\
             \n    \
             # refused P6\n    \
             # the first entry does not cover the start of a run\n    \
             # make the table anew: xdpvm prove IMAGE TABLE\n    \
             entry 2 slot 0 to 1\n      \
             r1 context\n      \
             r2 number                     # r2 is unset at the start\n    \
             entry 1 slot 1\n      \
             r0 number 2\n",
        "P7" => "P7, the entry's step is refused, with its V code. Standard error has \
             the\n\
             slot and the instruction, the sentence of that code, and what the \
             entry says\n\
             of the registers that are read.\n\
             \n    \
             # refused P7 entry 1 V17\n    \
             # the step of the entry is refused\n    \
             # entry 1\n    \
             # slot 1: exit\n    \
             # r0 is no number at the last exit, or points into the frame that ends\n    \
             # r0: unset\n    \
             entry 2 slot 0 to 1\n      \
             r1 context\n    \
             entry 1 slot 1\n      \
             r1 context\n",
        "P8" => "P8, the entries that are named do not fit the successors. There are \
             more\n\
             or fewer than the step has; or one is not there, has a number that is \
             not\n\
             smaller, or does not cover its successor. Standard error says which, \
             with the\n\
             first register or stack slot that is not covered, as it is after the \
             step and\n\
             as the entry has it. Slots, the count of call frames and the slots to \
             which\n\
             these return are compared before. Successors count from 0, the \
             fall-through\n\
             first.\n\
             \n    \
             # refused P8 entry 0\n    \
             # the named entries do not cover its successors, or their numbers are \
             not smaller\n    \
             # entry 0\n    \
             # slot 0: r0 = 2\n    \
             # successor 0: entry 1 does not cover r0\n    \
             # after the step: number 2\n    \
             # in the entry: number 0 to 1\n    \
             entry 2 slot 0 to 1\n      \
             r1 context\n    \
             entry 1 slot 1\n      \
             r0 number 0 mask 1 u 0..1 s 0..1 lu 0..1 ls 0..1\n\
             \n    \
             # refused P8 entry 0\n    \
             # the named entries do not cover its successors, or their numbers are \
             not smaller\n    \
             # entry 0\n    \
             # slot 0: r0 = 2\n    \
             # successor 0: entry 1 has number 1, not smaller than 1\n    \
             entry 1 slot 0 to 1\n      \
             r1 context\n    \
             entry 1 slot 1\n      \
             r0 number 2\n",
        "P9" => "P9, out of memory. The program prints `out of memory`, status 5.\n",
        "P10" => "P10, the program was accepted and could not be explored again for its\n\
             table. Both searches do the same, and no program is known that gets \
             P10;\n\
             callers of `proof_table::write_table` have to allow for it.\n",
        "P11" => "P11, the table could not be written. The program prints `cannot write` \
             and\n\
             the path, status 4; the file has a beginning of the table. Make room, \
             and\n\
             prove again.\n",
        _ => return None,
    };
    Some(text)
}
