//! What docs/REFUSALS.md says of the codes of traps (by checks/entries.py).

ghost use Rattle.std.specs.Prelude.{IfSome};
ghost use Rattle.messages.specs.Entries.{IsEntryOf};

/// The entry of a code, if it is one of these.
pub fn entry(code: &str) -> Option<&'static str>
    ensures { IfSome result (λ text. IsEntryOf code.now text.now) }
{
    let text = match code {
        "code" => "code: no instruction begins at the slot. See G1, G2 and G3.\n\
             \n    \
             # 0 TRAP code 14 1\n    \
             # frame 0, slot 1: no instruction begins there\n    \
             # end each path by exit, and jump to where an instruction begins\n    \
             r0 = 2\n",
        "unset" => "unset: a register or a stack byte is read that was not written. See \
             V1.\n\
             \n    \
             # 0 TRAP unset 14 0\n    \
             # frame 0, slot 0: r0 = *(u64 *)(r10 - 8)\n    \
             # r10: frame pointer at 0\n    \
             # a register or a stack byte is read that was not written: write it \
             first\n    \
             r0 = *(u64 *)(r10 - 8)\n    \
             exit\n",
        "readonly" => "readonly: r10 is written. See V2.\n\
             \n    \
             # 0 TRAP readonly 14 0\n    \
             # frame 0, slot 0: r10 += -8\n    \
             # r10: frame pointer at 0\n    \
             # r10 is written, and it is read-only: copy it and change the copy\n    \
             r10 += -8\n    \
             exit\n",
        "pointer" => "pointer: arithmetic on a pointer that is not defined, or a pointer in \
             an\n\
             atomic instruction. See V3.\n\
             \n    \
             # 0 TRAP pointer 14 0\n    \
             # frame 0, slot 0: r1 *= 2\n    \
             # r1: context pointer at 0\n    \
             # stack, packet and value pointers move by += and -= of a number, at \
             64 bits\n    \
             r1 *= 2\n    \
             exit\n",
        "range" => "range: a pointer's offset leaves -536,870,912 to 536,870,912. See V4.\n\
             \n    \
             # 0 TRAP range 14 1\n    \
             # frame 0, slot 1: r2 += 536870913\n    \
             # r2: frame pointer at 0\n    \
             # a pointer moves by at most 536870912 bytes\n    \
             r2 = r10\n    \
             r2 += 536870913\n    \
             exit\n",
        "access" => "access: a place outside the stack, the packet, the context's fields \
             and\n\
             the value of a map, or the value of a key that was deleted. Test the \
             packet's\n\
             length first, as `examples/guarded.text` does.\n\
             \n    \
             # 0 TRAP access 14 1\n    \
             # frame 0, slot 1: r0 = *(u8 *)(r2 + 14)\n    \
             # r2: packet pointer at 0\n    \
             # bytes are not there: test the packet's length or a look-up's r0, or \
             correct the offset\n    \
             r2 = *(u32 *)(r1 + 0)\n    \
             r0 = *(u8 *)(r2 + 14)    # the frame has bytes 0 to 13\n    \
             exit\n",
        "compare" => "compare: a comparison that is not defined for pointers. Compare a \
             packet\n\
             pointer with the packet's end only, by `<`, `<=`, `>` or `>=`, and a \
             pointer\n\
             into a map's value with 0, by `==` or `!=`. See V13.\n\
             \n    \
             # 0 TRAP compare 14 0\n    \
             # frame 0, slot 0: if r1 == 0 goto +1\n    \
             # r1: context pointer at 0\n    \
             # compare a packet pointer with the packet end, a value pointer with \
             0, at 64 bits\n    \
             if r1 == 0 goto +1\n    \
             r0 = 2\n    \
             exit\n",
        "frames" => "frames: a ninth function is called while eight are running. Calls nest \
             at\n\
             most 8 deep, the first function included; a loop takes no call frame. \
             See V16.\n\
             \n    \
             # 0 TRAP frames 14 7\n    \
             # frame 0, slot 0: call pc-1\n    \
             # 8 functions are running: write this one's instructions in place of \
             the call\n    \
             again:  call again\n            \
             exit\n",
        "exit" => "exit: at the last exit r0 is unset, or a pointer. See V17.\n\
             \n    \
             # 0 TRAP exit 14 0\n    \
             # frame 0, slot 0: exit\n    \
             # r0: unset\n    \
             # r0 has to be a number: 0 ABORTED, 1 DROP, 2 PASS, 3 TX\n    \
             exit\n",
        "action" => "action: at the last exit of a program of version 2 the low 32 bits of \
             r0\n\
             are over 4. See V21.\n\
             \n    \
             # 0 TRAP action 14 1\n    \
             # frame 0, slot 1: exit\n    \
             # r0: number 6\n    \
             # the low half of r0 has to be 0 to 4: mask it (r0 &= 3) or test it\n    \
             version 2\n    \
             r0 = 6\n    \
             exit\n",
        "helper" => "helper: there is no such helper, or it does not take such an argument. \
             See\n\
             V14.\n\
             \n    \
             # 0 TRAP helper 14 1\n    \
             # frame 0, slot 1: call 1\n    \
             # r1: context pointer at 0\n    \
             # r2: frame pointer at 0\n    \
             # there are helpers 1, 2, 3 and 5; r1 is a map, r2 points to a key, r3 \
             to a value\n    \
             r2 = r10\n    \
             call 1                   # r1 is the context, not a map\n    \
             exit\n\
             \n\
             `<number> LIMIT <length> <limit>` is not a trap: the run was stopped \
             at the\n\
             limit of steps. Give more with `--limit`, up to 1,000,000, or see V18 \
             and V19.\n\
             \n    \
             $ xdpvm trace examples/endless.image examples/cut.frames sent.frames \
             --limit 100 2>&1\n    \
             0 LIMIT 14 100\n    \
             fault F2 at 38\n    \
             the stream ends within the head of a record\n    \
             the file was cut: make it again\n    \
             frame 0, slot 1: goto -1\n    \
             the limit of steps is reached: give more by --limit, or end a loop\n",
        _ => return None,
    };
    Some(text)
}
