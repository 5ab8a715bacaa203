//! What docs/REFUSALS.md says of the codes of the verifier (by checks/entries.py).

ghost use Rattle.std.specs.Prelude.{IfSome};
ghost use Rattle.messages.specs.Entries.{IsEntryOf};

/// The entry of a code, if it is one of these.
pub fn entry(code: &str) -> Option<&'static str>
    ensures { IfSome result (λ text. IsEntryOf code.now text.now) }
{
    let text = match code {
        "V0" => "V0, out of memory: `out of memory` with status 5. Verifying stores a \
             state\n\
             at each jump target that it comes to; see \
             docs/PERFORMANCE.md#verifying.\n",
        "V1" => "V1, a register is read that may be unset. Set it on every path that \
             leads\n\
             here.\n\
             \n    \
             # refused V1 slot 4\n    \
             # a register is read that may be unset\n    \
             # slot 4: r0 = r3\n    \
             # r3: unset\n    \
             # set r3 on every path that leads here\n    \
             # way: 2 -> 4\n            \
             r2 = *(u32 *)(r1 + 12)\n            \
             r0 = 1\n            \
             if r2 == 0 goto skip\n            \
             r3 = 2                # not set where the jump is taken\n    \
             skip:   r0 = r3\n            \
             exit\n",
        "V2" => "V2, r10 is written. It is the frame pointer, and read-only: copy it \
             (`r2 =\n\
             r10`) and change the copy.\n\
             \n    \
             # refused V2 slot 0\n    \
             # r10 is written, and it is read-only\n    \
             # slot 0: r10 += -8\n    \
             # r10: frame pointer at 0\n    \
             # copy it and change the copy: r2 = r10\n    \
             r10 += -8\n    \
             r0 = 2\n    \
             exit\n",
        "V3" => "V3, arithmetic that is not defined for a pointer, or a pointer as the\n\
             operand of an atomic instruction. Defined are copies by `=` at 64 \
             bits, and\n\
             for pointers into the stack, the packet and map values `+=` and `-=` \
             of a\n\
             number at 64 bits (V4 says which numbers). Load the number first, and \
             compute\n\
             with that.\n\
             \n    \
             # refused V3 slot 0\n    \
             # the operation is not defined for a pointer\n    \
             # slot 0: r1 += 12\n    \
             # r1: context\n    \
             # the context takes no arithmetic: load with an offset: r2 = *(u32 \
             *)(r1 + 12)\n    \
             r1 += 12\n    \
             r0 = 2\n    \
             exit\n",
        "V4" => "V4, a pointer's offset may leave -536,870,912 to 536,870,912, or a \
             frame\n\
             pointer is moved by a number that is not constant. Move frame pointers \
             by\n\
             constants.\n\
             \n    \
             # refused V4 slot 2\n    \
             # the offset may leave its limit, or a frame pointer moves by a \
             variable number\n    \
             # slot 2: r2 += r3\n    \
             # r2: frame pointer at 0\n    \
             # r3: number 0 to 4294967295\n    \
             # a frame pointer moves by constants: keep what a number selects in a \
             map's value\n    \
             r2 = r10\n    \
             r3 = *(u32 *)(r1 + 16)\n    \
             r2 += r3\n    \
             r0 = 2\n    \
             exit\n",
        "V5" => "V5, a load or store through a number, or through a pointer to a map or \
             to\n\
             the packet's end. Use a pointer to memory: for the context that is r1, \
             for the\n\
             stack r10, for the value of an array with one key `map_val`.\n\
             \n    \
             # refused V5 slot 1\n    \
             # the load or store does not go through a pointer to memory\n    \
             # slot 1: r0 = *(u8 *)(r2 + 0)\n    \
             # r2: number 4096\n    \
             # a number is no address, and 0 is a look-up that found nothing: use a \
             pointer, or the other branch\n    \
             r2 = 4096\n    \
             r0 = *(u8 *)(r2 + 0)\n    \
             exit\n",
        "V6" => "V6, a place on the stack outside the function's 512 bytes, `r10 - 512` \
             to\n\
             `r10 - 1`, or at an offset that is not a multiple of the access's \
             size.\n\
             Correct the offset.\n\
             \n    \
             # refused V6 slot 0\n    \
             # the stack access is outside the frame's 512 bytes, or not aligned to \
             its size\n    \
             # slot 0: *(u64 *)(r10 - 4) = 1\n    \
             # r10: frame pointer at 0\n    \
             # needs bytes -4 to 3, and the first at a multiple of 8; a frame has \
             bytes -512 to -1\n    \
             *(u64 *)(r10 - 4) = 1\n    \
             r0 = 2\n    \
             exit\n",
        "V7" => "V7, stack bytes are read that may be unwritten, or a part of a stored\n\
             pointer is read. Write the bytes first, on every path that leads here; \
             read a\n\
             pointer back with 8 bytes.\n\
             \n    \
             # refused V7 slot 1\n    \
             # stack bytes are read that may be unwritten, or a part of a stored \
             pointer\n    \
             # slot 1: r0 = *(u64 *)(r10 - 8)\n    \
             # r10: frame pointer at 0\n    \
             # write the bytes first; read a stored pointer whole, with 8 bytes, \
             and one to a value before a delete\n    \
             # stack -8: written bytes -8 -7 -6 -5\n    \
             *(u32 *)(r10 - 8) = 5\n    \
             r0 = *(u64 *)(r10 - 8)\n    \
             exit\n",
        "V8" => "V8, a load or store of the context other than the four 4-byte loads, \
             at 0\n\
             (the packet's beginning), 4 (its end), 12 (interface) and 16 (queue).\n\
             \n    \
             # refused V8 slot 0\n    \
             # the context has only 4-byte loads at 0, 4, 12 and 16\n    \
             # slot 0: r2 = *(u32 *)(r1 + 8)\n    \
             # r1: context\n    \
             # load 4 bytes: r2 = *(u32 *)(r1 + 0) is the packet, + 4 its end, + 12 \
             the interface, + 16 the queue\n    \
             r2 = *(u32 *)(r1 + 8)\n    \
             r0 = 2\n    \
             exit\n",
        "V9" => "V9, packet bytes that are not proved to be there. Compare a pointer \
             with\n\
             the packet's end first (docs/GUIDE.md#reading-the-packet).\n\
             \n    \
             # refused V9 slot 1\n    \
             # the packet bytes are not proved to be there\n    \
             # slot 1: r0 = *(u8 *)(r2 + 0)\n    \
             # r2: packet pointer at 0, 0 bytes proved\n    \
             # needs bytes 0 to 0; 0 are proved: test before this, and after the \
             last move of r2: r5 = r2; r5 += 1; if r5 > packet end goto short\n    \
             r2 = *(u32 *)(r1 + 0)\n    \
             r0 = *(u8 *)(r2 + 0)\n    \
             exit\n",
        "V10" => "V10, bytes that are not proved to lie in the map's value, whose size \
             is\n\
             the second number of the map line. Limit a number before it is added \
             to the\n\
             pointer, as by `r2 &= 7`, and access no byte past the value's size.\n\
             \n    \
             # refused V10 slot 2\n    \
             # the bytes are not proved to be in the map's value\n    \
             # slot 2: r0 = *(u64 *)(r1 + 0)\n    \
             # r1: value of map 0 at 4\n    \
             # needs bytes 4 to 11; the value has 8: correct the offset, or limit \
             it (r2 &= 7)\n    \
             map array 4 8 1\n    \
             r1 = map_val(map_by_idx(0)) + 4\n    \
             r0 = *(u64 *)(r1 + 0)\n    \
             exit\n",
        "V11" => "V11, the answer of a look-up is used before its null test. It may be\n\
             copied, kept on the stack with 8 bytes, and compared with 0 by `==` or \
             `!=` at\n\
             64 bits; on the branch where it is not 0 it may then be used.\n\
             \n    \
             # refused V11 slot 6\n    \
             # the pointer may be null, and is used before its null test\n    \
             # slot 6: r0 = *(u64 *)(r0 + 0)\n    \
             # r0: value of map 0, null not tested\n    \
             # test it first, as by if r0 == 0 goto .., and use it where it is not \
             0\n    \
             map hash 4 8 16\n    \
             *(u32 *)(r10 - 4) = 1\n    \
             r1 = map_by_idx(0)\n    \
             r2 = r10\n    \
             r2 += -4\n    \
             call 1\n    \
             r0 = *(u64 *)(r0 + 0)    # after `if r0 == 0 goto ..` it is accepted\n    \
             exit\n",
        "V12" => "V12, a pointer is stored with fewer than 8 bytes, or into the packet \
             or a\n\
             map's value. Store it with 8 bytes on the stack, or do not store it.\n\
             \n    \
             # refused V12 slot 0\n    \
             # a pointer is stored in part or off the stack, or a frame pointer in \
             an outer one\n    \
             # slot 0: *(u32 *)(r10 - 8) = r1\n    \
             # r10: frame pointer at 0\n    \
             # r1: context\n    \
             # store it with 8 bytes into the function's own stack: *(u64 *)(r10 - \
             8) = r1\n    \
             *(u32 *)(r10 - 8) = r1\n    \
             r0 = 2\n    \
             exit\n\
             \n\
             Or a function stores a pointer to the bytes of a call frame in those \
             of a\n\
             caller. It may store it in its own.\n\
             \n    \
             # refused V12 slot 4\n    \
             # a pointer is stored in part or off the stack, or a frame pointer in \
             an outer one\n    \
             # slot 4: *(u64 *)(r1 + 0) = r10\n    \
             # r1: frame pointer at -8, 1 call up\n    \
             # r10: frame pointer at 0\n    \
             # store it with 8 bytes into the function's own stack: *(u64 *)(r10 - \
             8) = r1\n    \
             # way: 2 -> 4\n            \
             r1 = r10\n            \
             r1 += -8\n            \
             call keep\n            \
             exit\n    \
             keep:   *(u64 *)(r1 + 0) = r10\n            \
             r0 = 2\n            \
             exit\n",
        "V13" => "V13, a comparison that is not defined for pointers. Two are, both at \
             64\n\
             bits: a packet pointer with the packet's end, by `<`, `<=`, `>` or \
             `>=`; and a\n\
             pointer into a map's value with the constant 0, by `==` or `!=`.\n\
             \n    \
             # refused V13 slot 1\n    \
             # the comparison is not defined for a pointer\n    \
             # slot 1: if r10 == 0 goto +1\n    \
             # r10: frame pointer at 0\n    \
             # compare a packet pointer with the packet end by < <= > >=, a value \
             pointer with 0, at 64 bits\n            \
             r0 = 1\n            \
             if r10 == 0 goto done\n            \
             r0 = 2\n    \
             done:   exit\n",
        "V14" => "V14, no such helper, or an argument of the wrong kind. There are \
             helpers\n\
             1, 2, 3 and 5. r1 is a map (`map_by_idx`); r2, and r3 of helper 2, \
             point into\n\
             the stack, the packet or a map's value; r4 of helper 2 is a number.\n\
             \n    \
             # refused V14 slot 2\n    \
             # there is no such helper, or it does not take such an argument\n    \
             # slot 2: call 1\n    \
             # r1: frame pointer at 0\n    \
             # r2: frame pointer at 0\n    \
             # r1 has to be a map: r1 = map_by_idx(0)\n    \
             r1 = r10\n    \
             r2 = r10\n    \
             call 1\n    \
             exit\n",
        "V15" => "V15, the bytes of a helper's key or value are not all there, or not \
             all\n\
             written number bytes. The sizes are those of the map line. Write all \
             bytes\n\
             first, and point to the lowest of them.\n\
             \n    \
             # refused V15 slot 4\n    \
             # the helper's key or value bytes are not all there and written\n    \
             # slot 4: call 1\n    \
             # r1: map 0\n    \
             # r2: frame pointer at -4\n    \
             # a key of map 0 has 4 bytes, a value 8: write all of them to the \
             stack first, and point to the lowest\n    \
             # stack -8: unset\n    \
             map hash 4 8 1\n    \
             r1 = map_by_idx(0)\n    \
             r2 = r10\n    \
             r2 += -4\n    \
             call 1\n    \
             exit\n",
        "V16" => "V16, a ninth call frame: eight are live already, the program's own\n\
             included. Write a function's instructions in place of its call. If a \
             function\n\
             calls itself, test a number that is known and falls with each call.\n\
             \n    \
             # refused V16 slot 0\n    \
             # the call makes a ninth frame, and 8 may be live\n    \
             # slot 0: call pc-1\n    \
             # write the function's instructions in place of the call; in place of \
             a recursion, a loop\n    \
             # way: 0 -> 0, 7 times\n    \
             again:  call again\n            \
             exit\n",
        "V17" => "V17, at the last exit r0 is unset, or a pointer. Put the action into \
             r0: 0\n\
             ABORTED, 1 DROP, 2 PASS, 3 TX.\n\
             \n    \
             # refused V17 slot 1\n    \
             # r0 is no number at the last exit, or points into the frame that ends\n    \
             # slot 1: exit\n    \
             # r0: context\n    \
             # r0 has to be a number: 0 ABORTED, 1 DROP, 2 PASS, 3 TX\n    \
             r0 = r1\n    \
             exit\n\
             \n\
             Or a function that was called returns a pointer to its own bytes, \
             which are\n\
             gone then. Pass it a pointer to its caller's bytes, and let it write \
             there. It\n\
             may return anything else.\n",
        "V18" => "V18, a path comes back to a state that it was in: the loop has no end.\n\
             Change a register in the loop that its test reads. Above the limits of\n\
             docs/DECISIONS.md#verifier states are no longer compared, and V19 \
             comes in its\n\
             place.\n\
             \n    \
             # refused V18 slot 2\n    \
             # a path comes back to a state that it was in: the loop has no end\n    \
             # slot 2: if r2 != 7 goto -1\n    \
             # r2: number 0 to 4294967295\n    \
             # change a register in the loop that its test reads\n    \
             # way: 2 -> 2\n            \
             r0 = 2\n            \
             r2 = *(u32 *)(r1 + 12)\n    \
             loop:   if r2 != 7 goto loop\n            \
             exit\n",
        "V19" => "V19, more than 1,000,000 instructions would have to be explored. Limit \
             the\n\
             number that the loop counts to (`r2 &= 15`), make the loop shorter, or \
             let\n\
             paths meet with the same knowledge (docs/GUIDE.md#loops). A state that \
             another\n\
             one covers is not explored again, below the limits of\n\
             docs/DECISIONS.md#verifier.\n\
             \n    \
             # refused V19 slot 4\n    \
             # more than 1000000 instructions would have to be explored\n    \
             # slot 4: if r3 < r2 goto -2\n    \
             # r3: number 333333\n    \
             # r2: number 333333 to 4294967295\n    \
             # slots 3 to 4 are taken again and again, 333333 times on this path: \
             limit what ends that (r2 &= 15)\n    \
             # r2 from turn to turn: number 333332 to 4294967295, then number \
             333333 to 4294967295\n    \
             # r3 from turn to turn: number 333332, then number 333333\n    \
             # way: 4 -> 3, 8 times\n    \
             # states were no longer stored: those before had taken 15000000 words \
             of 8 bytes\n            \
             r2 = *(u32 *)(r1 + 12)\n            \
             r0 = 2\n            \
             r3 = 0\n    \
             loop:   r3 += 1\n            \
             if r3 < r2 goto loop\n            \
             exit\n",
        "V20" => "V20, an atomic instruction on the context or the packet. Load, compute \
             and\n\
             store instead.\n\
             \n    \
             # refused V20 slot 6\n    \
             # the atomic instruction is on the context or the packet\n    \
             # slot 6: lock *(u64 *)(r2 + 0) += r5\n    \
             # r2: packet pointer at 0, 8 bytes proved\n    \
             # r5: number 1\n    \
             # load, compute and store instead\n            \
             r2 = *(u32 *)(r1 + 0)\n            \
             r3 = *(u32 *)(r1 + 4)\n            \
             r4 = r2\n            \
             r4 += 8\n            \
             if r4 > r3 goto short\n            \
             r5 = 1\n            \
             lock *(u64 *)(r2 + 0) += r5\n            \
             r0 = 2\n            \
             exit\n    \
             short:  r0 = 1\n            \
             exit\n",
        "V21" => "V21, at the last exit of a program of version 2 the low 32 bits of r0 \
             are\n\
             not proved to be 0 to 4, an action. Known bits have to show that, or \
             limits of\n\
             all 64 bits or of the low half. Mask it (`r0 &= 3`), or test it (`if \
             w0 > 4\n\
             goto drop`).\n\
             \n    \
             # refused V21 slot 2\n    \
             # r0 is not proved to name an action at the last exit of a version 2 \
             program\n    \
             # slot 2: exit\n    \
             # r0: number 0 to 7\n    \
             # low half of r0: 0 to 7; actions are 0 to 4: mask it (r0 &= 3) or \
             test it\n    \
             version 2\n    \
             r0 = *(u32 *)(r1 + 12)\n    \
             r0 &= 7\n    \
             exit\n",
        _ => return None,
    };
    Some(text)
}
