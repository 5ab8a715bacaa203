//! What docs/REFUSALS.md says of the codes of images (by checks/entries.py).

ghost use Rattle.std.specs.Prelude.{IfSome};
ghost use Rattle.messages.specs.Entries.{IsEntryOf};

/// The entry of a code, if it is one of these.
pub fn entry(code: &str) -> Option<&'static str>
    ensures { IfSome result (λ text. IsEntryOf code.now text.now) }
{
    let text = match code {
        "I1" => "I1, the file does not begin with `XBP1` or `XBP2`. It is not an image:\n\
             `asm` makes one.\n\
             \n    \
             # refused I1\n    \
             # the bytes do not begin with XBP1 or XBP2\n    \
             # it is an ELF object: image.py makes an image of it\n    \
             7f454c46 0100 0200    # an ELF file\n",
        "I2" => "I2, shorter than its head (8 bytes), or than its counts say. The file \
             was\n\
             cut: make it again.\n\
             \n    \
             # refused I2\n    \
             # the image is shorter than its head, or than its counts say\n    \
             # the file was cut: make it again\n    \
             58425031 0000 0200    # two slots are announced\n    \
             b700000002000000      # and one is there\n",
        "I3" => "I3, longer than its counts say. Correct the count, or remove what \
             follows.\n\
             \n    \
             # refused I3\n    \
             # the image is longer than its counts say\n    \
             # remove what follows the last slot, or make it again\n    \
             58425031 0000 0100    # one slot is announced\n    \
             9500000000000000\n    \
             9500000000000000\n",
        "I4" => "I4, more than 16 map rows. Join maps whose keys and values have the \
             same\n\
             sizes, or remove what is not used.\n\
             \n    \
             # refused I4\n    \
             # the image has more than 16 map rows\n    \
             # join maps with the same sizes of keys and values, or remove unused \
             ones\n    \
             58425031 1100 0100    # 17 map rows\n",
        "I5" => "I5, a map row is out of its limits. The line names its index. The type \
             is\n\
             1 (hash) or 2 (array); the key has 1 to 64 bytes, and in an array 4; \
             the value\n\
             has 1 to 4,096 bytes; max_entries is 1 to 65,536. Correct the number.\n\
             \n    \
             # refused I5 map 0\n    \
             # a map row has an unknown type, or a size that is out of its limits\n    \
             # map 0\n    \
             # type 1 hash, 2 array; keys to 64 bytes, arrays 4; values to 4096, \
             entries to 65536\n    \
             58425031 0100 0100\n    \
             0200 0800 08000000 01000000    # an array whose key has 8 bytes\n    \
             9500000000000000\n",
        "I6" => "I6, no slots, or more than 4,096.\n\
             \n    \
             # refused I6\n    \
             # the image has no slots, or more than 4096\n    \
             # the least program is r0 = 2 and exit; a longer one needs fewer \
             instructions\n    \
             58425031 0000 0000\n",
        "I7" => "I7, the keys and values of all maps, each with max_entries keys, have \
             more\n\
             than 16,777,216 bytes together. Take fewer keys, or smaller values.\n\
             \n    \
             # refused I7\n    \
             # the maps together have more than 16777216 bytes of keys and values\n    \
             # take fewer entries, or smaller values\n    \
             58425031 0100 0100\n    \
             0100 4000 00100000 00000100    # 65,536 keys of 64 bytes, values of \
             4,096\n    \
             9500000000000000\n",
        "I8" => "I8, an instruction is refused. The line names its slot and a C code.\n",
        "I9" => "I9, out of memory. The program says `out of memory` with status 5 \
             instead.\n",
        "I10" => "I10, an instruction names a map that has no row. The line names its \
             slot.\n\
             Maps count from 0, and a negative index has no row either. Add the \
             row, or\n\
             correct the index.\n\
             \n    \
             # refused I10 slot 0\n    \
             # the instruction names a map that has no row\n    \
             # slot 0\n    \
             # maps are counted from 0: add the row, or correct the index\n    \
             58425031 0000 0300\n    \
             1851000000000000 0000000000000000    # r1 = map_by_idx(0)\n    \
             9500000000000000\n",
        "I11" => "I11, an instruction loads a pointer into the value of a map that is \
             not an\n\
             array with one key, or to a byte that is not within the value. Look \
             the value\n\
             up by a helper, or correct the offset.\n\
             \n    \
             # refused I11 slot 0\n    \
             # the map is no array of one entry, or the offset is not within its \
             value\n    \
             # slot 0\n    \
             # look the value up by helper 1, or correct the offset\n    \
             58425031 0100 0300\n    \
             0200 0400 08000000 01000000          # array 4 8 1\n    \
             1861000000000000 0000000008000000    # r1 = map_val(map_by_idx(0)) + 8\n    \
             9500000000000000\n",
        "C1" => "C1, fewer than 8 bytes. It comes from the crate `insn_codec` only: an\n\
             image of such a length is I2.\n",
        "C2" => "C2, an unknown opcode. Use an instruction of the RFC's tables that\n\
             docs/FORMATS.md lists; the legacy packet loads (0x20, 0x30 and others) \
             have no\n\
             replacement here except loads through a packet pointer.\n\
             \n    \
             # refused I8 slot 0 C2\n    \
             # the opcode is unknown\n    \
             # slot 0\n    \
             # no instruction begins with this byte; legacy packet loads become \
             loads by a pointer\n    \
             58425031 0000 0100\n    \
             3000000000000000      # r0 = the packet's byte 0, the legacy way\n",
        "C3" => "C3, a register over 10.\n\
             \n    \
             # refused I8 slot 0 C3\n    \
             # a register number is over 10\n    \
             # slot 0\n    \
             # registers are 0 to 10; the second byte has two, 4 bits each\n    \
             58425031 0000 0100\n    \
             b70b000002000000      # r11 = 2\n",
        "C4" => "C4, a field that the instruction does not use is not 0. Clear it.\n\
             \n    \
             # refused I8 slot 0 C4\n    \
             # a field that the instruction does not use is not 0\n    \
             # slot 0\n    \
             # set each field to 0 that the form does not use, as src_reg beside a \
             constant\n    \
             58425031 0000 0100\n    \
             9501000000000000      # exit, with dst_reg 1\n",
        "C5" => "C5, a field that selects the form has an unknown value: `offset` of a\n\
             division or a move, `imm` of a byte swap or an atomic instruction, \
             `src_reg`\n\
             of a call or a wide load.\n\
             \n    \
             # refused I8 slot 0 C5\n    \
             # the selector is unknown\n    \
             # slot 0\n    \
             # no form has this offset, imm or src_reg; a call has src_reg 0 or 1\n    \
             58425031 0000 0100\n    \
             8520000001000000      # a call with src_reg 2\n",
        "C6" => "C6, the second slot of a wide load is missing, its low four bytes are \
             not\n\
             0, or its `next_imm` is not 0 in the load of a map (`src_reg` 5).\n\
             \n    \
             # refused I8 slot 0 C6\n    \
             # the second slot of the wide load is missing, or a field that it does \
             not use is not 0\n    \
             # slot 0\n    \
             # a wide load has a second slot: 4 bytes 0, then the upper half, 0 for \
             a map, or the offset\n    \
             58425031 0000 0100\n    \
             1801000005000000      # r1 = 5 ll, without its second slot\n",
        _ => return None,
    };
    Some(text)
}
