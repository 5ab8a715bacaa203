//! What docs/REFUSALS.md says of the codes of texts (by checks/entries.py).

ghost use Rattle.std.specs.Prelude.{IfSome};
ghost use Rattle.messages.specs.Entries.{IsEntryOf};

/// The entry of a code, if it is one of these.
pub fn entry(code: &str) -> Option<&'static str>
    ensures { IfSome result (λ text. IsEntryOf code.now text.now) }
{
    let text = match code {
        "A1" => "A1, a byte that begins no token. Remove it; a carriage return counts, \
             and\n\
             so does a letter right after a number.\n\
             \n    \
             # refused A1 line 7 column 4\n    \
             # the byte begins no token\n    \
             # line 7 column 4\n    \
             # r0 ?= 1\n    \
             #    ^\n    \
             # outside comments stand words, signs, and numbers with no letter \
             behind them\n    \
             r0 ?= 1\n    \
             exit\n",
        "A2" => "A2, no form fits the statement. Compare it with the forms in \
             docs/TEXT.md;\n\
             the column is that of the statement's first token.\n\
             \n    \
             # refused A2 line 7 column 1\n    \
             # no form fits the statement\n    \
             # line 7 column 1\n    \
             # r0 = w1\n    \
             # ^\n    \
             # it is `r1 = r2`, `r1 = 5` or `w1 ^= w2`: registers of one width, r \
             or w\n    \
             r0 = w1\n    \
             exit\n",
        "A3" => "A3, a number out of range. A larger constant needs `ll`; a farther \
             jump\n\
             needs `gotol`; a version line says 2.\n\
             \n    \
             # refused A3 line 7 column 6\n    \
             # the number is out of range\n    \
             # line 7 column 6\n    \
             # r0 = 3000000000\n    \
             #      ^\n    \
             # from -2147483648 to 2147483647; a larger number is loaded: `r2 = \
             3000000000 ll`\n    \
             r0 = 3000000000\n    \
             exit\n",
        "A4" => "A4, a name that is defined twice. Rename one of the two.\n\
             \n    \
             # refused A4 line 8 column 1\n    \
             # the name is defined already\n    \
             # line 8 column 1\n    \
             # a:  exit\n    \
             # ^\n    \
             # give one of the two another name\n    \
             a:  r0 = 2\n    \
             a:  exit\n",
        "A5" => "A5, a name that is not defined. Define it, or correct its spelling; \
             case\n\
             counts.\n\
             \n    \
             # refused A5 line 7 column 6\n    \
             # the name is not defined\n    \
             # line 7 column 6\n    \
             # goto nowhere\n    \
             #      ^\n    \
             # a statement is named by `name:` before it; case counts\n    \
             goto nowhere\n    \
             exit\n",
        "A6" => "A6, a name too far away for the jump. Use `gotol`. It cannot come in a\n\
             text of at most 4,096 slots, and a longer one is A9.\n",
        "A7" => "A7, a map line that the program does not take, at the word `map`: it \
             comes\n\
             after an instruction, is the 17th, or is out of the limits of map \
             lines in\n\
             docs/TEXT.md#maps. Put it before the first instruction, join maps \
             whose keys\n\
             and values have the same sizes, or correct the number. If all maps \
             together\n\
             are too large, the sizes of an earlier line count too.\n\
             \n    \
             # refused A7 line 7 column 1\n    \
             # the map line comes after an instruction, is the 17th or is out of \
             the limits\n    \
             # line 7 column 1\n    \
             # map array 8 8 16\n    \
             # ^\n    \
             # at most 16 lines before all instructions; an array's keys have 4 \
             bytes, values to 4096\n    \
             map array 8 8 16\n    \
             r0 = 2\n    \
             exit\n\
             \n\
             An index that no map line has is A7 too; the column is that of the \
             index. Maps\n\
             count from 0. Add the map line, or correct the index.\n\
             \n    \
             # refused A7 line 8 column 17\n    \
             # no map line has this index\n    \
             # line 8 column 17\n    \
             # r1 = map_by_idx(1)\n    \
             #                 ^\n    \
             # maps are counted from 0, in the order of their lines\n    \
             map hash 4 8 16\n    \
             r1 = map_by_idx(1)\n    \
             exit\n",
        "A8" => "A8, out of memory. The program says `out of memory` with status 5 \
             instead.\n",
        "A9" => "A9, no instruction, or more than 4,096 slots. Write an instruction; \
             split\n\
             the work into fewer instructions.\n\
             \n    \
             # refused A9 line 1 column 1\n    \
             # the text has no instruction, or more than 4096 slots\n    \
             # line 1 column 1\n    \
             # # refused A9 line 1 column 1\n    \
             # ^\n    \
             # the least text is `r0 = 2` and `exit`\n",
        "A10" => "A10, a pointer into the value of a map that is not an array with one \
             key,\n\
             at the map's index; or to a byte that the value does not have, at the \
             offset.\n\
             Look the value up by a helper; correct the offset.\n\
             \n    \
             # refused A10 line 8 column 25\n    \
             # the map is not an array of one entry\n    \
             # line 8 column 25\n    \
             # r1 = map_val(map_by_idx(0)) + 0\n    \
             #                         ^\n    \
             # a look-up finds the value: `r1 = map_by_idx(0)`, r2 at the key, \
             `call 1`\n    \
             map hash 4 8 1\n    \
             r1 = map_val(map_by_idx(0)) + 0\n    \
             exit\n",
        "A11" => "A11, a version line that is not the first statement, at the word\n\
             `version`. Only empty statements and comments may come before it, and \
             no\n\
             label: move it to the front, or remove a second one. Behind a label in \
             the\n\
             same statement it is A2.\n\
             \n    \
             # refused A11 line 8 column 1\n    \
             # the version line is not the first statement\n    \
             # line 8 column 1\n    \
             # version 2\n    \
             # ^\n    \
             # move it to the front, before labels and map lines\n    \
             map array 4 8 1\n    \
             version 2\n    \
             exit\n",
        _ => return None,
    };
    Some(text)
}
