//! The hint for a text that is refused: a sentence for each case.

ghost use Rattle.std.specs.Prelude.{◌≡◌, false, map};
ghost use Rattle.assembler.specs.Hints.{begins, has, has_any, hint, hint_in, is_found, lent_row, lent_word, no_form};

use super::errors::AsmErrorKind;

/// Says where words are sought. The front has the bytes of the line before the column, the back
/// those from there on.
#[derive(Clone, Copy)]
pub enum WhereSought {
    FrontBegins,
    FrontHas,
    BackBegins,
    BackHas,
}

/// Where words are sought, the words, and the hint if one of them is there.
pub type HintRow = (WhereSought, &'static [&'static [u8]], &'static str);

/// The hints for a byte that begins no token.
pub const UNKNOWN_BYTE: &[HintRow] = &[
    (
        WhereSought::FrontBegins,
        &[b"XBP1", b"XBP2"],
        "the file begins as an image does: `xdpvm dis` prints its text",
    ),
    (
        WhereSought::FrontBegins,
        &[b"XPF1", b"XPF2"],
        "the file begins as a frame stream does: `xdpvm run` reads it beside an image",
    ),
    (
        WhereSought::FrontBegins,
        &[b"XPT1"],
        "the file begins as a proof table does: `xdpvm recheck` reads it beside an image",
    ),
    (
        WhereSought::BackBegins,
        &[b"\x7fELF"],
        "the file is an ELF object: `tools/image.py` makes an image of it",
    ),
    (
        WhereSought::BackBegins,
        &[b"\r"],
        "a carriage return: lines end in a line feed alone (`tr -d '\\r'` removes it)",
    ),
    (
        WhereSought::BackBegins,
        &[b"\xef\xbb\xbf"],
        "a byte-order mark: save the text without it",
    ),
    (
        WhereSought::BackBegins,
        &[b"//", b"/*"],
        "a comment begins with #, and ends with the line",
    ),
    (
        WhereSought::BackBegins,
        &[b"."],
        "there are no directives such as .section",
    ),
    (
        WhereSought::BackBegins,
        &[b"[", b"]"],
        "memory has a size and parentheses: *(u32 *)(r1 + 4)",
    ),
    (
        WhereSought::BackBegins,
        &[b"/", b"%", b"|", b"^", b"!"],
        "the sign stands only with = behind it: r1 |= r2, if r1 != 3 goto +1",
    ),
];

/// The hints for a statement that begins with no register and no `*`, as a jump and a call.
pub const NO_JUMP: &[HintRow] = &[
    (
        WhereSought::BackBegins,
        &[b"if"],
        "a test is `if r1 > 3 goto name` or `if w1 == w2 goto +2`",
    ),
    (
        WhereSought::BackBegins,
        &[b"goto"],
        "a jump is `goto name` or `goto +3`",
    ),
    (
        WhereSought::BackBegins,
        &[b"call"],
        "a call is `call name`, `call pc+2` or, of a helper, `call 1`",
    ),
    (
        WhereSought::BackBegins,
        &[b"exit"],
        "`exit` stands alone; r0 is what it answers",
    ),
    (
        WhereSought::BackBegins,
        &[b"lock"],
        "it is `lock *(u64 *)(r1 + 0) += r2`, with += |= &= ^= and u32 or u64",
    ),
    (
        WhereSought::BackBegins,
        &[b"version"],
        "the version line is `version 2`, with nothing else",
    ),
    (
        WhereSought::BackBegins,
        &[b"map "],
        "it is `map hash 4 8 16`: bytes of a key, of a value, entries; no commas",
    ),
];

/// The hints for a statement that begins with a register.
pub const NO_ASSIGNMENT: &[HintRow] = &[
    (
        WhereSought::BackHas,
        &[
            b"be16", b"be32", b"be64", b"le16", b"le32", b"le64", b"bswap",
        ],
        "it is `r1 = be16 r1`: both are one register, of r0 to r10",
    ),
    (
        WhereSought::BackHas,
        &[b"atomic_fetch"],
        "it is `r1 = atomic_fetch_add_64(r10 - 8, r1)`: both are one register",
    ),
    (
        WhereSought::BackHas,
        &[b"cmpxchg"],
        "it is `r0 = cmpxchg_64(r10 - 8, r0, r1)`",
    ),
    (
        WhereSought::BackHas,
        &[b"xchg"],
        "it is `r1 = xchg_64(r10 - 8, r1)`: both are one register",
    ),
    (
        WhereSought::BackHas,
        &[b"map_val"],
        "it is `r1 = map_val(map_by_idx(0)) + 8`",
    ),
    (
        WhereSought::BackHas,
        &[b"map_by"],
        "it is `r1 = map_by_idx(0)`",
    ),
    (
        WhereSought::BackHas,
        &[b"*)"],
        "a load is `r1 = *(u32 *)(r2 + 0)`, with parentheses and an offset",
    ),
    (
        WhereSought::BackHas,
        &[b"(s"],
        "it is `r1 = (s8)r2`, also s16 and s32, or `w1 = (s8)w2`, also s16",
    ),
    (
        WhereSought::BackHas,
        &[b"-r", b"-w", b"- r", b"- w"],
        "it is `r1 = -r1`, where both are one register, or `r1 -= r2`",
    ),
    (
        WhereSought::BackHas,
        &[b"+="],
        "it is `r1 += r2` or `r1 += 4`: registers of one width, r or w",
    ),
    (
        WhereSought::BackHas,
        &[b"+"],
        "a statement has one operation: `r1 = r2`, and then `r1 += 4`",
    ),
];

/// What a register begins with.
pub const REGISTERS: &[&[u8]] = &[
    b"r0", b"r1", b"r2", b"r3", b"r4", b"r5", b"r6", b"r7", b"r8", b"r9", b"w",
];

/// The hints for a statement that no form fits, whatever it begins with.
pub const NO_FORM: &[HintRow] = &[
    (
        WhereSought::BackHas,
        &[b"r11", b"r12", b"r13", b"r14", b"r15", b"w11", b"w12"],
        "registers are r0 to r10, and their low halves w0 to w10",
    ),
    (
        WhereSought::BackHas,
        &[b"PASS", b"DROP", b"ABORTED", b"= TX"],
        "an action is a number: 0 ABORTED, 1 DROP, 2 PASS, 3 TX",
    ),
    (
        WhereSought::BackBegins,
        &[b"*"],
        "a store is `*(u32 *)(r10 - 4) = r1` or `= 5`, with parentheses and an offset",
    ),
];

/// The hints for a number that is out of range.
pub const OUT_OF_RANGE: &[HintRow] = &[
    (
        WhereSought::FrontBegins,
        &[b"version"],
        "the version is 2; an image of version 1 has no version line",
    ),
    (
        WhereSought::FrontHas,
        &[b"gotol", b"pc"],
        "from -2147483648 to 2147483647",
    ),
    (
        WhereSought::FrontHas,
        &[b"goto"],
        "from -32768 to 32767; `gotol` goes farther",
    ),
    (
        WhereSought::FrontHas,
        &[b"call"],
        "helpers are 1 look-up, 2 update, 3 delete and 5 time",
    ),
    (
        WhereSought::BackHas,
        &[b" ll"],
        "from -9223372036854775808 to 18446744073709551615",
    ),
    (
        WhereSought::FrontHas,
        &[b") =", b")="],
        "from -2147483648 to 2147483647; a larger number is loaded: `r2 = 3000000000 ll`",
    ),
    (
        WhereSought::FrontHas,
        &[b"(r"],
        "from -32768 to 32767: a larger offset is added to the register, `r1 += 40000`",
    ),
    (
        WhereSought::FrontBegins,
        &[b"w"],
        "from -2147483648 to 2147483647: write a larger number less 4294967296",
    ),
    (
        WhereSought::FrontHas,
        &[b" w"],
        "from -2147483648 to 2147483647: write a larger number less 4294967296",
    ),
];

/// The hints for a name that is not defined.
pub const NOT_DEFINED: &[HintRow] = &[
    (
        WhereSought::BackBegins,
        &[b"bpf_map_lookup_elem"],
        "helpers are numbers: `call 1`",
    ),
    (
        WhereSought::BackBegins,
        &[b"bpf_map_update_elem"],
        "helpers are numbers: `call 2`",
    ),
    (
        WhereSought::BackBegins,
        &[b"bpf_map_delete_elem"],
        "helpers are numbers: `call 3`",
    ),
    (
        WhereSought::BackBegins,
        &[b"bpf_ktime_get_ns"],
        "helpers are numbers: `call 5`",
    ),
    (
        WhereSought::FrontHas,
        &[b"call"],
        "functions are named by `name:`; helpers are 1 look-up, 2 update, 3 delete, 5 time",
    ),
];

/// The hint for the map line of a hash map.
pub const WRONG_MAP: &[HintRow] = &[(
    WhereSought::BackHas,
    &[b"hash"],
    "at most 16 lines before all instructions; keys of 1 to 64 bytes, values to 4096",
)];

// Whether bytes may begin with these, by the first byte of both.
fn may_begin(bytes: &[u8], part: &[u8]) -> bool
    ensures { result ≡ false → begins bytes.now part.now ≡ false }
{
    match (bytes.first(), part.first()) {
        (Some(byte), Some(wanted)) => *byte == *wanted,
        _ => true,
    }
}

// Whether bytes begin with these.
fn begins(bytes: &[u8], part: &[u8]) -> bool
    ensures { result ≡ begins bytes.now part.now }
{
    may_begin(bytes, part) && part.len() <= bytes.len() && &bytes[..part.len()] == part
}

// Whether these occur somewhere in the bytes.
fn has(bytes: &[u8], part: &[u8]) -> bool
    ensures { result ≡ has bytes.now part.now }
{
    for at in 0..bytes.len() {
        if begins(&bytes[at..], part) {
            return true;
        }
    }
    false
}

// Whether a word is where it is sought.
fn is_found(sought: WhereSought, word: &[u8], front: &[u8], back: &[u8]) -> bool
    ensures { result ≡ is_found sought word.now front.now back.now }
{
    match sought {
        WhereSought::FrontBegins => begins(front, word),
        WhereSought::FrontHas => has(front, word),
        WhereSought::BackBegins => begins(back, word),
        WhereSought::BackHas => has(back, word),
    }
}

// Whether one of these words is where they are sought.
fn has_any(sought: WhereSought, words: &[&[u8]], front: &[u8], back: &[u8]) -> bool
    ensures { result ≡ has_any sought (map lent_word words.now) front.now back.now }
{
    for word in words {
        if is_found(sought, word, front, back) {
            return true;
        }
    }
    false
}

// The hint of the first row of which a word is found, or else this one.
#[tactic(auto, unfolding(crate::specs::Hints::hint_in))]
fn hint_in(rows: &[HintRow], otherwise: &'static str, front: &[u8], back: &[u8]) -> &'static str
    ensures { result.now ≡ hint_in (map lent_row rows.now) otherwise.now front.now back.now }
{
    for row in rows {
        if has_any(row.0, row.1, front, back) {
            return row.2;
        }
    }
    otherwise
}

// The hint for a statement that no form fits.
fn no_form(front: &[u8], back: &[u8]) -> &'static str
    ensures { result.now ≡ no_form front.now back.now }
{
    if has_any(WhereSought::BackBegins, REGISTERS, front, back) {
        let assignment = hint_in(
            NO_ASSIGNMENT,
            "it is `r1 = r2`, `r1 = 5` or `w1 ^= w2`: registers of one width, r or w",
            front,
            back,
        );
        return hint_in(NO_FORM, assignment, front, back);
    }
    let jump = hint_in(
        NO_JUMP,
        "no statement begins so: in place of `mov r0, 2` write `r0 = 2`",
        front,
        back,
    );
    hint_in(NO_FORM, jump, front, back)
}

/// The hint: the front has the bytes of the line before the column, the back those from there on.
pub fn hint(kind: AsmErrorKind, front: &[u8], back: &[u8]) -> &'static str
    ensures { result.now ≡ hint kind front.now back.now }
{
    match kind {
        AsmErrorKind::UnknownByte => hint_in(
            UNKNOWN_BYTE,
            "outside comments stand words, signs, and numbers with no letter behind them",
            front,
            back,
        ),
        AsmErrorKind::NoForm => no_form(front, back),
        AsmErrorKind::OutOfRange => hint_in(
            OUT_OF_RANGE,
            "from -2147483648 to 2147483647; a larger number is loaded: `r2 = 3000000000 ll`",
            front,
            back,
        ),
        AsmErrorKind::DefinedTwice => "give one of the two another name",
        AsmErrorKind::NotDefined => hint_in(
            NOT_DEFINED,
            "a statement is named by `name:` before it; case counts",
            front,
            back,
        ),
        AsmErrorKind::TooFar => "`gotol` goes farther",
        AsmErrorKind::MapLine => hint_in(
            WRONG_MAP,
            "at most 16 lines before all instructions; an array's keys have 4 bytes, values to \
             4096",
            front,
            back,
        ),
        AsmErrorKind::NoMap => "maps are counted from 0, in the order of their lines",
        AsmErrorKind::NotOneValue =>
            "a look-up finds the value: `r1 = map_by_idx(0)`, r2 at the key, `call 1`",
        AsmErrorKind::PastValue => "the map line's second number is the size of a value",
        AsmErrorKind::LateVersion => "move it to the front, before labels and map lines",
        AsmErrorKind::Memory => "give the process more memory",
        AsmErrorKind::SlotCount => "the least text is `r0 = 2` and `exit`",
    }
}
