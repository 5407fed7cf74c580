//! Which mnemonics begin with the same letters (docs/ASSEMBLY.md, "Mnemonics").

use explain_base::Line;

// The mnemonics that begin so; of two beginnings the longer stands first.
static FORMS: [(&str, &str); 16] = [
    ("JMP8", "JMP8, JMP8cs or JMP8cc"),
    (
        "JMP",
        "JMP8, JMP32, JMP32a, JMP64 or JMP64a, and then nothing, cs or cc",
    ),
    ("CALL", "CALL32 or CALL64, and then nothing, a, EX or EXa"),
    (
        "CMPI",
        "CMPI32w, CMPI32d, CMPI64w or CMPI64d, and then eq, lte, gte, ulte or ugte",
    ),
    ("CMP", "CMP32 or CMP64, and then eq, lte, gte, ulte or ugte"),
    ("MOVREL", "MOVRELw, MOVRELd or MOVRELq"),
    ("MOVIn", "MOVInw, MOVInd or MOVInq"),
    (
        "MOVI",
        "MOVIb, MOVIw, MOVId, MOVIq or MOVIn, and then w, d or q",
    ),
    ("MOVsn", "MOVsnw or MOVsnd"),
    (
        "MOV",
        "MOVb, MOVw, MOVd, MOVq, MOVn or MOVsn, and then w or d; or MOVqq",
    ),
    ("PUSH", "PUSH32, PUSH64 or PUSHn"),
    ("POP", "POP32, POP64 or POPn"),
    ("RET", "RET"),
    ("BREAK", "BREAK"),
    ("LOADSP", "LOADSP"),
    ("STORESP", "STORESP"),
];

// The operations that end with the bits that they work on.
static OPERATIONS: [&str; 19] = [
    "NOT", "NEG", "ADD", "SUB", "MUL", "MULU", "DIV", "DIVU", "MOD", "MODU", "AND", "OR", "XOR",
    "SHL", "SHR", "ASHR", "EXTNDB", "EXTNDW", "EXTNDD",
];

// Whether a word begins so, and no letter of upper case follows.
fn begins(word: &str, stem: &str) -> bool {
    match word.strip_prefix(stem) {
        Some(rest) => match rest.as_bytes().first() {
            Some(byte) => !byte.is_ascii_uppercase(),
            None => true,
        },
        None => false,
    }
}

/// Writes the mnemonics whose letters in front are those of a word, and tells whether there are some.
pub(crate) fn write_forms(word: &str, line: &mut Line) -> bool {
    for (stem, forms) in FORMS.iter() {
        if begins(word, *stem) {
            line.text(*forms);
            return true;
        }
    }
    for stem in OPERATIONS.iter() {
        if begins(word, *stem) {
            line.text(*stem).text("32 or ").text(*stem).text("64");
            return true;
        }
    }
    false
}
