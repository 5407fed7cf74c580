//! What stands after each mnemonic and directive (docs/ASSEMBLY.md, "Mnemonics" and "Statements").

// The operands after the words that begin so; of two beginnings the longer stands first.
static OPERANDS: [(&str, &str); 27] = [
    (".code", "none"),
    (".data", "none"),
    (".global", "a name"),
    (".thunk", "a name"),
    (".zero", "a number"),
    (".dq", "numbers, or one name"),
    (".d", "numbers"),
    ("RET", "none"),
    ("BREAK", "a number"),
    ("JMP8", "a number or a name"),
    ("JMP64", "a number or a name"),
    ("CALL64", "a number or a name"),
    (
        "JMP",
        "a number, or a name if it is relative, or R1, R1 5, @R1 or @R1(+1,+8)",
    ),
    (
        "CALL",
        "a number, or a name if it is relative, or R1, R1 5, @R1 or @R1(+1,+8)",
    ),
    ("CMPI", "R1, @R1 or @R1(+1,+8), then a number"),
    ("CMP", "R1, then R2, R2 5, @R2 or @R2(+1,+8)"),
    ("MOVREL", "R1, @R1 or @R1(+1,+8), then a number or a name"),
    ("MOVIqq", "R1, @R1 or @R1(+1,+8), then a number or a name"),
    ("MOVIn", "R1, @R1 or @R1(+1,+8), then an index, as (+1,+8)"),
    ("MOVI", "R1, @R1 or @R1(+1,+8), then a number"),
    (
        "MOVsn",
        "R1, @R1 or @R1(+1,+8), then R2, R2 5, @R2 or @R2(+1,+8)",
    ),
    (
        "MOV",
        "R1, @R1 or @R1(+1,+8), then R2, R2(+1,+8), @R2 or @R2(+1,+8)",
    ),
    ("LOADSP", "[FLAGS], then R1"),
    ("STORESP", "R1, then [FLAGS] or [IP]"),
    ("PUSH", "R1, R1 5, @R1 or @R1(+1,+8)"),
    ("POP", "R1, R1 5, @R1 or @R1(+1,+8)"),
    ("", "R1 or @R1, then R2, R2 5, @R2 or @R2(+1,+8)"),
];

// The bits of a number after the words that begin so; after others it has 16.
static NUMBER_BITS: [(&str, u8); 12] = [
    (".db", 8),
    (".dd", 32),
    (".dq", 64),
    ("BREAK", 8),
    ("JMP8", 8),
    ("JMP64", 64),
    ("CALL64", 64),
    ("JMP", 32),
    ("CALL", 32),
    ("CMPI32d", 32),
    ("CMPI64d", 32),
    ("MOVsnd", 32),
];

// The words in which a name may stand in place of a number that no register has beside it, by their beginnings.
static NAMED: [&str; 5] = ["JMP8", "JMP64", "CALL64", "MOVREL", "MOVIqq"];

/// The operands that a word has after it.
pub(crate) fn operands_of(word: &str) -> &'static str {
    for (stem, operands) in OPERANDS.iter() {
        if word.starts_with(*stem) {
            return operands;
        }
    }
    ""
}

/// Whether a name may stand in place of the number after a word.
pub(crate) fn takes_name(word: &str) -> bool {
    NAMED.iter().any(|stem| word.starts_with(*stem))
}

// The bits that the last letter of a move tells.
fn last_letter_bits(word: &str) -> u8 {
    match word.as_bytes().last() {
        Some(b'w') => 16,
        Some(b'd') => 32,
        _ => 64,
    }
}

/// The bits of a number after a word.
pub(crate) fn number_bits(word: &str) -> u8 {
    if word.starts_with("MOVI") || word.starts_with("MOVREL") {
        return last_letter_bits(word);
    }
    for (stem, bits) in NUMBER_BITS.iter() {
        if word.starts_with(*stem) {
            return *bits;
        }
    }
    16
}

/// The bits of an index in the first operand after a word, or in the second one.
pub(crate) fn index_bits(word: &str, is_second: bool) -> u8 {
    if word.starts_with("JMP") || word.starts_with("CALL") {
        return 32;
    }
    let has_short_first = word.starts_with("MOVI") || word.starts_with("MOVREL");
    if word.starts_with("MOV") && (is_second || !has_short_first) {
        last_letter_bits(word)
    } else {
        16
    }
}
