//! What is said of a word that is neither a mnemonic nor a directive.

use crate::mnemonic::write_forms;
use crate::part::Found;
use crate::statement::Statement;
use ebc_base::is_name;
use explain_base::Line;
use std::alloc::Global;

// What a word is none of, and how those are written; `is_alone` if the line has nothing else.
fn wanted(word: &str, is_alone: bool) -> &'static str {
    if word.starts_with('.') {
        "directive; they are .code, .data, .global, .db, .dw, .dd, .dq, .thunk and .zero"
    } else if is_alone && is_name(word.as_bytes()) {
        "mnemonic; they are written in upper case with the bits of what follows, as MOVqw; \
         a label has a colon after it"
    } else {
        "mnemonic; they are written in upper case with the bits of what follows, \
         as MOVqw and CMPI64weq"
    }
}

// What is said of a word: the mnemonics that begin with its letters, or else how they are written.
fn word_line(alloc: Global, word: &str, is_alone: bool) -> Line {
    let mut what = Line::of(alloc, "`");
    what.word(word).text("` is no ");
    let mut forms = Line::new(alloc);
    if !write_forms(word, &mut forms) {
        what.text(wanted(word, is_alone));
        return what;
    }
    what.text("mnemonic; wanted: ").line(&forms);
    if is_alone && is_name(word.as_bytes()) {
        what.text("; a label has a colon after it");
    }
    what
}

/// What is said of the word of a statement.
pub(crate) fn word_found(alloc: Global, statement: Statement) -> Found {
    let word = statement.word.shown();
    let is_alone = statement.label.is_none() && statement.operands.text.is_empty();
    Found {
        at: statement.word.at,
        what: word_line(alloc, word, is_alone),
    }
}
