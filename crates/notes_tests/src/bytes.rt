//! Bytes that are no text.
use note_texts::document;
use note_types::{NotesEnd, TomlFault};
use protocol_script::read_script;
use std::test::Fail;
use type_notes::read_notes;

const NOTES: &[u8] = b"version = 1
entry = 'main'
function = [{ name = 'main', place = 16, end = 32, level = 0, need = [0, 0], result = 'any' }]";

fn no_text<T: Drop>(read: Result<T, NotesEnd>) -> Result<(), Fail> {
    match read {
        Err(NotesEnd::Fault(TomlFault::NotToml)) => Ok(()),
        _ => Err(Fail::new("bytes that are no text are read")),
    }
}

#[test]
fn bytes_that_are_no_text_are_no_toml(rt: HostRuntime) -> Result<(), Fail> {
    let alloc = rt.alloc();
    no_text(document(alloc, b"# \xff"))?;
    no_text(read_notes(alloc, b"version = 1 # \xff"))?;
    match read_notes(alloc, NOTES) {
        Ok(notes) => no_text(read_script(alloc, b"version = 1 # \xff", &notes)),
        Err(_) => Err(Fail::new("the notes are refused")),
    }
}
