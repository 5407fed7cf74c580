//! What stands at the keys of a table, by each kind of reading.
ghost use Rattle.std.specs.Prelude.{◌≡◌, Option, Some, None, Ok, nat_le, if◌then◌else◌, length, codes, [], ◌∷◌};
ghost use Rattle.ebc_base.specs.Steps.{◌>>=◌};
ghost use Rattle.note_texts.specs.Keys.{number_at, only_keys};

use crate::text::{Shown, Text};
use note_texts::{FromTable, FromText, Row, document};
use note_types::{NotesEnd, Pair};
use std::alloc::{AllocError, Global};

/// A text of at most four bytes.
#[derive(Drop)]
pub struct Short {
    length: usize,
}

impl FromText for Short {
    ghost reads_as = { λ text. if nat_le (length text) 4 then Some (record { length = length text }) else None };

    fn from_text(_: Global, text: &str) -> Result<Option<Self>, AllocError> {
        let length = text.len();
        if length <= 4 {
            Ok(Some(Short { length }))
        } else {
            Ok(None)
        }
    }
}

impl Shown for Short {
    fn show(&self, text: &mut Text) {
        text.put("Short { length: ", &self.length);
        text.word(" }");
    }
}

/// A table with one number.
#[derive(Drop)]
pub struct Spot {
    place: u64,
}

impl FromTable for Spot {
    ghost reads_as = { λ prefix table. number_at prefix (codes "place") 0 9 table >>=
        (λ n. only_keys prefix (codes "place" ∷ []) table >>= (λ _. Ok (record { place = n }))) };

    fn from_table(alloc: Global, row: Row) -> Result<Self, NotesEnd> {
        let place = row.number(alloc, "place", 0, 9)?;
        row.only_keys(alloc, &["place"])?;
        Ok(Spot { place })
    }
}

impl Shown for Spot {
    fn show(&self, text: &mut Text) {
        text.put("Spot { place: ", &self.place);
        text.word(" }");
    }
}

/// What stands at the keys of a table.
#[derive(Drop)]
pub struct Sample {
    number: u64,
    text: Short,
    pair: Pair,
    optional: Option<Short>,
    flag: bool,
    texts: Vec<Short>,
    beside: Vec<Short>,
    spots: Vec<Spot>,
}

impl Shown for Sample {
    fn show(&self, text: &mut Text) {
        text.put("Sample { number: ", &self.number);
        text.put(", text: ", &self.text);
        text.put(", pair: ", &self.pair);
        text.put(", optional: ", &self.optional);
        text.put(", flag: ", &self.flag);
        text.word(", texts: [");
        text.list(self.texts.as_slice());
        text.word("], beside: [");
        text.list(self.beside.as_slice());
        text.word("], spots: [");
        text.list(self.spots.as_slice());
        text.word("] }");
    }
}

/// Reads the keys of a table by each kind of reading.
pub fn read_sample(alloc: Global, text: &[u8]) -> Result<Sample, NotesEnd> {
    let table = document(alloc, text)?;
    let row = Row {
        prefix: "a.",
        table: &table,
    };
    let number = row.number(alloc, "number", 1, 9)?;
    let text = row.text::<Short>(alloc, "text")?;
    let pair = row.pair(alloc, "pair", 7)?;
    let optional = row.optional_text::<Short>(alloc, "optional")?;
    let flag = row.flag(alloc, "flag")?;
    let texts = row.texts::<Short>(alloc, "texts", 2)?;
    let beside = row.texts_beside::<Short>(alloc, "beside", 1, "x")?;
    let spots = row.tables::<Spot>(alloc, "spot", 2)?;
    let keys = [
        "number", "text", "pair", "optional", "flag", "texts", "beside", "spot",
    ];
    row.only_keys(alloc, &keys)?;
    Ok(Sample {
        number,
        text,
        pair,
        optional,
        flag,
        texts,
        beside,
        spots,
    })
}
