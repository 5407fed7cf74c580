//! The records of notes in text: a record as its name and its fields.
use crate::text::{Shown, Text};
use note_types::{
    Field, FnNote, Name, Notes, Param, Placed, PlacedList, Point, Sequence, Shape, Signature, Site,
    Static, Thunk, WantParam,
};

impl<T: Shown> Shown for Sequence<T> {
    fn show(&self, text: &mut Text) {
        text.word("Sequence { items: [");
        text.list(self.as_slice());
        text.word("] }");
    }
}

impl<T: Shown + Placed> Shown for PlacedList<T> {
    fn show(&self, text: &mut Text) {
        text.word("Sequence { items: [");
        text.list(self.as_slice());
        text.word("] }");
    }
}

impl Shown for Name {
    fn show(&self, text: &mut Text) {
        text.word("Name { text: \"");
        text.word(self.as_str());
        text.word("\" }");
    }
}

impl Shown for Field {
    fn show(&self, text: &mut Text) {
        text.put("Field { name: ", &self.name);
        text.put(", n: ", &self.n);
        text.put(", c: ", &self.c);
        text.put(", cell: ", &self.cell);
        text.word(" }");
    }
}

impl Shown for Shape {
    fn show(&self, text: &mut Text) {
        text.put("Shape { name: ", &self.name);
        text.put(", n: ", &self.n);
        text.put(", c: ", &self.c);
        text.put(", fields: ", &self.fields);
        text.word(" }");
    }
}

impl Shown for Param {
    fn show(&self, text: &mut Text) {
        text.put("Param { kind: ", &self.kind);
        text.put(", ty: ", &self.ty);
        text.word(" }");
    }
}

impl Shown for WantParam {
    fn show(&self, text: &mut Text) {
        text.put("WantParam { kind: ", &self.kind);
        text.put(", want: ", &self.want);
        text.word(" }");
    }
}

impl Shown for FnNote {
    fn show(&self, text: &mut Text) {
        text.put("FnNote { name: ", &self.name);
        text.put(", place: ", &self.place);
        text.put(", end: ", &self.end);
        text.put(", level: ", &self.level);
        text.put(", need: ", &self.need);
        text.put(", locals: ", &self.locals);
        text.put(", params: ", &self.params);
        text.put(", result: ", &self.result);
        text.put(", enter: ", &self.enter);
        text.word(" }");
    }
}

impl Shown for Static {
    fn show(&self, text: &mut Text) {
        text.put("Static { place: ", &self.place);
        text.put(", shape: ", &self.shape);
        text.put(", count: ", &self.count);
        text.word(" }");
    }
}

impl Shown for Thunk {
    fn show(&self, text: &mut Text) {
        text.put("Thunk { place: ", &self.place);
        text.put(", function: ", &self.function);
        text.word(" }");
    }
}

impl Shown for Point {
    fn show(&self, text: &mut Text) {
        text.put("Point { place: ", &self.place);
        text.put(", state: ", &self.state.state());
        text.word(" }");
    }
}

impl Shown for Signature {
    fn show(&self, text: &mut Text) {
        text.put("Signature { name: ", &self.name);
        text.put(", method: ", &self.method);
        text.put(", params: ", &self.params);
        text.put(", result: ", &self.result);
        text.word(" }");
    }
}

impl Shown for Site {
    fn show(&self, text: &mut Text) {
        text.put("Site { place: ", &self.place);
        text.put(", signature: ", &self.signature);
        text.word(" }");
    }
}

impl Shown for Notes {
    fn show(&self, text: &mut Text) {
        text.put("Notes { version: ", &self.version);
        text.put(", entry: ", &self.entry);
        text.put(", shape: ", &self.shape);
        text.put(", statics: ", &self.statics);
        text.put(", thunk: ", &self.thunk);
        text.put(", function: ", &self.function);
        text.put(", point: ", &self.point);
        text.put(", signature: ", &self.signature);
        text.put(", site: ", &self.site);
        text.put(", methods: ", &self.methods);
        text.word(" }");
    }
}
