//! Binds in text: the record as its name and its fields.
use crate::text::{Shown, Text};
use pair_model::Bind;

impl Shown for Bind {
    fn show(&self, text: &mut Text) {
        text.put("Bind { method: ", &self.method);
        text.put(", function: ", &self.function);
        text.word(" }");
    }
}
