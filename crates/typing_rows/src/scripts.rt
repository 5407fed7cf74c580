//! The records of scripts in text: a record as its name and its fields, a case as its name and what it holds.
use crate::text::{Shown, Text};
use note_types::{
    Callback, CellValue, Notify, OutValue, Script, ScriptCall, ScriptObject, Seen, Value,
    WriteValue,
};

// A value of two numbers.
fn pair(text: &mut Text, value: &Value) {
    match value {
        Value::Size { n, c } => {
            text.put("Size { n: ", n);
            text.put(", c: ", c);
            text.word(" }");
        }
        Value::Ptr { object, instance } => {
            text.put("Ptr { object: ", object);
            text.put(", instance: ", instance);
            text.word(" }");
        }
        _ => text.word("no pair"),
    }
}

// A value of one number.
fn single(text: &mut Text, value: &Value) {
    match value {
        Value::Int(number) => text.put("Int(", number),
        Value::StatusOk(code) => text.put("StatusOk(", code),
        Value::StatusError(code) => text.put("StatusError(", code),
        Value::Handle(handle) => text.put("Handle(", handle),
        Value::Entry(function) => text.put("Entry(", function),
        Value::Method(method) => text.put("Method(", method),
        Value::Wild(number) => text.put("Wild(", number),
        _ => return pair(text, value),
    }
    text.word(")");
}

impl Shown for Value {
    fn show(&self, text: &mut Text) {
        match self {
            Value::Null => text.word("Null"),
            Value::Any => text.word("Any"),
            Value::Out => text.word("Out"),
            _ => single(text, self),
        }
    }
}

impl Shown for Seen {
    fn show(&self, text: &mut Text) {
        text.put("Seen { lent: ", &self.lent);
        text.put(", value: ", &self.value);
        text.word(" }");
    }
}

impl Shown for CellValue {
    fn show(&self, text: &mut Text) {
        text.put("CellValue { instance: ", &self.instance);
        text.put(", field: ", &self.field);
        text.put(", value: ", &self.value);
        text.word(" }");
    }
}

impl Shown for ScriptObject {
    fn show(&self, text: &mut Text) {
        text.put("ScriptObject { shape: ", &self.shape);
        text.put(", count: ", &self.count);
        text.put(", cells: ", &self.cells);
        text.word(" }");
    }
}

impl Shown for Callback {
    fn show(&self, text: &mut Text) {
        text.put("Callback { function: ", &self.function);
        text.put(", values: ", &self.values);
        text.word(" }");
    }
}

impl Shown for OutValue {
    fn show(&self, text: &mut Text) {
        text.put("OutValue { argument: ", &self.argument);
        text.put(", value: ", &self.value);
        text.word(" }");
    }
}

impl Shown for WriteValue {
    fn show(&self, text: &mut Text) {
        text.put("WriteValue { object: ", &self.object);
        text.put(", instance: ", &self.instance);
        text.put(", field: ", &self.field);
        text.put(", value: ", &self.value);
        text.word(" }");
    }
}

impl Shown for ScriptCall {
    fn show(&self, text: &mut Text) {
        text.put("ScriptCall { signature: ", &self.signature);
        text.put(", args: ", &self.args);
        text.put(", enter: ", &self.enter);
        text.put(", make: ", &self.make);
        text.put(", out: ", &self.out);
        text.put(", write: ", &self.write);
        text.put(", result: ", &self.result);
        text.word(" }");
    }
}

impl Shown for Notify {
    fn show(&self, text: &mut Text) {
        text.put("Notify { at: ", &self.at);
        text.put(", function: ", &self.function);
        text.put(", args: ", &self.args);
        text.word(" }");
    }
}

impl Shown for Script {
    fn show(&self, text: &mut Text) {
        text.put("Script { version: ", &self.version);
        text.put(", args: ", &self.args);
        text.put(", object: ", &self.object);
        text.put(", call: ", &self.call);
        text.put(", notify: ", &self.notify);
        text.word(" }");
    }
}
