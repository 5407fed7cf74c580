//! What is wanted at the keys of the TOML texts: the tables of docs/NOTES.md, SCRIPTS.md, LINKING.md and PAIRS.md.

use crate::faulty::TomlText;
use ebc_base::is_name;
use explain_base::Line;
use note_texts::{
    FieldText, FromText, ItemText, ParamText, RegisterText, ResultText, TypeText, WantParamText,
};
use script_draft::{ArgumentText, CallbackText, CellValueText, OutText, ValueText, WriteText};

/// The things that have names.
#[derive(Clone, Copy)]
pub(crate) enum Thing {
    Function,
    Shape,
    Signature,
    Method,
}

impl Thing {
    /// The word for one.
    pub fn word(self) -> &'static str {
        match self {
            Thing::Function => "function",
            Thing::Shape => "shape",
            Thing::Signature => "signature",
            Thing::Method => "method",
        }
    }
}

/// The form of what stands at a key, or of the items of the list there.
#[derive(Clone, Copy)]
pub(crate) enum Form {
    /// A number from `low` to `high`.
    Number { low: i64, high: i64 },
    /// A list of two numbers, each from 0 to `high`.
    Pair { high: i64 },
    /// A list of tables.
    Tables,
    /// `true` or `false`.
    Flag,
    /// A name that is given here.
    Name,
    /// The name of a thing that stands elsewhere.
    NameOf(Thing),
    /// The name of a file.
    File,
    Field,
    Param,
    Type,
    Register,
    Item,
    WantParam,
    ResultType,
    Value,
    Argument,
    CellValue,
    Callback,
    Out,
    Write,
}

const CELL: &str =
    "CELL is i8, i16, i32, i64, n, stat, handle, entry, ptr:S*K, ptr?:S*K, p64:S*K, p64?:S*K or method:M";

const TYPE: &str =
    "TYPE is any, int, int:LO..HI, int:LO..HI/DIV, lin:N,C, scaled:N,C,HI, ptr:S*K+N,C, ptr?:S*K+N,C, local:F, \
    lent:CELL, status!F, sstatus!F, mask, handle, entry, method:M, thunk:I or saved:I";

const WANT: &str =
    "WANT is any, int:LO..HI, size:N,C, ptr, handle, status, entry, out:CELL or inout:CELL";

const VALUE: &str =
    "VALUE is int N, size N,C, ptr OBJECT INSTANCE, null, status ok N, status error N, handle K, entry F, \
    method M or any";

/// What a text stands for, if it is of the form. The line remembers want of memory.
pub(crate) fn read<T: FromText>(text: &str, line: &mut Line) -> Option<T> {
    match T::from_text(line.alloc, text) {
        Ok(read) => read,
        Err(_) => {
            line.kept(false);
            None
        }
    }
}

fn reads<T: FromText>(text: &str, line: &mut Line) -> bool {
    read::<T>(text, line).is_some()
}

impl Form {
    /// The forms of the parts of a text; empty where it has none.
    pub fn parts(self) -> &'static str {
        match self {
            Form::Field => CELL,
            Form::Param | Form::Type | Form::Register | Form::Item => TYPE,
            Form::WantParam => WANT,
            Form::Value
            | Form::Argument
            | Form::CellValue
            | Form::Callback
            | Form::Out
            | Form::Write => VALUE,
            _ => "",
        }
    }

    /// Whether a text is of the form. The line remembers want of memory.
    pub fn takes(self, text: &str, line: &mut Line) -> bool {
        match self {
            Form::File => !text.is_empty(),
            Form::Field => reads::<FieldText>(text, line),
            Form::Param => reads::<ParamText>(text, line),
            Form::Type => reads::<TypeText>(text, line),
            Form::Register => reads::<RegisterText>(text, line),
            Form::Item => reads::<ItemText>(text, line),
            Form::WantParam => reads::<WantParamText>(text, line),
            Form::ResultType => reads::<ResultText>(text, line),
            Form::Value => reads::<ValueText>(text, line),
            Form::Argument => reads::<ArgumentText>(text, line),
            Form::CellValue => reads::<CellValueText>(text, line),
            Form::Callback => reads::<CallbackText>(text, line),
            Form::Out => reads::<OutText>(text, line),
            Form::Write => reads::<WriteText>(text, line),
            _ => is_name(text.as_bytes()),
        }
    }
}

/// What is wanted at a key: in words, and by its form.
#[derive(Clone, Copy)]
pub(crate) struct KeyForm {
    pub key: &'static str,
    pub wanted: &'static str,
    pub form: Form,
}

impl KeyForm {
    /// How many items a list at the key has at most, where that is limited.
    pub fn most(&self) -> usize {
        match self.key {
            "function.params" | "signature.params" => 16,
            "point.stack" => 64,
            "shape.fields" | "objects" => 256,
            "shape" => 1024,
            "function" => 4096,
            "point" => 16384,
            _ => usize::MAX,
        }
    }
}

// A key, what is wanted there in words, and its form.
type Row = (&'static str, &'static str, Form);

const PLACE: Form = Form::Number {
    low: 0,
    high: 0x3f_ffff,
};

const FROM_ONE: Form = Form::Number {
    low: 1,
    high: i64::MAX,
};

const NOTES_KEYS: [Row; 37] = [
    ("version", "1 or 2", Form::Number { low: 1, high: 2 }),
    (
        "entry",
        "the name of the entry function, a text",
        Form::NameOf(Thing::Function),
    ),
    ("shape", "a list of tables, at most 1024", Form::Tables),
    ("static", "a list of tables", Form::Tables),
    ("thunk", "a list of tables", Form::Tables),
    ("function", "a list of tables, at most 4096", Form::Tables),
    (
        "point",
        "a list of tables, at most 16384, or with version 2 at most 32768",
        Form::Tables,
    ),
    ("signature", "a list of tables", Form::Tables),
    ("site", "a list of tables", Form::Tables),
    ("shape.name", "a NAME, a text", Form::Name),
    (
        "shape.size",
        "a pair [N, C] of numbers from 0 to 4294967295",
        Form::Pair { high: 4294967295 },
    ),
    (
        "shape.fields",
        "at most 256 texts NAME N C CELL",
        Form::Field,
    ),
    ("static.place", "a number from 0 to 0x3fffff", PLACE),
    (
        "static.shape",
        "the name of a shape, a text",
        Form::NameOf(Thing::Shape),
    ),
    ("static.count", "a number from 1 on", FROM_ONE),
    ("thunk.place", "a number from 0 to 0x3fffff", PLACE),
    (
        "thunk.function",
        "the name of a function, a text",
        Form::NameOf(Thing::Function),
    ),
    ("function.name", "a NAME, a text", Form::Name),
    ("function.place", "a number from 0 to 0x3fffff", PLACE),
    (
        "function.end",
        "a number from 0 to 0x400000",
        Form::Number {
            low: 0,
            high: 0x40_0000,
        },
    ),
    (
        "function.level",
        "a number from 0 on",
        Form::Number {
            low: 0,
            high: i64::MAX,
        },
    ),
    (
        "function.need",
        "a pair [N, C] of numbers from 0 on",
        Form::Pair { high: i64::MAX },
    ),
    (
        "function.locals",
        "the name of a shape, a text",
        Form::NameOf(Thing::Shape),
    ),
    (
        "function.params",
        "at most 16 texts n TYPE or q TYPE",
        Form::Param,
    ),
    ("function.result", "a text TYPE", Form::Type),
    ("function.enter", "true or false", Form::Flag),
    ("point.place", "a number from 0 to 0x3fffff", PLACE),
    ("point.regs", "texts R1 TYPE to R7 TYPE", Form::Register),
    (
        "point.stack",
        "texts n TYPE, q TYPE, d TYPE or locals, at most 64 beside locals",
        Form::Item,
    ),
    (
        "point.written",
        "texts, the names of local fields",
        Form::Name,
    ),
    (
        "point.made",
        "a number from 0 to 4294967295",
        Form::Number {
            low: 0,
            high: 0xffff_ffff,
        },
    ),
    ("signature.name", "a NAME, a text", Form::Name),
    (
        "signature.method",
        "the name of a native method, a text, of at most 1024",
        Form::Name,
    ),
    (
        "signature.params",
        "at most 16 texts n WANT or q WANT",
        Form::WantParam,
    ),
    (
        "signature.result",
        "a text: none, status, handle, int:LO..HI with HI below 4294967296, or ptr:S*K",
        Form::ResultType,
    ),
    ("site.place", "a number from 0 to 0x3fffff", PLACE),
    (
        "site.signature",
        "the name of a signature, a text",
        Form::NameOf(Thing::Signature),
    ),
];

const SCRIPT_KEYS: [Row; 21] = [
    ("version", "1 or 2", Form::Number { low: 1, high: 2 }),
    (
        "args",
        "texts VALUE, one for each parameter of the entry function",
        Form::Value,
    ),
    ("object", "a list of tables", Form::Tables),
    ("call", "a list of tables", Form::Tables),
    (
        "notify",
        "a list of tables, with version 2 alone",
        Form::Tables,
    ),
    (
        "object.shape",
        "the name of a shape of the notes, a text",
        Form::NameOf(Thing::Shape),
    ),
    ("object.count", "a number from 1 on", FROM_ONE),
    (
        "object.cells",
        "texts INSTANCE FIELD VALUE",
        Form::CellValue,
    ),
    (
        "call.signature",
        "the name of a signature of the notes, a text",
        Form::NameOf(Thing::Signature),
    ),
    (
        "call.args",
        "texts VALUE, out or lent VALUE, one for each parameter of the signature",
        Form::Argument,
    ),
    ("call.enter", "texts FUNCTION VALUE, VALUE", Form::Callback),
    ("call.make", "a list of tables", Form::Tables),
    (
        "call.make.shape",
        "the name of a shape of the notes, a text",
        Form::NameOf(Thing::Shape),
    ),
    ("call.make.count", "a number from 1 on", FROM_ONE),
    (
        "call.make.cells",
        "texts INSTANCE FIELD VALUE",
        Form::CellValue,
    ),
    ("call.out", "texts ARGUMENT VALUE", Form::Out),
    (
        "call.write",
        "texts OBJECT INSTANCE FIELD VALUE",
        Form::Write,
    ),
    ("call.result", "a text VALUE", Form::Value),
    (
        "notify.at",
        "a number from 0 to 10000000",
        Form::Number {
            low: 0,
            high: 10_000_000,
        },
    ),
    (
        "notify.function",
        "the name of a function of the notes, a text",
        Form::NameOf(Thing::Function),
    ),
    (
        "notify.args",
        "texts VALUE, one for each parameter of the function",
        Form::Value,
    ),
];

const PLAN_KEYS: [Row; 4] = [
    (
        "objects",
        "a list of 1 to 256 texts, the names of files of objects",
        Form::File,
    ),
    ("entry", "a NAME, a text", Form::Name),
    (
        "subsystem",
        "10, 11 or 12",
        Form::Number { low: 10, high: 12 },
    ),
    (
        "base",
        "a number from 0 to 4294901760, a multiple of 65536",
        Form::Number {
            low: 0,
            high: 4_294_901_760,
        },
    ),
];

const BIND_KEYS: [Row; 4] = [
    ("version", "1", Form::Number { low: 1, high: 1 }),
    ("bind", "a list of tables", Form::Tables),
    (
        "bind.method",
        "the name of a method of the first image's notes, a text",
        Form::NameOf(Thing::Method),
    ),
    (
        "bind.function",
        "the name of a function of the second image's notes, a text",
        Form::NameOf(Thing::Function),
    ),
];

// Whether a path is that of a list of keys, but for the numbers of tables, as `call[2].make` is that of `call.make`.
fn leads_to(path: &str, list: &str) -> bool {
    let mut keys = list.split('.');
    for part in path.split('.') {
        let key = match part.split_once('[') {
            Some((key, _)) => key,
            None => part,
        };
        match keys.next() {
            Some(wanted) if wanted == key => {}
            _ => return false,
        }
    }
    keys.next().is_none()
}

impl TomlText<'_> {
    /// What is wanted at a path; `None` where it is that of no key.
    pub(crate) fn form_at(&self, path: &str) -> Option<KeyForm> {
        let rows = match self {
            TomlText::Notes => NOTES_KEYS.as_slice(),
            TomlText::Script(_) => SCRIPT_KEYS.as_slice(),
            TomlText::Plan => PLAN_KEYS.as_slice(),
            TomlText::Binds(..) => BIND_KEYS.as_slice(),
        };
        for row in rows {
            let (key, wanted, form) = *row;
            if leads_to(path, key) {
                return Some(KeyForm { key, wanted, form });
            }
        }
        None
    }
}
