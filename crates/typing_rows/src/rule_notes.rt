//! The notes of which the rows speak, and their text.
use crate::words::{
    cell, first_state, number, pair, place, shape_number, short, slot_kind, ty, want,
};
use note_types::{
    CompactState, Field, FnNote, Name, Notes, Pair, Param, PlacedList, Point, Sequence, Shape,
    Signature, Site, Static, Thunk, Ty, WantParam,
};
use std::alloc::Global;

/// The driver that finds blocks and registers a function, with functions and shapes beside it for each kind of cell, of
/// local field, of parameter and of argument. A line is one thing.
const NOTES: &str = "\
shape Rec 1,4 i32@0,0
shape Sys 2,0 method:0@0,0 method:1@1,0
shape Blk 2,0 i32@0,0 ptr?:Blk@1,0
shape L 1,0 ptr:Blk@0,0
shape All 6,40 i8@0,0 i16@0,2 i32@0,4 i64@0,8 p64?:Blk@0,16 p64:Blk@0,24 n@0,32 stat@1,32 handle@2,32 entry@3,32 ptr:Blk@4,32 method:0@5,32
shape Vars 3,16 ptr:Blk@0,0 n@1,0 stat@2,0 i64@3,0 i32@3,8
shape Eight 0,8 i64@0,0
shape Twelve 0,12 i32@0,0 i32@0,4
static 2010 Rec 3
static 2060 Eight 4
thunk 2000 1
thunk 2010 1
function 1000 1044 level=1 need=2,0 locals=L params=n:handle;n:ptr:Sys result=status
function 1044 104a level=0 need=0,0 params=n:int:0..4294967295 result=status
function 1050 1060 level=0 need=0,0 params=n:lent:ptr:Blk;q:int:0..9 result=int:0..7
function 1060 1100 level=3 need=20,600 locals=Vars params=n:int:0..100;q:ptr:Blk;n:status;q:status result=any
function 1100 1180 level=3 need=2,24 result=int:0..9
function 1180 1190 level=3 need=0,0 result=any
function 1190 11a0 level=2 need=2,8 result=handle
function 11a0 11b0 level=0 need=3,4 result=any
function 11b0 11c0 level=0 need=0,20 result=any
function 11c0 11d0 level=0 need=0,0 params=d:int:0..9;n:handle result=any
function 1200 1220 level=0 need=0,0 params=n:ptr:Rec*10;n:int:0..100 result=int:0..4294967295
point 103e
point 1070
point 10f0
point 1100
point 121a
signature 0 params=n:out:ptr:Blk result=status
signature 1 params=n:entry result=status
signature 0 params=n:any;q:int:3..9;n:size:2,8;n:size:0,8;n:ptr;n:handle;n:status result=handle
signature 0 params=n:inout:ptr:Blk;n:out:n;n:out:stat result=none
signature 0 params=n:out:n;n:out:ptr:Blk result=status
signature 0 params=n:out:n result=handle
site 1014 0
site 1032 1
site 1080 2
site 1090 3
site 10a0 4
site 10b0 1
site 10c0 5
";

// ---- one thing

fn name(alloc: Global, text: &str) -> Option<Name> {
    Some(Name::new(String::from_str(alloc, text).ok()?))
}

/// `CELL@N,C`
fn field(alloc: Global, text: &str) -> Option<Field> {
    let (kind, at) = text.split_once('@')?;
    let (n, c) = pair(at)?;
    let cell = cell(kind)?;
    let name = name(alloc, kind)?;
    Some(Field { name, n, c, cell })
}

/// `NAME N,C FIELD ..`
fn shape(alloc: Global, text: &str) -> Option<Shape> {
    let (title, rest) = text.split_once(' ')?;
    let (size, rest) = rest.split_once(' ')?;
    let (n, c) = pair(size)?;
    let mut fields = Vec::new(alloc);
    for word in rest.split(' ') {
        fields.push(field(alloc, word)?).ok()?;
    }
    Some(Shape {
        name: name(alloc, title)?,
        n,
        c,
        fields: Sequence::new(fields),
    })
}

/// `PLACE NAME COUNT`
fn static_object(text: &str) -> Option<Static> {
    let (at, rest) = text.split_once(' ')?;
    let (shape, count) = rest.split_once(' ')?;
    Some(Static {
        place: place(at)?,
        shape: shape_number(shape)?,
        count: number(count)?,
    })
}

/// `PLACE FUNCTION`
fn thunk(text: &str) -> Option<Thunk> {
    let (at, function) = text.split_once(' ')?;
    Some(Thunk {
        place: place(at)?,
        function: short(function)?,
    })
}

/// `n:TYPE`
fn param(text: &str) -> Option<Param> {
    let (kind, t) = text.split_once(':')?;
    Some(Param {
        kind: slot_kind(kind)?,
        ty: ty(t)?,
    })
}

fn params(alloc: Global, text: &str) -> Option<Vec<Param>> {
    let mut params = Vec::new(alloc);
    for one in text.split(';') {
        params.push(param(one)?).ok()?;
    }
    Some(params)
}

/// `n:WANT`
fn want_param(text: &str) -> Option<WantParam> {
    let (kind, wanted) = text.split_once(':')?;
    Some(WantParam {
        kind: slot_kind(kind)?,
        want: want(wanted)?,
    })
}

fn want_params(alloc: Global, text: &str) -> Option<Vec<WantParam>> {
    let mut params = Vec::new(alloc);
    for one in text.split(';') {
        params.push(want_param(one)?).ok()?;
    }
    Some(params)
}

fn empty_function(alloc: Global, place: u32, end: u32) -> Option<FnNote> {
    Some(FnNote {
        name: name(alloc, "f")?,
        place,
        end,
        level: 0,
        need: Pair { n: 0, c: 0 },
        locals: None,
        params: Sequence::new(Vec::new(alloc)),
        result: Ty::Any,
        enter: false,
    })
}

fn put_key(alloc: Global, f: &mut FnNote, word: &str) -> Option<()> {
    let (key, value) = word.split_once('=')?;
    match key {
        "level" => f.level = number(value)?,
        "need" => {
            let (n, c) = pair(value)?;
            f.need = Pair {
                n: u64::from(n),
                c: u64::from(c),
            };
        }
        "locals" => f.locals = Some(shape_number(value)?),
        "params" => f.params = Sequence::new(params(alloc, value)?),
        "result" => f.result = ty(value)?,
        _ => return None,
    }
    Some(())
}

/// `PLACE END KEY=VALUE ..`
fn function(alloc: Global, text: &str) -> Option<FnNote> {
    let (begin, rest) = text.split_once(' ')?;
    let (end, rest) = rest.split_once(' ')?;
    let mut f = empty_function(alloc, place(begin)?, place(end)?)?;
    for word in rest.split(' ') {
        put_key(alloc, &mut f, word)?;
    }
    Some(f)
}

fn point(alloc: Global, text: &str) -> Option<Point> {
    Some(Point {
        place: place(text)?,
        state: CompactState::new(alloc, &first_state()).ok()?,
    })
}

/// The type of a result, of which `none` has none.
fn result(text: &str) -> Option<Option<Ty>> {
    if text == "none" {
        Some(None)
    } else {
        Some(Some(ty(text)?))
    }
}

/// `METHOD params=PARAMS result=TYPE`
fn signature(alloc: Global, text: &str) -> Option<Signature> {
    let (method, rest) = text.split_once(" params=")?;
    let (wants, given) = rest.split_once(" result=")?;
    let method = short(method)?;
    let gives = result(given)?;
    let name = name(alloc, "s")?;
    Some(Signature {
        name,
        method,
        params: Sequence::new(want_params(alloc, wants)?),
        result: gives,
    })
}

/// `PLACE SIGNATURE`
fn site(text: &str) -> Option<Site> {
    let (at, signature) = text.split_once(' ')?;
    Some(Site {
        place: place(at)?,
        signature: short(signature)?,
    })
}

// ---- all of them

#[derive(Drop)]
struct Lists {
    shape: Vec<Shape>,
    statics: Vec<Static>,
    thunk: Vec<Thunk>,
    function: Vec<FnNote>,
    point: Vec<Point>,
    signature: Vec<Signature>,
    site: Vec<Site>,
}

fn empty_lists(alloc: Global) -> Lists {
    Lists {
        shape: Vec::new(alloc),
        statics: Vec::new(alloc),
        thunk: Vec::new(alloc),
        function: Vec::new(alloc),
        point: Vec::new(alloc),
        signature: Vec::new(alloc),
        site: Vec::new(alloc),
    }
}

fn put_line(alloc: Global, lists: &mut Lists, line: &str) -> Option<()> {
    let (kind, rest) = line.split_once(' ')?;
    match kind {
        "shape" => lists.shape.push(shape(alloc, rest)?).ok()?,
        "static" => lists.statics.push(static_object(rest)?).ok()?,
        "thunk" => lists.thunk.push(thunk(rest)?).ok()?,
        "function" => lists.function.push(function(alloc, rest)?).ok()?,
        "point" => lists.point.push(point(alloc, rest)?).ok()?,
        "signature" => lists.signature.push(signature(alloc, rest)?).ok()?,
        "site" => lists.site.push(site(rest)?).ok()?,
        _ => return None,
    }
    Some(())
}

/// The notes.
pub fn notes(alloc: Global) -> Option<Notes> {
    let mut lists = empty_lists(alloc);
    for line in NOTES.split_terminator('\n') {
        put_line(alloc, &mut lists, line)?;
    }
    Some(Notes {
        version: 1,
        entry: 0,
        shape: Sequence::new(lists.shape),
        statics: PlacedList::new(alloc, lists.statics).ok()?,
        thunk: PlacedList::new(alloc, lists.thunk).ok()?,
        function: PlacedList::new(alloc, lists.function).ok()?,
        point: Sequence::new(lists.point),
        signature: Sequence::new(lists.signature),
        site: Sequence::new(lists.site),
        methods: Sequence::new(Vec::new(alloc)),
    })
}
