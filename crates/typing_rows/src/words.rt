//! Numbers, cells, types and states, as rows have them. Shapes are named; methods, thunks and local fields are numbers.
use ebc_insn::CmpOp;
use note_types::{Cell, Fact, Item, Items, RuleName, SlotKind, State, Ty, Want};
use rules_base::{Here, with_field};

/// The shapes of the notes, in their order.
pub const SHAPES: [&str; 8] = ["Rec", "Sys", "Blk", "L", "All", "Vars", "Eight", "Twelve"];

/// A number of decimal digits.
pub fn number(text: &str) -> Option<u64> {
    text.parse::<u64>().ok()
}

/// A number of 32 bits.
pub fn short(text: &str) -> Option<u32> {
    text.parse::<u32>().ok()
}

/// A place, of hexadecimal digits.
pub fn place(text: &str) -> Option<u32> {
    u32::from_str_radix(text, 16).ok()
}

/// The number of a shape.
pub fn shape_number(name: &str) -> Option<u32> {
    let number = SHAPES.iter().position(|shape| *shape == name)?;
    u32::try_from(number).ok()
}

/// `LO..HI`
fn range(text: &str) -> Option<(u64, u64)> {
    let (lo, hi) = text.split_once("..")?;
    Some((number(lo)?, number(hi)?))
}

/// `N,C`
pub fn pair(text: &str) -> Option<(u32, u32)> {
    let (n, c) = text.split_once(',')?;
    Some((short(n)?, short(c)?))
}

/// `N,C`, each with its sign.
fn offset(text: &str) -> Option<(i32, i32)> {
    let (n, c) = text.split_once(',')?;
    Some((n.parse::<i32>().ok()?, c.parse::<i32>().ok()?))
}

/// `S*K`, a shape and a count, or `S`, where the count is 1.
fn counted(text: &str) -> Option<(u32, u64)> {
    match text.split_once('*') {
        Some((shape, count)) => Some((shape_number(shape)?, number(count)?)),
        None => Some((shape_number(text)?, 1)),
    }
}

/// `0,2`: a set of local fields.
fn fields(text: &str) -> Option<u64> {
    let mut set = 0;
    if text == "none" {
        return Some(set);
    }
    for field in text.split(',') {
        set = with_field(set, short(field)?);
    }
    Some(set)
}

// ---- cells

fn ptr_cell(text: &str, null: bool) -> Option<Cell> {
    let (shape, count) = counted(text)?;
    Some(Cell::Ptr { shape, count, null })
}

fn p64_cell(text: &str, null: bool) -> Option<Cell> {
    let (shape, count) = counted(text)?;
    Some(Cell::P64 { shape, count, null })
}

fn marked_cell(word: &str, rest: &str) -> Option<Cell> {
    match word {
        "ptr" => ptr_cell(rest, false),
        "ptr?" => ptr_cell(rest, true),
        "p64" => p64_cell(rest, false),
        "p64?" => p64_cell(rest, true),
        "method" => Some(Cell::Method(short(rest)?)),
        _ => None,
    }
}

fn plain_cell(word: &str) -> Option<Cell> {
    match word {
        "i8" => Some(Cell::I8),
        "i16" => Some(Cell::I16),
        "i32" => Some(Cell::I32),
        "i64" => Some(Cell::I64),
        "n" => Some(Cell::N),
        "stat" => Some(Cell::Stat),
        "handle" => Some(Cell::Handle),
        "entry" => Some(Cell::Entry),
        _ => None,
    }
}

/// A cell.
pub fn cell(text: &str) -> Option<Cell> {
    match text.split_once(':') {
        Some((word, rest)) => marked_cell(word, rest),
        None => plain_cell(text),
    }
}

// ---- types

/// `LO..HI` or `LO..HI/DIV`
fn int_type(text: &str) -> Option<Ty> {
    let (ends, div) = match text.split_once('/') {
        Some((ends, div)) => (ends, number(div)?),
        None => (text, 1),
    };
    let (lo, hi) = range(ends)?;
    Some(Ty::Int { lo, hi, div })
}

/// `N,C,HI`
fn scaled_type(text: &str) -> Option<Ty> {
    let (n, rest) = text.split_once(',')?;
    let (c, hi) = rest.split_once(',')?;
    Some(Ty::Scaled {
        n: number(n)?,
        c: number(c)?,
        hi: number(hi)?,
    })
}

/// `S*K` or `S*K+N,C`
fn pointer_type(text: &str, null: bool) -> Option<Ty> {
    let (target, (n, c)) = match text.split_once('+') {
        Some((target, moved)) => (target, offset(moved)?),
        None => (text, (0, 0)),
    };
    let (shape, count) = counted(target)?;
    Some(Ty::Ptr {
        shape,
        count,
        n,
        c,
        null,
    })
}

fn lin_type(text: &str) -> Option<Ty> {
    let (n, c) = offset(text)?;
    Some(Ty::Lin { n, c })
}

fn marked_type(word: &str, rest: &str) -> Option<Ty> {
    match word {
        "int" => int_type(rest),
        "lin" => lin_type(rest),
        "scaled" => scaled_type(rest),
        "ptr" => pointer_type(rest, false),
        "ptr?" => pointer_type(rest, true),
        "local" => Some(Ty::Local(short(rest)?)),
        "lent" => Some(Ty::Lent(cell(rest)?)),
        "status" => Some(Ty::Status(fields(rest)?)),
        "sstatus" => Some(Ty::SignedStatus(fields(rest)?)),
        "method" => Some(Ty::Method(short(rest)?)),
        "thunk" => Some(Ty::ThunkAt(short(rest)?)),
        "saved" => Some(Ty::Saved(rest.parse::<u8>().ok()?)),
        _ => None,
    }
}

fn all_numbers(hi: u64) -> Ty {
    Ty::Int { lo: 0, hi, div: 1 }
}

fn one_number(text: &str) -> Option<Ty> {
    let k = number(text)?;
    Some(Ty::Int {
        lo: k,
        hi: k,
        div: 1,
    })
}

fn plain_type(word: &str) -> Option<Ty> {
    match word {
        "any" => Some(Ty::Any),
        "full64" => Some(all_numbers(u64::MAX)),
        "full32" => Some(all_numbers(0xFFFF_FFFF)),
        "status" => Some(Ty::Status(0)),
        "sstatus" => Some(Ty::SignedStatus(0)),
        "mask" => Some(Ty::Mask),
        "handle" => Some(Ty::Handle),
        "entry" => Some(Ty::Entry),
        _ => one_number(word),
    }
}

/// A type, as notes have it; a number alone is that constant, and `status:0,2` grants the fields 0 and 2.
pub fn ty(text: &str) -> Option<Ty> {
    match text.split_once(':') {
        Some((word, rest)) => marked_type(word, rest),
        None => plain_type(text),
    }
}

/// The kind of a slot.
pub fn slot_kind(word: &str) -> Option<SlotKind> {
    match word {
        "n" => Some(SlotKind::N),
        "q" => Some(SlotKind::Q),
        "d" => Some(SlotKind::D),
        _ => None,
    }
}

fn marked_want(word: &str, rest: &str) -> Option<Want> {
    match word {
        "int" => {
            let (lo, hi) = range(rest)?;
            Some(Want::Int { lo, hi })
        }
        "size" => {
            let (n, c) = pair(rest)?;
            Some(Want::Size { n, c })
        }
        "out" => Some(Want::Out(cell(rest)?)),
        "inout" => Some(Want::Inout(cell(rest)?)),
        _ => None,
    }
}

/// What an argument of a native method has to be.
pub fn want(text: &str) -> Option<Want> {
    match text.split_once(':') {
        Some((word, rest)) => marked_want(word, rest),
        None => match text {
            "any" => Some(Want::Any),
            "ptr" => Some(Want::Ptr),
            "handle" => Some(Want::Handle),
            "status" => Some(Want::Status),
            "entry" => Some(Want::Entry),
            _ => None,
        },
    }
}

// ---- states

/// `locals`, or `n:TYPE`, a slot of a kind.
fn item(text: &str) -> Option<Item> {
    match text.split_once(':') {
        Some((kind, t)) => Some(Item::Slot {
            kind: slot_kind(kind)?,
            ty: ty(t)?,
        }),
        None => match text {
            "locals" => Some(Item::Locals),
            _ => None,
        },
    }
}

/// `n:handle;locals`: items from the top.
fn items(text: &str) -> Option<Items> {
    let mut items = Items::new();
    if text == "none" {
        return Some(items);
    }
    for one in text.split(';') {
        if 65 <= items.len() {
            return None;
        }
        items.push_below(item(one)?);
    }
    Some(items)
}

fn comparison(word: &str) -> Option<CmpOp> {
    match word {
        "eq" => Some(CmpOp::Eq),
        "lte" => Some(CmpOp::Lte),
        "gte" => Some(CmpOp::Gte),
        "ulte" => Some(CmpOp::Ulte),
        "ugte" => Some(CmpOp::Ugte),
        _ => None,
    }
}

/// `R4`: the number of a register.
fn register(word: &str) -> Option<u8> {
    let number = word.strip_prefix('R')?.parse::<u8>().ok()?;
    if number < 8 { Some(number) } else { None }
}

/// `R4,ulte,9`, or `none`.
fn fact(text: &str) -> Option<Option<Fact>> {
    if text == "none" {
        return Some(None);
    }
    let (reg, rest) = text.split_once(',')?;
    let (op, k) = rest.split_once(',')?;
    Some(Some(Fact {
        reg: register(reg)?,
        op: comparison(op)?,
        k: number(k)?,
    }))
}

fn put_type(s: &mut State, reg: &str, t: &str) -> Option<()> {
    let reg = register(reg)?;
    let t = ty(t)?;
    if reg < 8 {
        s.regs[reg as usize] = t;
    }
    Some(())
}

/// Puts what a word says into a state: `R4=TYPE`, `stack=ITEMS`, `written=FIELDS`, `made=NUMBER` or `fact=FACT`.
pub fn put_word(s: &mut State, word: &str) -> Option<()> {
    let (key, value) = word.split_once('=')?;
    match key {
        "stack" => s.items = items(value)?,
        "written" => s.written = fields(value)?,
        "made" => s.made = short(value)?,
        "fact" => s.fact = fact(value)?,
        _ => put_type(s, key, value)?,
    }
    Some(())
}

/// A state with what words say put into it.
pub fn state_with(s: &State, words: &str) -> Option<State> {
    let mut after = s.copy();
    for word in words.split_whitespace() {
        put_word(&mut after, word)?;
    }
    Some(after)
}

/// The state in which nothing is known and R1 to R3 are as they were.
pub fn first_state() -> State {
    State {
        regs: [
            Ty::Any,
            Ty::Saved(1),
            Ty::Saved(2),
            Ty::Saved(3),
            Ty::Any,
            Ty::Any,
            Ty::Any,
            Ty::Any,
        ],
        items: Items::new(),
        written: 0,
        made: 0,
        fact: None,
    }
}

/// Puts what a word says of where the instruction stands: `at=PLACE`, `in=FUNCTION` or `reloc=PLACE`. `None` where the word
/// says nothing of it.
pub fn put_here(here: &mut Here, word: &str) -> Option<()> {
    let (key, value) = word.split_once('=')?;
    match key {
        "at" => here.place = place(value)?,
        "in" => here.func = short(value)?,
        "reloc" => here.reloc = Some(place(value)?),
        _ => return None,
    }
    Some(())
}

/// The rules that an instruction can break, by their names in rows.
const RULES: [(&str, RuleName); 16] = [
    ("function", RuleName::Function),
    ("relocation", RuleName::Relocation),
    ("form", RuleName::Form),
    ("stack", RuleName::Stack),
    ("address", RuleName::Address),
    ("null", RuleName::Null),
    ("unwritten", RuleName::Unwritten),
    ("store", RuleName::Store),
    ("compare", RuleName::Compare),
    ("divide", RuleName::Divide),
    ("target", RuleName::Target),
    ("site", RuleName::Site),
    ("level", RuleName::Level),
    ("thunk", RuleName::Thunk),
    ("arguments", RuleName::Arguments),
    ("return", RuleName::Return),
];

/// A rule by its name.
pub fn rule(word: &str) -> Option<RuleName> {
    for (name, rule) in RULES {
        if name == word {
            return Some(rule);
        }
    }
    None
}

/// The name of a rule, or that no instruction breaks it.
pub fn rule_text(wanted: RuleName) -> &'static str {
    for (name, rule) in RULES {
        if rule == wanted {
            return name;
        }
    }
    "a rule that no instruction breaks"
}
