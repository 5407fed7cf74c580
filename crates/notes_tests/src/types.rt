//! Worked rows of cells, shapes, types, states and entries.
use ebc_insn::CmpOp;
use note_types::{
    Cell, CompactState, Fact, Field, FnNote, Item, Items, Name, Notes, Pair, PlacedList, Sequence,
    Shape, ShapeFault, SlotKind, State, Thunk, Ty, cell_size, code_limit, content_type, divides,
    entry_state, fits_below, point_limit, shape_ok, ty_below,
};
use std::alloc::{AllocError, Global};
use std::test::Fail;

fn name(alloc: Global, text: &str) -> Result<Name, AllocError> {
    Ok(Name::new(String::from_str(alloc, text)?))
}

fn field(alloc: Global, n: u32, c: u32, cell: Cell) -> Result<Field, AllocError> {
    Ok(Field {
        name: name(alloc, "f")?,
        n,
        c,
        cell,
    })
}

fn shape_of(alloc: Global, n: u32, c: u32, fields: Vec<Field>) -> Result<Shape, AllocError> {
    Ok(Shape {
        name: name(alloc, "Rec")?,
        n,
        c,
        fields: Sequence::new(fields),
    })
}

const NUMBER: Cell = Cell::I32;

const POINTER: Cell = Cell::Ptr {
    shape: 0,
    count: 1,
    null: true,
};

#[test]
fn shapes(rt: HostRuntime) -> Result<(), Fail> {
    let alloc = rt.alloc();
    // The place of the pointer after the number, the size, and what is said of the shape.
    let rows = [
        ((1, 0), (2, 0), Ok(())),
        ((0, 4), (1, 4), Ok(())),
        (
            (0, 4),
            (0, 8),
            Err(ShapeFault::Outside { width: 8, field: 1 }),
        ),
        (
            (0, 2),
            (2, 0),
            Err(ShapeFault::Overlap {
                width: 4,
                first: 0,
                second: 1,
            }),
        ),
        ((1, 0), (0, 0), Err(ShapeFault::Empty { width: 4 })),
        (
            (1, 0),
            (1, 0),
            Err(ShapeFault::Outside { width: 4, field: 1 }),
        ),
    ];
    for ((n, c), (size_n, size_c), said) in rows {
        let fields = vec![in alloc; field(alloc, 0, 0, NUMBER)?, field(alloc, n, c, POINTER)?]?;
        let shape = shape_of(alloc, size_n, size_c, fields)?;
        assert!(rt; shape.fields.len() == 2);
        assert!(rt; shape_ok(&shape) == said);
    }
    Ok(())
}

#[test]
fn overlaps(rt: HostRuntime) -> Result<(), Fail> {
    let alloc = rt.alloc();
    // The second number overlaps the third at both widths, and the pointer the first number at 8 alone.
    let fields = vec![in alloc;
        field(alloc, 0, 8, NUMBER)?,
        field(alloc, 0, 12, NUMBER)?,
        field(alloc, 0, 14, NUMBER)?,
        field(alloc, 0, 4, POINTER)?,
    ]?;
    let shape = shape_of(alloc, 0, 18, fields)?;
    assert!(rt; shape.fields.len() == 4);
    assert!(rt;
        shape_ok(&shape)
            == Err(ShapeFault::Overlap {
                width: 4,
                first: 1,
                second: 2
            })
    );

    let fields = vec![in alloc; field(alloc, 0, 0, POINTER)?, field(alloc, 0, 4, NUMBER)?]?;
    let shape = shape_of(alloc, 0, 8, fields)?;
    assert!(rt; shape.fields.len() == 2);
    assert!(rt;
        shape_ok(&shape)
            == Err(ShapeFault::Overlap {
                width: 8,
                first: 0,
                second: 1
            })
    );
    Ok(())
}

#[test]
fn cells(rt: HostRuntime) {
    let rows = [
        (
            Cell::I8,
            1,
            1,
            Ty::Int {
                lo: 0,
                hi: 0xFF,
                div: 1,
            },
        ),
        (
            Cell::I16,
            2,
            2,
            Ty::Int {
                lo: 0,
                hi: 0xFFFF,
                div: 1,
            },
        ),
        (
            Cell::I32,
            4,
            4,
            Ty::Int {
                lo: 0,
                hi: 0xFFFF_FFFF,
                div: 1,
            },
        ),
        (
            Cell::I64,
            8,
            8,
            Ty::Int {
                lo: 0,
                hi: 0xFFFF_FFFF_FFFF_FFFF,
                div: 1,
            },
        ),
        (
            Cell::N,
            4,
            8,
            Ty::Int {
                lo: 0,
                hi: 0xFFFF_FFFF,
                div: 1,
            },
        ),
        (Cell::Stat, 4, 8, Ty::Status(0)),
        (Cell::Handle, 4, 8, Ty::Handle),
        (Cell::Entry, 4, 8, Ty::Entry),
        (
            Cell::Ptr {
                shape: 2,
                count: 3,
                null: true,
            },
            4,
            8,
            pointer(2, 3, 0, 0, true),
        ),
        (
            Cell::P64 {
                shape: 2,
                count: 3,
                null: false,
            },
            8,
            8,
            pointer(2, 3, 0, 0, false),
        ),
        (Cell::Method(5), 4, 8, Ty::Method(5)),
    ];
    for (cell, at_four, at_eight, content) in rows {
        assert!(rt; cell_size(4, &cell) == at_four);
        assert!(rt; cell_size(8, &cell) == at_eight);
        assert!(rt; content_type(&cell) == content);
    }
}

fn pointer(shape: u32, count: u64, n: i32, c: i32, null: bool) -> Ty {
    Ty::Ptr {
        shape,
        count,
        n,
        c,
        null,
    }
}

fn int(lo: u64, hi: u64, div: u64) -> Ty {
    Ty::Int { lo, hi, div }
}

#[test]
fn types_below(rt: HostRuntime) {
    let rows = [
        // Any, and equal types
        (Ty::Lin { n: 1, c: -8 }, Ty::Any, true),
        (Ty::Any, Ty::Handle, false),
        (Ty::Lent(POINTER), Ty::Lent(POINTER), true),
        (Ty::Lent(POINTER), Ty::Lent(NUMBER), false),
        (Ty::Lin { n: 1, c: -8 }, Ty::Lin { n: 1, c: 8 }, false),
        // numbers
        (int(8, 80, 8), int(0, 80, 4), true),
        (int(8, 80, 4), int(0, 80, 8), false),
        (int(24, 24, 1), int(0, 80, 8), true),
        (int(8, 88, 8), int(0, 80, 8), false),
        // pointers
        (pointer(0, 10, 0, 4, false), pointer(0, 9, 0, 4, true), true),
        (
            pointer(0, 9, 0, 4, false),
            pointer(0, 10, 0, 4, false),
            false,
        ),
        (pointer(0, 1, 0, 0, true), pointer(0, 1, 0, 0, false), false),
        (pointer(0, 1, 0, 0, true), pointer(0, 1, 0, 0, true), true),
        (
            pointer(0, 1, 0, 0, false),
            pointer(1, 1, 0, 0, false),
            false,
        ),
        (
            pointer(0, 1, 1, 0, false),
            pointer(0, 1, 0, 0, false),
            false,
        ),
        // null
        (int(0, 0, 1), pointer(0, 1, 0, 0, true), true),
        (int(0, 0, 1), pointer(0, 1, 0, 4, true), false),
        (int(0, 0, 1), pointer(0, 1, 0, 0, false), false),
        (int(0, 0, 1), Ty::Entry, true),
        (int(0, 1, 1), Ty::Handle, false),
        // a status without error
        (int(0, 0x7FFF_FFFF, 1), Ty::Status(0), true),
        (int(0, 0x8000_0000, 1), Ty::Status(0), false),
        (int(0, 0, 1), Ty::Status(1), false),
        // grants
        (Ty::Status(5), Ty::Status(4), true),
        (Ty::Status(4), Ty::Status(5), false),
        (Ty::SignedStatus(3), Ty::SignedStatus(2), true),
        (Ty::SignedStatus(1), Ty::Status(1), false),
    ];
    for (a, b, below) in rows {
        assert!(rt; ty_below(&a, &b) == below);
    }
}

// A state with one slot of a type in R4 too, below it the locals, and field 0 written.
fn state(ty: Ty) -> State {
    let mut items = Items::new();
    items.push(Item::Locals);
    items.push(Item::Slot {
        kind: SlotKind::N,
        ty,
    });
    State {
        regs: [
            Ty::Any,
            Ty::Saved(1),
            Ty::Saved(2),
            Ty::Saved(3),
            ty,
            Ty::Any,
            Ty::Any,
            Ty::Mask,
        ],
        items,
        written: 1,
        made: 2,
        fact: None,
    }
}

// Whether a state is below another one.
fn is_below(alloc: Global, s: &State, t: &State) -> Result<bool, AllocError> {
    Ok(fits_below(s, &CompactState::new(alloc, t)?))
}

#[test]
fn states_below(rt: HostRuntime) -> Result<(), Fail> {
    let alloc = rt.alloc();
    let fact = Fact {
        reg: 4,
        op: CmpOp::Eq,
        k: 0,
    };
    let mut s = state(pointer(0, 2, 0, 0, false));
    let t = state(pointer(0, 1, 0, 0, true));
    s.fact = Some(fact);
    assert!(rt; is_below(alloc, &s, &t)?);
    assert!(rt; !is_below(alloc, &t, &s)?);
    assert!(rt; is_below(alloc, &t, &t)?);
    assert!(rt; !is_below(alloc, &s, &s)?, "a fact is claimed");

    let mut u = t.copy();
    u.written = 3;
    assert!(rt;
        is_below(alloc, &u, &t)? && !is_below(alloc, &t, &u)?,
        "more is written"
    );
    let mut u = t.copy();
    u.made = 1;
    assert!(rt;
        !is_below(alloc, &u, &t)? && !is_below(alloc, &t, &u)?,
        "fewer thunks are made"
    );
    let mut u = t.copy();
    u.regs[7] = Ty::Any;
    assert!(rt;
        is_below(alloc, &t, &u)? && !is_below(alloc, &u, &t)?,
        "R7 is any"
    );
    let mut u = t.copy();
    assert!(rt; u.items.len() == 2);
    u.items.push(Item::Locals);
    assert!(rt;
        !is_below(alloc, &u, &t)? && !is_below(alloc, &t, &u)?,
        "an item more"
    );
    let mut u = t.copy();
    let top = u.items.pop();
    assert!(rt;
        top == Some(Item::Slot {
            kind: SlotKind::N,
            ty: pointer(0, 1, 0, 0, true)
        })
    );
    assert!(rt; u.items.len() == 1);
    u.items.push(Item::Slot {
        kind: SlotKind::Q,
        ty: pointer(0, 1, 0, 0, true),
    });
    assert!(rt; !is_below(alloc, &u, &t)?, "another kind of slot");
    Ok(())
}

#[test]
fn compact_states(rt: HostRuntime) -> Result<(), Fail> {
    let alloc = rt.alloc();
    let mut full = state(Ty::Handle);
    for _ in 0..63 {
        if full.items.len() < 65 {
            full.items.push(Item::Locals);
        }
    }
    assert!(rt; full.items.len() == 65);
    let mut bare = state(Ty::Any);
    bare.items.clear();
    assert!(rt; bare.items.is_empty());
    bare.fact = Some(Fact {
        reg: 4,
        op: CmpOp::Eq,
        k: 7,
    });
    for (kept, mut other) in [(&full, bare.copy()), (&bare, full.copy())] {
        let compact = CompactState::new(alloc, kept)?;
        let again = compact.state();
        compact.put(&mut other);
        for one in [again, other] {
            assert!(rt; one.regs == kept.regs && one.items.as_slice() == kept.items.as_slice());
            assert!(rt; (one.written, one.made, one.fact) == (kept.written, kept.made, kept.fact));
        }
    }
    Ok(())
}

fn function(alloc: Global, text: &str) -> Result<FnNote, AllocError> {
    Ok(FnNote {
        name: name(alloc, text)?,
        place: 0x1000,
        end: 0x1002,
        level: 0,
        need: Pair { n: 0, c: 0 },
        locals: None,
        params: Sequence::new(Vec::new(alloc)),
        result: Ty::Any,
        enter: true,
    })
}

#[test]
fn entries(rt: HostRuntime) -> Result<(), Fail> {
    let alloc = rt.alloc();
    let thunks = vec![in alloc;
        Thunk {
            place: 0x2000,
            function: 1
        },
        Thunk {
            place: 0x2008,
            function: 1
        },
    ]?;
    let notes = Notes {
        version: 1,
        entry: 0,
        shape: Sequence::new(Vec::new(alloc)),
        statics: PlacedList::new(alloc, Vec::new(alloc))?,
        thunk: PlacedList::new(alloc, thunks)?,
        function: PlacedList::new(
            alloc,
            vec![in alloc; function(alloc, "main")?, function(alloc, "tick")?]?,
        )?,
        point: Sequence::new(Vec::new(alloc)),
        signature: Sequence::new(Vec::new(alloc)),
        site: Sequence::new(Vec::new(alloc)),
        methods: Sequence::new(Vec::new(alloc)),
    };
    assert!(rt; notes.function.len() == 2 && notes.thunk.len() == 2);
    for (func, made) in [(0, 0), (1, 2)] {
        let state = entry_state(&notes, func);
        let saved = [Ty::Saved(1), Ty::Saved(2), Ty::Saved(3)];
        assert!(rt; &state.regs[1..4] == saved.as_slice());
        for r in [0, 4, 5, 6, 7] {
            assert!(rt; state.regs[r] == Ty::Any);
        }
        assert!(rt; state.items.is_empty() && state.items.len() == 0);
        assert!(rt; (state.written, state.made, state.fact) == (0, made, None));
    }
    Ok(())
}

#[test]
fn divisors(rt: HostRuntime) {
    for (d, x, divided) in [
        (3, 12, true),
        (5, 12, false),
        (7, 0, true),
        (0, 0, true),
        (0, 7, false),
    ] {
        assert!(rt; divides(d, x) == divided, "{d} divides {x}");
    }
}

#[test]
fn limits(rt: HostRuntime) {
    assert!(rt; (code_limit(1), point_limit(1)) == (256 * 1024, 16 * 1024));
    assert!(rt; (code_limit(2), point_limit(2)) == (1024 * 1024, 32 * 1024));
    assert!(rt; (code_limit(3), point_limit(3)) == (0, 0));
}

#[test]
fn items(rt: HostRuntime) {
    let slot = Item::Slot {
        kind: SlotKind::D,
        ty: Ty::Mask,
    };
    let mut items = Items::new();
    items.push(Item::Locals);
    items.push(slot);
    items.push_below(Item::Locals);
    let all = [slot, Item::Locals, Item::Locals];
    assert!(rt; items.copy().as_slice() == all.as_slice());
    assert!(rt; items.pop() == Some(slot));
    assert!(rt; items.pop() == Some(Item::Locals));
    assert!(rt; items.pop() == Some(Item::Locals));
    assert!(rt; items.pop() == None);
}
