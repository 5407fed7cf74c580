//! Which written values fit which types.
use host_model::{TypedObject, fits, fits_each};
use note_types::{Param, SlotKind, Ty, Value};
use std::test::Fail;

const MADE: [TypedObject; 2] = [
    TypedObject { shape: 0, count: 1 },
    TypedObject { shape: 1, count: 4 },
];

const NULL_OR_TWO: Ty = Ty::Ptr {
    shape: 1,
    count: 2,
    n: 0,
    c: 0,
    null: true,
};

const TWO: Ty = Ty::Ptr {
    shape: 1,
    count: 2,
    n: 0,
    c: 0,
    null: false,
};

const PAST_THE_START: Ty = Ty::Ptr {
    shape: 1,
    count: 1,
    n: 0,
    c: 4,
    null: true,
};

const TENS: Ty = Ty::Int {
    lo: 10,
    hi: 90,
    div: 10,
};

fn instance(object: u64, instance: u64) -> Value {
    Value::Ptr { object, instance }
}

#[test]
fn values_fit_their_types(rt: HostRuntime) -> Result<(), Fail> {
    let rows = [
        (TENS, Value::Int(90), true),
        (TENS, Value::Int(100), false),
        (TENS, Value::Int(15), false),
        (TENS, Value::Size { n: 0, c: 20 }, false),
        (TWO, instance(1, 2), true),
        (TWO, instance(1, 3), false),
        (TWO, instance(0, 0), false),
        (TWO, instance(2, 0), false),
        (TWO, Value::Null, false),
        (NULL_OR_TWO, Value::Null, true),
        (PAST_THE_START, instance(1, 0), false),
        (PAST_THE_START, Value::Null, false),
        (Ty::Status(0), Value::StatusOk(0), true),
        (Ty::Status(0), Value::StatusError(14), true),
        (Ty::Status(0), Value::StatusError(1 << 31), false),
        (Ty::Status(0), Value::StatusOk(1 << 31), false),
        (Ty::Status(0), Value::Int(0), false),
        (Ty::Handle, Value::Handle(1023), true),
        (Ty::Handle, Value::Null, true),
        (Ty::Handle, Value::Entry(0), false),
        (Ty::Entry, Value::Entry(0), true),
        (Ty::Entry, Value::Null, true),
        (Ty::Entry, Value::Handle(0), false),
        (Ty::Method(1), Value::Method(1), true),
        (Ty::Method(1), Value::Method(0), false),
        (Ty::Any, Value::Any, true),
        (Ty::Any, Value::Size { n: 1, c: 0 }, true),
        (Ty::Any, instance(1, 9), true),
        (Ty::Any, instance(2, 0), false),
        (Ty::Any, Value::Out, false),
        (Ty::Any, Value::Wild(0), false),
        (Ty::Lin { n: 1, c: 0 }, Value::Size { n: 1, c: 0 }, false),
        (Ty::Handle, Value::Any, false),
    ];
    for (ty, value, said) in rows {
        assert!(rt; fits(&MADE, &ty, &value) == said);
    }
    Ok(())
}

#[test]
fn values_fit_parameters_one_for_each(rt: HostRuntime) -> Result<(), Fail> {
    let params = [
        Param {
            kind: SlotKind::N,
            ty: Ty::Handle,
        },
        Param {
            kind: SlotKind::N,
            ty: TWO,
        },
    ];
    let both = [Value::Handle(0), instance(1, 0)];
    assert!(rt; fits_each(&MADE, &params, &both));
    assert!(rt; !fits_each(&MADE, &params, &both[..1]));
    assert!(rt; !fits_each(&MADE, &params, &[Value::Null, Value::Null]));
    Ok(())
}
