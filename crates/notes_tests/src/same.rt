//! Which values are one.
use host_model::{same_seen, same_value};
use note_types::{Seen, Value};
use std::test::Fail;

fn seen(lent: bool, number: u64) -> Seen {
    Seen {
        lent,
        value: Value::Int(number),
    }
}

#[test]
fn values_are_one_where_form_and_numbers_are(rt: HostRuntime) -> Result<(), Fail> {
    assert!(rt; same_value(&Value::Handle(3), &Value::Handle(3)));
    assert!(rt; !same_value(&Value::Handle(3), &Value::Entry(3)));
    assert!(rt; same_seen(&seen(true, 7), &seen(true, 7)));
    assert!(rt; !same_seen(&seen(true, 7), &seen(false, 7)));
    Ok(())
}
