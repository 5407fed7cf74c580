//! The lists of arguments, as a trace keeps them.
use note_types::{Args, Event, Seen, Value};
use std::test::Fail;

fn seen(value: Value) -> Seen {
    Seen { lent: false, value }
}

#[test]
fn arguments_are_kept_in_their_order(rt: HostRuntime) -> Result<(), Fail> {
    let mut args = Args::new();
    assert!(rt; args.is_empty());
    args.push(seen(Value::Entry(1)));
    args.push(Seen {
        lent: true,
        value: Value::Int(7),
    });
    assert!(rt; args.len() == 2);
    assert!(rt; args.as_slice()[0] == seen(Value::Entry(1)));
    assert!(rt; args.as_slice()[1].lent);
    assert!(rt; args.copy() == args);
    args.push(Seen::default());
    assert!(rt; args.as_slice()[2] == seen(Value::Any));
    Ok(())
}

#[test]
fn events_differ_by_their_arguments(rt: HostRuntime) -> Result<(), Fail> {
    let mut args = Args::new();
    args.push(seen(Value::Int(1)));
    let one = Event::Entered { func: 1, args };
    let mut args = Args::new();
    args.push(seen(Value::Int(2)));
    let other = Event::Entered { func: 1, args };
    assert!(rt; one == one);
    assert!(rt; one != other);
    Ok(())
}
