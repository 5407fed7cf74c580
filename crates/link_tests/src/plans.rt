//! What is told of texts of link plans.

use ebc_link::{LinkPlan, read_plan};
use note_types::{NotesEnd, TomlFault};
use std::alloc::{AllocError, Global};
use std::process::Abort;
use std::test::Fail;

/// What a fault says, as `Kind base`.
fn said(alloc: Global, end: NotesEnd) -> Result<String, AllocError> {
    let (word, path) = match end {
        NotesEnd::NoMemory => return String::from_str(alloc, "NoMemory"),
        NotesEnd::Fault(TomlFault::NotToml) => return String::from_str(alloc, "NotToml"),
        NotesEnd::Fault(TomlFault::Missing(path)) => ("Missing", path),
        NotesEnd::Fault(TomlFault::Kind(path)) => ("Kind", path),
        NotesEnd::Fault(TomlFault::Name(path)) => ("Name", path),
        NotesEnd::Fault(TomlFault::Range(path)) => ("Range", path),
        NotesEnd::Fault(TomlFault::Twice(path)) => ("Twice", path),
    };
    let path = path.as_str();
    format!(in alloc; "{word} {path}")
}

/// A plan in text, as `a.obj, b.obj at start for 11 from 65536`.
fn shown(alloc: Global, plan: &LinkPlan) -> Result<String, AllocError> {
    let mut objects = String::new(alloc);
    for object in plan.objects.as_slice() {
        if !objects.is_empty() {
            objects.push_str(", ")?;
        }
        objects.push_str(object.as_str())?;
    }
    let entry = plan.entry.as_str();
    format!(in alloc;
        "{objects} at {entry} for {} from {}",
        plan.subsystem, plan.base
    )
}

/// What is told of a text is what is wanted.
fn tells(rt: &impl Abort, alloc: Global, text: &[u8], wanted: &str) -> Result<(), Fail> {
    let told = match read_plan(alloc, text) {
        Ok(plan) => shown(alloc, &plan)?,
        Err(end) => said(alloc, end)?,
    };
    assert!(rt; told.as_str() == wanted, "told {told}, wanted {wanted}");
    Ok(())
}

/// A text with a line for each part between two `#`.
fn lines_of(alloc: Global, text: &str) -> Result<String, AllocError> {
    let mut lines = String::new(alloc);
    for line in text.split('#') {
        lines.push_str(line)?;
        lines.push_str("\n")?;
    }
    Ok(lines)
}

/// Plans and faults, key by key.
const PLANS: &str = "\
objects = ['a.obj']#entry = 'start'#subsystem = 10#base = 65536|a.obj at start for 10 from 65536
objects = ['b.obj', 'dir/a b.obj', 'é', 'B.obj']#entry = '.x_9'#subsystem = 12#base = 0|b.obj, dir/a b.obj, é, B.obj at .x_9 for 12 from 0
base = 0xFFFF0000#subsystem = 11#entry = 'e'#objects = [' ']|  at e for 11 from 4294901760
objects = |NotToml
|Missing objects
entry = 1#subsystem = 1#base = 1#x = 1|Missing objects
objects = 'a'|Kind objects
objects = {}|Kind objects
objects = []|Range objects
objects = ['']|Range objects
objects = [1]|Kind objects
objects = ['a', '', 1]|Range objects
objects = ['a', 1, '']|Kind objects
objects = ['a', ['a']]|Kind objects
objects = ['a']|Missing entry
objects = ['a']#entry = 1|Kind entry
objects = ['a']#entry = ''|Range entry
objects = ['a']#entry = '9e'|Range entry
objects = ['a']#entry = 'e'|Missing subsystem
objects = ['a']#entry = 'e'#subsystem = '10'|Kind subsystem
objects = ['a']#entry = 'e'#subsystem = 9|Range subsystem
objects = ['a']#entry = 'e'#subsystem = 13|Range subsystem
objects = ['a']#entry = 'e'#subsystem = 10|Missing base
objects = ['a']#entry = 'e'#subsystem = 10#base = 1.0|Kind base
objects = ['a']#entry = 'e'#subsystem = 10#base = -65536|Range base
objects = ['a']#entry = 'e'#subsystem = 10#base = 65535|Range base
objects = ['a']#entry = 'e'#subsystem = 10#base = 4096|Range base
objects = ['a']#entry = 'e'#subsystem = 10#base = 131073|Range base
objects = ['a']#entry = 'e'#subsystem = 10#base = 4294967296|Range base
objects = ['a']#entry = 'e'#subsystem = 10#base = 0#version = 1|Kind version
objects = ['a']#entry = 'e'#subsystem = 10#base = 0#Base = 0#'a.b' = 1|Kind Base
objects = ['a']#entry = 'e'#subsystem = 10#base = 1#a = 1|Range base
objects = ['a', 'b', 'a']#entry = 'e'#subsystem = 10#base = 0|Twice objects
objects = ['a', 'a']#entry = 'e'#subsystem = 10#base = 0#x = 1|Kind x
objects = ['a', 'a']#entry = 'e'#subsystem = 10#base = 1|Range base";

#[test]
fn tells_plans(rt: HostRuntime) -> Result<(), Fail> {
    let alloc = rt.alloc();
    for row in PLANS.split('\n') {
        let Some((text, wanted)) = row.split_once('|') else {
            return Err(Fail::new("a row without an answer"));
        };
        tells(&rt, alloc, lines_of(alloc, text)?.as_bytes(), wanted)?;
    }
    tells(&rt, alloc, b"# \xff", "NotToml")
}

/// A text whose list has so many objects, and then the other keys.
fn plan_of(alloc: Global, count: usize) -> Result<String, AllocError> {
    let mut text = String::from_str(alloc, "objects = [")?;
    for number in 0..count {
        text.push_str(format!(in alloc; "'o{number}', ")?.as_str())?;
    }
    text.push_str("]\nentry = 'e'\nsubsystem = 10\nbase = 0\n")?;
    Ok(text)
}

/// A plan may name 256 objects, and no more. The count is tried before the items.
#[test]
fn tells_limits_of_objects(rt: HostRuntime) -> Result<(), Fail> {
    let alloc = rt.alloc();
    let most = plan_of(alloc, 256)?;
    assert!(rt; read_plan(alloc, most.as_bytes()).is_ok_and(|plan| plan.objects.len() == 256));
    tells(&rt, alloc, plan_of(alloc, 257)?.as_bytes(), "Range objects")?;
    let items = "0, ".repeat(alloc, 256)?;
    let items = items.as_str();
    let most = format!(in alloc; "objects = [{items}]")?;
    tells(&rt, alloc, most.as_bytes(), "Kind objects")?;
    let more = format!(in alloc; "objects = [{items}0]")?;
    tells(&rt, alloc, more.as_bytes(), "Range objects")
}
