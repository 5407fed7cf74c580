//! What sources are linked to.

use crate::digits::bytes_of;
use ebc_asm::assemble;
use ebc_base::{Name, Sequence};
use ebc_link::{LinkEnd, link, read_plan};
use ebc_object::{Object, Symbol, object_ok};
use pe_image::{Image, Section};
use std::alloc::{AllocError, Global};
use std::process::Abort;
use std::test::Fail;

/// The object of a source, with a line for each part between two `#`.
fn object_of(alloc: Global, text: &str) -> Result<Object, Fail> {
    let mut source = String::new(alloc);
    for line in text.split('#') {
        source.push_str(line)?;
        source.push_str("\n")?;
    }
    match assemble(alloc, source.as_bytes()) {
        Ok(object) => Ok(object),
        Err(_) => Err("a source that isn't assembled".into()),
    }
}

/// What objects are linked to with this entry, for subsystem 11 and from 65536.
fn linked(alloc: Global, objects: &[Object], entry: &str) -> Result<Result<Image, LinkEnd>, Fail> {
    let mut text = String::from_str(alloc, "objects = [")?;
    for number in 0..objects.len() {
        text.push_str(format!(in alloc; "'o{number}', ")?.as_str())?;
    }
    text.push_str(format!(in alloc;
        "]\nentry = '{entry}'\nsubsystem = 11\nbase = 65536\n"
    )?.as_str())?;
    let Ok(plan) = read_plan(alloc, text.as_bytes()) else {
        return Err("a plan that isn't read".into());
    };
    if !objects.iter().all(|object| object_ok(object)) || plan.objects.len() != objects.len() {
        return Err("objects that can't be linked".into());
    }
    Ok(link(alloc, objects, &plan))
}

/// What a fault says, as `Twice f`.
fn said(alloc: Global, end: LinkEnd) -> Result<String, AllocError> {
    match end {
        LinkEnd::Twice(name) => format!(in alloc; "Twice {}", name.as_str()),
        LinkEnd::Undefined(name) => format!(in alloc; "Undefined {}", name.as_str()),
        LinkEnd::Far(place) => format!(in alloc; "Far {place:x}"),
        LinkEnd::Entry => String::from_str(alloc, "Entry"),
        LinkEnd::Size => String::from_str(alloc, "Size"),
        LinkEnd::NoMemory => String::from_str(alloc, "NoMemory"),
    }
}

/// A section at a place that hexadecimal digits spell in front of those of its bytes, if there are any.
fn section_of(
    alloc: Global,
    name: [u8; 8],
    flags: u32,
    text: &str,
) -> Result<Option<Section>, Fail> {
    let Some((place, digits)) = text.split_once(' ') else {
        return Ok(None);
    };
    let bytes = bytes_of(alloc, digits)?;
    Ok(Some(Section {
        name,
        place: u32::from_str_radix(place, 16)?,
        size: u32::try_from(bytes.len())?,
        flags,
        bytes: Sequence::new(bytes),
    }))
}

/// The image that a text stands for, as `1000 2000: 1000 04 00: 2000 01: 1002`: the entry and the size, code and data with their
/// places, and relocations.
fn image_of(alloc: Global, text: &str) -> Result<Image, Fail> {
    let mut parts = text.split(':');
    let (Some(head), Some(code), Some(data), Some(places)) = (
        parts.next(),
        parts.next(),
        parts.next(),
        parts.next(),
    ) else {
        return Err("an image without its parts".into());
    };
    let (entry, size) = head.split_once(' ').ok_or("an image without a size")?;
    let mut sections = Vec::new(alloc);
    if let Some(section) = section_of(alloc, *b".text\0\0\0", 0x6000_0020, code.trim())? {
        sections.push(section)?;
    }
    if let Some(section) = section_of(alloc, *b".data\0\0\0", 0xC000_0040, data.trim())? {
        sections.push(section)?;
    }
    let mut relocs = Vec::new(alloc);
    for place in places.split_whitespace() {
        relocs.push(u32::from_str_radix(place, 16)?)?;
    }
    Ok(Image {
        base: 65536,
        entry: u32::from_str_radix(entry, 16)?,
        size: u32::from_str_radix(size, 16)?,
        subsystem: 11,
        sections: Sequence::new(sections),
        relocs: Sequence::new(relocs),
    })
}

/// Objects are linked to what is wanted: an image, or a fault.
fn links(
    rt: &impl Abort,
    alloc: Global,
    objects: &[Object],
    entry: &str,
    wanted: &str,
) -> Result<(), Fail> {
    match linked(alloc, objects, entry)? {
        Ok(image) => {
            assert!(rt;
                image == image_of(alloc, wanted)?,
                "another image than {wanted}"
            );
        }
        Err(end) => {
            let told = said(alloc, end)?;
            assert!(rt; told.as_str() == wanted, "told {told}, wanted {wanted}");
        }
    }
    Ok(())
}

/// Sources, with `/` between two, the entry, and what they are linked to.
const LINKS: &str = "\
.global start#start: RET|start|1000 2000: 1000 04 00: :
.global start#start: RET#.db 1/.global g#g: RET|g|1004 2000: 1000 04 00 01 00 04 00: :
.global s#s: RET#.data#.db 1/.data#.db 2/.data/.data#.db 3|s|1000 3000: 1000 04 00: 2000 01 00 00 00 00 00 00 00 02 00 00 00 00 00 00 00 03:
.global s#s: RET#.db 1/.data#.db 2/.global t#t: RET|t|1004 3000: 1000 04 00 01 00 04 00: 2000 02 00 00 00 00 00 00 00:
.global s#s: RET#.db 1//.data#.db 2|s|1000 3000: 1000 04 00 01 00: 2000 02:
.global s#s: RET#.dq d#.data#d:|s|1000 3000: 1000 04 00 00 20 01 00 00 00 00 00: : 1002
.global s#.data#d: .dq d#.code#s: RET|s|1000 4000: 1000 04 00: 2000 00 20 01 00 00 00 00 00: 2000
.global s#s: RET#.dq s#.data#.dq s/RET#.dq f#f: RET#.data#.dq f|s|1000 4000: 1000 04 00 00 10 01 00 00 00 00 00 04 00 14 10 01 00 00 00 00 00 04 00: 2000 00 10 01 00 00 00 00 00 14 10 01 00 00 00 00 00: 1002 100c 2000 2008
.global s#s: CALL32 g#RET/.global g#g: RET|s|1000 2000: 1000 83 10 02 00 00 00 04 00 04 00: :
.global s#s: CALL64 g#RET/RET/.global g#g: RET|s|1000 2000: 1000 c3 10 04 00 00 00 00 00 00 00 04 00 04 00 04 00: :
.global s#s: MOVRELw R7, d#.data#d: .thunk d|s|1000 3000: 1000 79 07 fc 0f: 2000 fc ff ff ff 00 00 00 00:
.global s#s: MOVIqq R1, g#.dq g/.data#.global g#.db 1, 2#g: .db 3|s|1000 4000: 1000 f7 31 02 20 01 00 00 00 00 00 02 20 01 00 00 00 00 00: 2000 01 02 03: 1002 100a
.global f#f: RET#.global s#s: RET/f: RET#.dq f|s|1002 3000: 1000 04 00 04 00 04 00 04 10 01 00 00 00 00 00: : 1006
.global s#s: JMP8 t#t: RET|s|1000 2000: 1000 02 00 04 00: :
.global s#s: JMP8 s|s|1000 2000: 1000 02 ff: :
.global s#s: RET/.global s#s: RET|s|Twice s
.global s#s: RET/.global g#g: RET/.global h#h: RET#.global g#g: RET#.global s#s: RET|s|Twice g
.global s#s: RET#CALL32 b#CALL32 a/CALL32 c|s|Undefined b
.global s#s: RET#CALL32 t/t: RET|s|Undefined t
.global s#s: JMP8 t#.db 0#t: RET|s|Far 1001
s: .db 0#.global e#e: JMP8 s|e|Far 1002
.global s#s: RET/JMP8 s#.db 0#t: JMP8 t/JMP8 u#.db 0#u:|s|Far 1009
.global s#RET#s:|s|Entry
.global s#.db 0#s: RET|s|Entry
.global s#RET#.data#s: .db 0|s|Entry
s: RET|s|Entry
.global s#s: RET|t|Entry
.global s#s: RET/CALL32 u/.global s#s: RET|s|Twice s
.global s#s: JMP8 t#.db 0#t: CALL32 u/CALL32 v|s|Undefined u
.global s#s: RET#JMP8 t#.db 0#t: RET|t|Far 1003
.global s#s: JMP8 t#.db 0#t: RET/.global s#s: RET|t|Twice s";

#[test]
fn links_sources(rt: HostRuntime) -> Result<(), Fail> {
    let alloc = rt.alloc();
    for row in LINKS.split('\n') {
        let (sources, rest) = row.split_once('|').ok_or("a row without an entry")?;
        let (entry, wanted) = rest.split_once('|').ok_or("a row without an answer")?;
        let mut objects = Vec::new(alloc);
        for source in sources.split('/') {
            objects.push(object_of(alloc, source)?)?;
        }
        links(&rt, alloc, &objects, entry, wanted)?;
    }
    Ok(())
}

/// Distances at the ends of what their bytes hold, and past them. What isn't far is linked.
const DISTANCES: &str = "\
.global s#s: JMP8 t#.zero 254#t: RET|near
.global s#s: JMP8 t#.zero 256#t: RET|Far 1001
.global s#s: .zero 254#JMP8 s|near
.global s#s: .zero 256#JMP8 s|Far 1101
.global s#s: MOVRELw R7, t#.zero 32767#t: .db 0|near
.global s#s: MOVRELw R7, t#.zero 32768#t: .db 0|Far 1002
.global s#s: .zero 32764#MOVRELw R7, s|near
.global s#s: .zero 32765#MOVRELw R7, s|Far 8fff";

#[test]
fn tells_what_is_far(rt: HostRuntime) -> Result<(), Fail> {
    let alloc = rt.alloc();
    for row in DISTANCES.split('\n') {
        let (source, wanted) = row.split_once('|').ok_or("a row without an answer")?;
        let objects = vec![in alloc; object_of(alloc, source)?]?;
        let told = match linked(alloc, &objects, "s")? {
            Ok(_) => String::from_str(alloc, "near")?,
            Err(end) => said(alloc, end)?,
        };
        assert!(rt; told.as_str() == wanted, "told {told}, wanted {wanted}");
    }
    Ok(())
}

/// An object that uses a name without a fixup, and has a flag as if it made the name global.
fn named_only(alloc: Global, name: &str) -> Result<Object, AllocError> {
    let symbol = Symbol {
        name: Name::new(String::from_str(alloc, name)?),
        kind: 0,
        global: 1,
        offset: 0,
    };
    Ok(Object {
        code: Sequence::new(Vec::new(alloc)),
        contents: Sequence::new(Vec::new(alloc)),
        symbols: Sequence::new(vec![in alloc; symbol]?),
        fixups: Sequence::new(Vec::new(alloc)),
    })
}

/// A symbol that is only used defines nothing, whatever its flag, and is looked for without a fixup.
#[test]
fn names_without_places_define_nothing(rt: HostRuntime) -> Result<(), Fail> {
    let alloc = rt.alloc();
    let start = object_of(alloc, ".global s#s: RET")?;
    let objects = vec![in alloc; start, named_only(alloc, "s")?, named_only(alloc, "u")?]?;
    links(&rt, alloc, &objects, "s", "Undefined u")?;
    let start = object_of(alloc, ".global s#s: RET")?;
    let objects = vec![in alloc; named_only(alloc, "s")?, start, named_only(alloc, "s")?]?;
    links(&rt, alloc, &objects, "s", "1000 2000: 1000 04 00: :")
}

/// Code of three objects of 1 MiB and of one with so many zeros and a line behind them.
fn large(alloc: Global, zeros: usize, line: &str) -> Result<Vec<Object>, Fail> {
    let mut objects = Vec::new(alloc);
    for _ in 0..3 {
        objects.push(object_of(alloc, ".zero 1048576")?)?;
    }
    let last = format!(in alloc; ".zero {zeros}#{line}#.global s#s: RET")?;
    objects.push(object_of(alloc, last.as_str())?)?;
    Ok(objects)
}

/// The size of what these objects are linked to, in hexadecimal digits, or the fault, is what is wanted.
fn tells_size(
    rt: &impl Abort,
    alloc: Global,
    zeros: usize,
    line: &str,
    wanted: &str,
) -> Result<(), Fail> {
    let objects = large(alloc, zeros, line)?;
    let told = match linked(alloc, &objects, "s")? {
        Ok(image) => {
            let size = image.size;
            format!(in alloc; "{size:x}")?
        }
        Err(end) => said(alloc, end)?,
    };
    assert!(rt; told.as_str() == wanted, "told {told}, wanted {wanted}");
    Ok(())
}

/// An image may take 4 MiB, its relocations counted, and no byte more.
#[test]
fn tells_what_is_too_large(rt: HostRuntime) -> Result<(), Fail> {
    let alloc = rt.alloc();
    tells_size(&rt, alloc, 0xF_EFFE, "", "400000")?;
    tells_size(&rt, alloc, 0xF_F000, "", "Size")?;
    tells_size(&rt, alloc, 0xF_DFF6, ".dq s", "400000")?;
    tells_size(&rt, alloc, 0xF_DFF8, ".dq s", "Size")?;
    tells_size(&rt, alloc, 0xF_DFF8, ".dq u", "Undefined u")
}
