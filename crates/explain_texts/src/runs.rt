//! What is said of runs that end otherwise than finished.

use crate::faulty::{Faulty, TomlText, write_position};
use crate::replies::{Unfit, unfit_reply};
use crate::values::{made_objects, write_ending, write_entering, write_seen};
use ebc_base::NoMemory;
use explain_base::{Line, Said};
use note_types::{Ending, Event, Notes, Reason, Script, Seen, Spot};
use printed_texts::ShownRun;
use std::alloc::Global;
use toml_spans::KeySpan;

/// A program that ran: its notes, its script, and the name and the text of the script's file.
#[derive(Clone, Copy)]
pub struct Scripted<'a> {
    pub notes: &'a Notes,
    pub script: &'a Script,
    pub file: &'a str,
    pub text: &'a [u8],
}

/// At which width a run ended, or at both alike.
#[derive(Clone, Copy)]
pub enum Width {
    At32,
    At64,
    Both,
}

/// How a run of a program ended: at which width, after how many steps of at most how many, and its last call.
#[derive(Clone, Copy)]
pub(crate) struct Ended<'a> {
    pub width: Width,
    pub steps: u64,
    pub most: u64,
    pub ending: Ending,
    /// Where it stands, if that is a place of the program's image for sure.
    pub place: Option<u32>,
    /// The last call of the program, if it made one.
    pub last: Option<&'a Event>,
    /// How many calls of the script it came to, those among them that came within a callback of another.
    pub calls: usize,
    /// Whether a function of another image answers the last call.
    pub bound: bool,
    /// The page that mends it.
    pub page: &'static str,
}

// A run that ended amiss, with the text of its script. `call` is the number of the script's call that the last call is for.
#[derive(Clone, Copy)]
struct Amiss<'a> {
    f: &'a Faulty<'a>,
    notes: &'a Notes,
    script: &'a Script,
    ended: &'a Ended<'a>,
    call: usize,
}

fn signature_name(notes: &Notes, number: u32) -> &str {
    match notes.signature.as_slice().get(number as usize) {
        Some(signature) => signature.name.as_str(),
        None => "none",
    }
}

// Of what something is said: of the run, of the script, or of what stands at an offset of the script.
#[derive(Clone, Copy)]
enum Subject {
    Run,
    Script,
    Offset(usize),
}

impl Amiss<'_> {
    // What is said of a subject.
    fn said(&self, subject: Subject, what: Line) -> Said {
        let mut at = Line::new(self.f.alloc);
        if let Subject::Offset(offset) = subject {
            write_position(self.f.text.as_bytes(), offset, &mut at);
        }
        let file = match subject {
            Subject::Run => "ebc",
            _ => self.f.file,
        };
        let mut said = Said::at_place(at, what, self.ended.page);
        said.file.text(file);
        said
    }

    // Where a key of a table of a list of the script stands, if it is there.
    fn span(&self, list: &str, number: usize, key: &str, line: &mut Line) -> Option<KeySpan> {
        let mut path = Line::of(self.f.alloc, list);
        path.text("[").count(number).text("]").text(key);
        line.kept(!path.is_short());
        self.f.span(path.as_str(), line)
    }

    // A key of a table of a list of the script, or the script as a whole where it doesn't have the key.
    fn at_item(&self, list: &str, number: usize, key: &str, line: &mut Line) -> Subject {
        match self.span(list, number, key, line) {
            Some(span) => Subject::Offset(span.key),
            None => Subject::Script,
        }
    }

    // The last call of the script.
    fn last_call(&self, line: &mut Line) -> Subject {
        self.at_item("call", self.script.call.len().saturating_sub(1), "", line)
    }

    // The item of a list of a call of the script, and its text.
    fn item_at(
        &self,
        call: usize,
        key: &str,
        item: usize,
        line: &mut Line,
    ) -> Option<(usize, &str)> {
        let span = self.span("call", call, key, line)?;
        let (from, to) = match span.items.get(item) {
            Some(item) => *item,
            None => (span.from, span.to),
        };
        Some((from, self.f.part(from, to)))
    }

    // The program makes a call more than the script has. Its arguments stand as a script has them.
    fn script_end(&self, line: &mut Line) -> Subject {
        let Some(
            Event::Called {
                signature,
                args,
                ..
            },
        ) = self.ended.last
        else {
            line.text("the script has no call left");
            return self.last_call(line);
        };
        line.text("the driver makes one call more than the ")
            .count(self.script.call.len())
            .text(" of the script; wanted: one more table [[call]], with signature = \"")
            .text(signature_name(self.notes, signature.unwrap_or(u32::MAX)))
            .text("\" and args = [");
        for (number, seen) in args.as_slice().iter().enumerate() {
            line.text(if number == 0 { "\"" } else { ", \"" });
            write_seen(self.notes, *seen, line);
            line.text("\"");
        }
        line.text("]");
        self.last_call(line)
    }

    fn other_signature(&self, found: u32, wanted: u32, line: &mut Line) -> Subject {
        line.text("the driver calls by ")
            .text(signature_name(self.notes, found))
            .text(", and call[")
            .count(self.call)
            .text("] is one by ")
            .text(signature_name(self.notes, wanted));
        self.at_item("call", self.call, ".signature", line)
    }

    fn other_argument(&self, number: u32, found: Seen, wanted: Seen, line: &mut Line) -> Subject {
        line.text("argument ").number(u64::from(number));
        line.text(if self.ended.bound {
            " of the call of a bound method is "
        } else {
            " of the driver's call is "
        });
        write_seen(self.notes, found, line);
        if self.ended.bound {
            line.text(", which doesn't fit its function");
            return Subject::Run;
        }
        line.text(", and call[").count(self.call).text("] has ");
        write_seen(self.notes, wanted, line);
        self.at_item("call", self.call, ".args", line)
    }

    // An item of the reply of a call, or its result.
    fn unfit_item(&self, call: usize, list: &str, item: usize, line: &mut Line) -> Subject {
        let mut key = Line::of(self.f.alloc, ".");
        key.text(list);
        let Some((offset, part)) = self.item_at(call, key.as_str(), item, line) else {
            line.text(list);
            return self.last_call(line);
        };
        if list == "result" {
            line.text("its result");
        } else {
            line.text("item ").count(item).text(" of ").text(list);
        }
        line.text(" is ").value(part);
        Subject::Offset(offset)
    }

    fn reply(&self, entry: u32, line: &mut Line) -> Subject {
        if self.ended.bound {
            line.text(
                "what the function of a bound method returned doesn't fit the result of the method",
            );
            return Subject::Run;
        }
        let call = entry as usize;
        line.text("the reply of call[")
            .count(call)
            .text("] doesn't fit: ");
        let mut wrong = Line::new(self.f.alloc);
        let subject = match unfit_reply(
            self.notes,
            self.script,
            call,
            self.ended.calls,
            &mut wrong,
        ) {
            Some(Unfit::Item(list, item)) => self.unfit_item(call, list, item, line),
            Some(Unfit::Call) => self.at_item("call", call, "", line),
            None => {
                wrong.text("there is no such call");
                self.last_call(line)
            }
        };
        line.line(&wrong);
        subject
    }

    fn callback(&self, call: usize, number: usize, line: &mut Line) -> Subject {
        line.text("callback ").count(number);
        let subject = match self.item_at(call, ".enter", number, line) {
            Some((offset, part)) => {
                line.text(" of call[")
                    .count(call)
                    .text("], ")
                    .value(part)
                    .text(",");
                Subject::Offset(offset)
            }
            None => self.last_call(line),
        };
        line.text(" can't be entered: ");
        let made = made_objects(self.notes, self.script, self.ended.calls, line);
        if let Some(call) = self.script.call.as_slice().get(call) {
            if let Some(callback) = call.enter.as_slice().get(number) {
                let values = callback.values.as_slice();
                write_entering(self.notes, made.as_slice(), callback.function, values, line);
            }
        }
        subject
    }

    // A notification can't be entered; if its values fit, that is for want of thunk cells.
    fn notification(&self, number: usize, line: &mut Line) -> Subject {
        let mut why = Line::new(self.f.alloc);
        let made = made_objects(self.notes, self.script, self.ended.calls, &mut why);
        if let Some(notify) = self.script.notify.as_slice().get(number) {
            let values = notify.args.as_slice();
            write_entering(
                self.notes,
                made.as_slice(),
                notify.function,
                values,
                &mut why,
            );
        }
        if why.is_empty() {
            why.text("not all thunk cells are made by then");
        }
        line.text("notify[")
            .count(number)
            .text("] can't be entered: ")
            .line(&why);
        self.at_item("notify", number, "", line)
    }

    // Writes what doesn't match where that is no matter of the script.
    fn write_mismatch(&self, reason: Reason, line: &mut Line) {
        match reason {
            Reason::Site { place } => {
                line.text("the call at ")
                    .place(self.notes, place)
                    .text(" has no site in the notes");
            }
            Reason::Target { address } => {
                line.text("a call goes to the address ")
                    .hexadecimal(address);
                line.text(", which isn't the method of its site");
            }
            Reason::Thunk { address } => {
                line.text("BREAK 5 at a cell at the address ")
                    .hexadecimal(address);
                line.text(" leads to no function with enter = true");
            }
            Reason::Depth => {
                line.text("a tenth function would be entered while nine haven't returned");
            }
            _ => {
                line.text(
                    "a bound method is called before all thunk cells of its function's image are made",
                );
            }
        }
    }

    fn mismatch(&self, reason: Reason, line: &mut Line) -> Subject {
        match reason {
            Reason::Signature { found, wanted } => self.other_signature(found, wanted, line),
            Reason::Argument {
                number,
                found,
                wanted,
            } => self.other_argument(number, found, wanted, line),
            Reason::Reply { entry } => self.reply(entry, line),
            Reason::Enter { entry, callback } => {
                self.callback(entry as usize, callback as usize, line)
            }
            Reason::Notify { number } => self.notification(number as usize, line),
            _ => {
                self.write_mismatch(reason, line);
                Subject::Run
            }
        }
    }

    // Writes how the run ended, and tells of what that is said.
    fn write(&self, line: &mut Line) -> Subject {
        match self.ended.ending {
            Ending::ScriptEnd => return self.script_end(line),
            Ending::Mismatch(reason) => return self.mismatch(reason, line),
            Ending::Running => line
                .text("the run goes on after ")
                .number(self.ended.steps)
                .text(" steps; wanted: more STEPS, ")
                .number(self.ended.most)
                .text(" at most"),
            ending => {
                line.text("the run ");
                write_ending(self.notes, ending, "end 0 gate ", line);
                match (ending, self.ended.place) {
                    (Ending::Raised(_), Some(place)) => line.text(" at ").place(self.notes, place),
                    _ => line,
                }
            }
        };
        Subject::Run
    }
}

/// What is said of how a run of a program ended; `None` where it finished.
///
/// # Errors
///
/// Want of memory alone.
pub(crate) fn ended_said(
    alloc: Global,
    ran: &Scripted,
    ended: &Ended,
) -> Result<Option<Said>, NoMemory> {
    if let Ending::Finished(_) = ended.ending {
        return Ok(None);
    }
    let Ok(table) = toml::table_from_slice(alloc, ran.text) else {
        return Err(NoMemory);
    };
    let f = Faulty {
        alloc,
        file: ran.file,
        kind: TomlText::Script(ran.notes),
        text: std::str::from_utf8(ran.text).unwrap_or(""),
        table: &table,
    };
    let amiss = Amiss {
        f: &f,
        notes: ran.notes,
        script: ran.script,
        ended,
        call: ended.calls.saturating_sub(1),
    };
    let mut line = Line::of(
        alloc,
        match ended.width {
            Width::At32 => "at width 32 ",
            Width::At64 => "at width 64 ",
            Width::Both => "at both widths ",
        },
    );
    let subject = amiss.write(&mut line);
    Ok(Some(amiss.said(subject, line)))
}

// The last call among events, and how many there are.
fn calls_in(events: &[Event]) -> (Option<&Event>, usize) {
    let mut last = None;
    let mut count = 0usize;
    for event in events {
        if let Event::Called { .. } = event {
            last = Some(event);
            count = count.saturating_add(1);
        }
    }
    (last, count)
}

/// What is said of a run of `run` at a width, or of `twin` at both; `None` where it finished.
///
/// # Errors
///
/// Want of memory alone.
pub fn run_said(
    alloc: Global,
    ran: &Scripted,
    width: Width,
    run: &ShownRun,
) -> Result<Option<Said>, NoMemory> {
    let (last, calls) = calls_in(run.events);
    let ended = Ended {
        width,
        steps: run.steps,
        most: 10_000_000,
        ending: run.ending,
        place: match run.spot {
            Spot::Place(place) => Some(place),
            _ => None,
        },
        last,
        calls,
        bound: false,
        page: "docs/SCRIPTS.md, \"A run that goes wrong\"",
    };
    ended_said(alloc, ran, &ended)
}

/// Adds what is said of a run, if something is.
///
/// # Errors
///
/// Want of memory alone.
pub(crate) fn add_said(
    told: &mut Vec<Said>,
    said: Result<Option<Said>, NoMemory>,
) -> Result<(), NoMemory> {
    match said {
        Ok(Some(said)) => Ok(told.push(said)?),
        Ok(None) => Ok(()),
        Err(error) => Err(error),
    }
}

/// What is said of the two runs of `twin`, once where they end alike.
///
/// # Errors
///
/// Want of memory alone.
pub fn twin_said(
    alloc: Global,
    ran: &Scripted,
    at4: &ShownRun,
    at8: &ShownRun,
) -> Result<Vec<Said>, NoMemory> {
    let mut told = Vec::new(alloc);
    if at4.ending == at8.ending && at4.steps == at8.steps {
        add_said(&mut told, run_said(alloc, ran, Width::Both, at4))?;
        return Ok(told);
    }
    add_said(&mut told, run_said(alloc, ran, Width::At32, at4))?;
    add_said(&mut told, run_said(alloc, ran, Width::At64, at8))?;
    Ok(told)
}
