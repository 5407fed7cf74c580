//! What is said of runs that end otherwise than finished, and of two runs that differ.
ghost use Rattle.std.specs.Prelude.{IfSome};
ghost use Rattle.ebc_width.specs.Width.{IsWidth};
ghost use Rattle.pair_model.specs.Binds.{AllAgree};
ghost use Rattle.explain_answers.specs.Drivers.{IsRunnableDriver};

use crate::answer::Answer;
use crate::driver::Driver;
use crate::refusals::instruction_line;
use bind_texts::read_binds;
use ebc_base::NoMemory;
use ebc_decode::decode;
use ebc_insn::{Insn, well_formed};
use ebc_outside::MemFolder;
use explain_base::{Line, Said};
use explain_texts::{Scripted, ScriptedPair, Width, pair_said, run_said, twin_said};
use file_inputs::read_as;
use note_types::{Notes, Spot};
use pair_host::{Binds, PairRun, pair};
use pe_image::Image;
use printed_texts::{ShownPair, ShownRun, append_end};
use protocol_script::read_script;
use std::alloc::Global;
use twin_run::{RunReport, run};

// The driver of three words from this one on, if its files were kept.
fn driver_of(answer: &Answer, first: usize, folder: &mut MemFolder) -> Option<Driver>
    ensures { IfSome result IsRunnableDriver }
{
    let alloc = answer.alloc;
    let Ok(image) = read_as::<Image, MemFolder>(alloc, folder, 1, answer.word(first)) else {
        return None;
    };
    let number = first.saturating_add(1);
    let Ok(notes) = read_as::<Notes, MemFolder>(alloc, folder, 1, answer.word(number)) else {
        return None;
    };
    let Ok(Some(text)) = answer.bytes_of(first.saturating_add(2), folder) else {
        return None;
    };
    let Ok(script) = read_script(alloc, text.as_slice(), &notes) else {
        return None;
    };
    Some(Driver {
        image,
        notes,
        script,
        text,
    })
}

// A driver as it ran, with the name of its script.
fn scripted<'a>(driver: &'a Driver, file: &'a str) -> Scripted<'a> {
    Scripted {
        notes: &driver.notes,
        script: &driver.script,
        file,
        text: driver.text.as_slice(),
    }
}

fn shown_run(report: &RunReport) -> ShownRun<'_> {
    ShownRun {
        steps: report.steps,
        spot: report.spot,
        ending: report.ending,
        events: report.events.as_slice(),
    }
}

fn shown_pair(report: &PairRun) -> ShownPair<'_> {
    ShownPair {
        steps: report.steps,
        spot: report.spot,
        ending: report.ending,
        events: report.events.as_slice(),
    }
}

// The report of a driver's run at a width.
fn report<const W: usize>(alloc: Global, driver: &Driver, steps: u64) -> Result<RunReport, NoMemory>
    requires width { IsWidth W }
    requires driver { IsRunnableDriver driver.now }
{
    run::<W>(alloc, &driver.image, &driver.notes, &driver.script, steps)
}

// One thing that is said, or nothing.
fn at_most_one(alloc: Global, said: Option<Said>) -> Result<Vec<Said>, NoMemory> {
    let mut told = Vec::new(alloc);
    if let Some(said) = said {
        told.push(said)?;
    }
    Ok(told)
}

// What is said of a driver's run at a width.
fn of_width<const W: usize>(
    answer: &Answer,
    steps: u64,
    driver: &Driver,
    width: Width,
) -> Result<Vec<Said>, NoMemory>
    requires width { IsWidth W }
    requires driver { IsRunnableDriver driver.now }
{
    let alloc = answer.alloc;
    let report = report::<W>(alloc, driver, steps)?;
    let ran = scripted(driver, answer.word(4));
    let said = run_said(alloc, &ran, width, &shown_run(&report))?;
    at_most_one(alloc, said)
}

// What is said of a driver's run at the width that the word after `run` names.
fn of_named_width(answer: &Answer, steps: u64, driver: &Driver) -> Result<Vec<Said>, NoMemory>
    requires { IsRunnableDriver driver.now }
{
    if answer.word(1) == "32" {
        return of_width::<4>(answer, steps, driver, Width::At32);
    }
    of_width::<8>(answer, steps, driver, Width::At64)
}

// What is said of the run of `run`.
fn of_run(answer: &Answer, steps: u64, folder: &mut MemFolder) -> Result<Vec<Said>, NoMemory> {
    match driver_of(answer, 2, folder) {
        Some(driver) => of_named_width(answer, steps, &driver),
        None => Ok(Vec::new(answer.alloc)),
    }
}

// What is said of a driver's runs at both widths.
fn of_both_widths(answer: &Answer, steps: u64, driver: &Driver) -> Result<Vec<Said>, NoMemory>
    requires { IsRunnableDriver driver.now }
{
    let alloc = answer.alloc;
    let at4 = report::<4>(alloc, driver, steps)?;
    let at8 = report::<8>(alloc, driver, steps)?;
    let ran = scripted(driver, answer.word(3));
    twin_said(alloc, &ran, &shown_run(&at4), &shown_run(&at8))
}

// What is said of the runs of `twin`.
fn of_twin(answer: &Answer, steps: u64, folder: &mut MemFolder) -> Result<Vec<Said>, NoMemory> {
    match driver_of(answer, 1, folder) {
        Some(driver) => of_both_widths(answer, steps, &driver),
        None => Ok(Vec::new(answer.alloc)),
    }
}

// What is said of the runs of two drivers under binds.
fn told_of_pair(
    answer: &Answer,
    steps: u64,
    a: &Driver,
    b: &Driver,
    binds: &Binds,
) -> Result<Vec<Said>, NoMemory>
    requires a { IsRunnableDriver a.now }
    requires b { IsRunnableDriver b.now }
    requires agree { AllAgree a.now.notes b.now.notes binds.now }
{
    let alloc = answer.alloc;
    let report = pair(
        alloc, &a.image, &a.notes, &a.script, &b.image, &b.notes, &b.script, binds, steps,
    )?;
    let ran = ScriptedPair {
        consumer: scripted(a, answer.word(3)),
        provider: scripted(b, answer.word(6)),
        binds: binds.as_slice(),
    };
    pair_said(
        alloc,
        &ran,
        &shown_pair(&report.at4),
        &shown_pair(&report.at8),
    )
}

// What is said of the runs of two drivers, whose binds are read.
fn of_drivers(
    answer: &Answer,
    steps: u64,
    a: &Driver,
    b: &Driver,
    folder: &mut MemFolder,
) -> Result<Vec<Said>, NoMemory>
    requires a { IsRunnableDriver a.now }
    requires b { IsRunnableDriver b.now }
{
    let alloc = answer.alloc;
    let Some(bytes) = answer.bytes_of(7, folder)? else {
        return Ok(Vec::new(alloc));
    };
    match read_binds(alloc, bytes.as_slice(), &a.notes, &b.notes) {
        Ok(binds) => told_of_pair(answer, steps, a, b, &binds),
        Err(_) => Ok(Vec::new(alloc)),
    }
}

// What is said of the runs of `pair`.
fn of_pair(answer: &Answer, steps: u64, folder: &mut MemFolder) -> Result<Vec<Said>, NoMemory> {
    let Some(a) = driver_of(answer, 1, folder) else {
        return Ok(Vec::new(answer.alloc));
    };
    match driver_of(answer, 4, folder) {
        Some(b) => of_drivers(answer, steps, &a, &b, folder),
        None => Ok(Vec::new(answer.alloc)),
    }
}

// The number of steps, which is the last word.
fn steps_of(answer: &Answer) -> Option<u64> {
    answer
        .word(answer.words.len().saturating_sub(1))
        .parse::<u64>()
        .ok()
}

/// What is said of runs that are done, of which one ended otherwise than finished; nothing if the files weren't kept.
pub fn runs_said(answer: &Answer, folder: &mut MemFolder) -> Result<Vec<Said>, NoMemory> {
    let Some(steps) = steps_of(answer) else {
        return Ok(Vec::new(answer.alloc));
    };
    match answer.word(0) {
        "run" => of_run(answer, steps, folder),
        "twin" => of_twin(answer, steps, folder),
        "pair" => of_pair(answer, steps, folder),
        _ => Ok(Vec::new(answer.alloc)),
    }
}

// Writes where a run stands.
fn write_end(notes: &Notes, report: &RunReport, line: &mut Line) {
    let mut end = Vec::new(line.alloc);
    let appended = append_end(
        line.alloc,
        notes,
        report.steps,
        report.spot,
        report.ending,
        &mut end,
    );
    let text = std::str::from_utf8(end.as_slice()).unwrap_or("");
    line.text(text.trim_end()).kept(appended.is_ok());
}

// The instruction at a place of an image, if one decodes there.
fn insn_at(image: &Image, place: u32) -> Option<Insn> {
    for section in image.sections.as_slice() {
        let bytes = section.bytes.as_slice();
        if section.place <= place && ((place - section.place) as usize) < bytes.len() {
            let (insn, _) = decode(bytes, (place - section.place) as usize).ok()?;
            return Some(insn);
        }
    }
    None
}

// Adds where the runs part: the place, and the instruction there.
fn add_spot(driver: &Driver, spot: Spot, said: &mut Said) {
    let Spot::Place(place) = spot else {
        return;
    };
    said.at.text(": ").place(&driver.notes, place);
    if let Some(insn) = insn_at(&driver.image, place) {
        if well_formed(&insn) {
            said.add(instruction_line(said.what.alloc, place, &insn));
        }
    }
}

// Adds where a driver's run stands after so many steps.
fn add_end<const W: usize>(
    driver: &Driver,
    steps: u64,
    width: &str,
    said: &mut Said,
) -> Result<(), NoMemory>
    requires width { IsWidth W }
    requires driver { IsRunnableDriver driver.now }
{
    let alloc = said.what.alloc;
    let report = report::<W>(alloc, driver, steps)?;
    let mut line = Line::of(alloc, width);
    line.text(" then ");
    write_end(&driver.notes, &report, &mut line);
    said.add(line);
    Ok(())
}

// The spot of a driver's run after so many steps.
fn spot_after(alloc: Global, driver: &Driver, steps: u64) -> Result<Spot, NoMemory>
    requires { IsRunnableDriver driver.now }
{
    let report = report::<4>(alloc, driver, steps)?;
    Ok(report.spot)
}

// What is said of two runs that first differ after so many steps.
fn parting_said(alloc: Global, step: u64) -> Said {
    let mut what = Line::of(alloc, "the two runs differ after step ");
    what.number(step).text(", and not before");
    Said::with_page(what, "docs/HOST.md, \"A run that parts\"")
}

// What is said of the two runs of a driver that first differ after so many steps.
fn of_parting(answer: &Answer, step: u64, driver: &Driver) -> Result<Said, NoMemory>
    requires { IsRunnableDriver driver.now }
{
    let spot = spot_after(answer.alloc, driver, step.saturating_sub(1))?;
    let mut said = parting_said(answer.alloc, step);
    said.file.text(answer.word(1));
    add_spot(driver, spot, &mut said);
    add_end::<4>(driver, step, "at width 32", &mut said)?;
    add_end::<8>(driver, step, "at width 64", &mut said)?;
    Ok(said)
}

/// What is said of two runs that first differ after so many steps: of those of `twin` where they stand, if the files were kept.
pub fn differ_said(answer: &Answer, step: u64, folder: &mut MemFolder) -> Result<Said, NoMemory> {
    if answer.word(0) != "twin" {
        return Ok(parting_said(answer.alloc, step));
    }
    match driver_of(answer, 1, folder) {
        Some(driver) => of_parting(answer, step, &driver),
        None => Ok(parting_said(answer.alloc, step)),
    }
}
