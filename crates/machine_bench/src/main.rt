//! Runs a loop on the machine: arithmetic, a load, a store, a comparison and a branch. The words are the width, 32 or
//! 64, and how many steps are run; one line says what the loop has counted after them. `bench/machine.sh` times it.
#![tactic(auto)]

ghost use Rattle.ebc_width.specs.Width.{IsWidth};

use ebc_machine::{Machine, StepEnd};
use object_memory::ObjMem;
use std::alloc::Global;
use std::process::ExitCode;
use std::rt::Env;
use std::{env, io};

// R1 counts the rounds, and the eight bytes at R3 are the sum of its values.
const LOOP: [u8; 12] = [
    0x4C, 0x21, // ADD64 R1, R2
    0x20, 0xB4, // MOVqw R4, @R3
    0x4C, 0x14, // ADD64 R4, R1
    0x20, 0x4B, // MOVqw @R3, R4
    0x45, 0x51, // CMP64eq R1, R5
    0x82, 0xFA, // JMP8cc to the first
];

// How many objects lie between the code and the data.
const OBJECTS: u32 = 62;

// What a run has counted.
#[derive(Clone, Copy)]
struct Report {
    rounds: u64,
    sum: u64,
}

// The loop after so many steps; none where memory is refused, or where a step doesn't end as the loop's do.
fn run<const W: usize>(alloc: Global, steps: u64) -> Option<Report>
    requires { IsWidth W }
{
    let mut mem = ObjMem::<W>::new(alloc, 0x1000, OBJECTS + 2).ok()?;
    let code = mem.place(16, 1).ok()?.base;
    for _ in 0..OBJECTS {
        mem.place(16, 1).ok()?;
    }
    let data = mem.place(8, 1).ok()?.base;
    for (i, byte) in LOOP.iter().enumerate() {
        mem.store(code.wrapping_add(i as u64), 1, u64::from(*byte));
    }
    let mut machine = Machine {
        regs: [data, 0, 1, data, 0, 0, 0, 0],
        ip: code,
        flags: 0,
        gate: 0,
    };
    for _ in 0..steps {
        if machine.step(&mut mem) != StepEnd::Next {
            return None;
        }
    }
    Some(Report {
        rounds: machine.regs[1],
        sum: mem.load(data, 8)?,
    })
}

// The width and the number of steps that the words after the program's name spell.
fn words<R: Env + AllocGlobal>(rt: &R) -> Option<(u32, u64)> {
    let mut args = env::args(rt).ok()?;
    let _ = args.next();
    let width = args.next()?.parse::<u32>().ok()?;
    let steps = args.next()?.parse::<u64>().ok()?;
    Some((width, steps))
}

fn main(rt: HostRuntime) -> io::Result<ExitCode> {
    let report = match words(&rt) {
        Some((32, steps)) => run::<4>(rt.alloc(), steps),
        Some((64, steps)) => run::<8>(rt.alloc(), steps),
        _ => {
            println!(rt; "usage: machine_bench WIDTH STEPS")?;
            return Ok(ExitCode::from(2));
        }
    };
    match report {
        Some(report) => {
            println!(rt; "rounds {} sum {}", report.rounds, report.sum)?;
            Ok(ExitCode::SUCCESS)
        }
        None => Ok(ExitCode::FAILURE),
    }
}
