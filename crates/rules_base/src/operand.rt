//! What stands beside an operand, and what it adds to the type of a direct one.

ghost use Rattle.std.specs.Prelude.{◌≡◌};
ghost use Rattle.natural_index.specs.Index.{IsIndex, IsIndexSize};
ghost use Rattle.ebc_insn.specs.Spelling.{ExtraFits, LeftFits, RightFits};
ghost use Rattle.rules_base.specs.Operands.{counted, distance_type, extra_distance, index_distance, with_immediate, with_index};

use crate::parts::{constant, wrap64};
use crate::sums::{lin, sum};
use ebc_insn::{Extra, Operand};
use natural_index::Index;
use note_types::{Shape, Ty};

/// Natural units and bytes, each with its sign, as an index counts them.
#[derive(Clone, Copy, PartialEq, Eq)]
pub struct Distance {
    pub n: i64,
    pub c: i64,
}

/// What an index of so many bits counts.
pub fn counted(bits: u8, i: &Index) -> Distance
    requires size { IsIndexSize bits }
    requires index { IsIndex bits i.now }
    ensures { result ≡ counted i.now }
{
    let (n, c) = i.pair();
    Distance { n, c }
}

/// What an index of so many bits counts that may be left out.
pub fn index_distance(bits: u8, index: &Option<Index>) -> Distance
    requires size { IsIndexSize bits }
    requires index { RightFits bits index.now }
    ensures { result ≡ index_distance index.now }
{
    match index {
        Some(i) => counted(bits, i),
        None => Distance { n: 0, c: 0 },
    }
}

/// What an index of so many bits counts that may stand beside an operand 1.
pub fn left_distance(bits: u8, op: &Operand, index: &Option<Index>) -> Distance
    requires size { IsIndexSize bits }
    requires index { LeftFits bits op.now index.now }
    ensures { result ≡ index_distance index.now }
{
    match index {
        Some(i) => counted(bits, i),
        None => Distance { n: 0, c: 0 },
    }
}

/// What an index of so many bits beside an operand counts; none counts nothing.
pub fn extra_distance(bits: u8, op: &Operand, extra: &Extra) -> Distance
    requires size { IsIndexSize bits }
    requires extra { ExtraFits bits op.now extra.now }
    ensures { result ≡ extra_distance extra.now }
{
    match extra {
        Extra::Idx(i) => counted(bits, i),
        Extra::Nothing | Extra::Imm(_) => Distance { n: 0, c: 0 },
    }
}

/// What a distance adds: a constant, a Lin, or with negative natural units anything.
pub fn distance_type(d: Distance) -> Ty
    ensures { result ≡ distance_type d }
{
    if d.n == 0 {
        constant(wrap64(d.c))
    } else if 1 <= d.n {
        lin(d.n, d.c)
    } else {
        Ty::Any
    }
}

/// A type and the immediate beside it.
pub fn with_immediate(shapes: &[Shape], t: Ty, extra: &Extra) -> Ty
    ensures { result ≡ with_immediate shapes.now t extra.now }
{
    match extra {
        Extra::Imm(v) => sum(shapes, t, constant(wrap64(*v))),
        Extra::Nothing | Extra::Idx(_) => t,
    }
}

/// A type and the index of so many bits beside it.
pub fn with_index(shapes: &[Shape], t: Ty, bits: u8, index: &Option<Index>) -> Ty
    requires size { IsIndexSize bits }
    requires index { RightFits bits index.now }
    ensures { result ≡ with_index shapes.now t index.now }
{
    match index {
        Some(i) => sum(shapes, t, distance_type(counted(bits, i))),
        None => t,
    }
}
