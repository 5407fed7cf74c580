//! Parts of types that the rows look at.

ghost use Rattle.std.specs.Prelude.{◌≡◌, if◌then◌else◌};
ghost use Rattle.rules_base.specs.Parts.{constant, constant_of, divisor_of, fall_of, full, is_int, is_int_below, is_near, lin_of};
ghost use Rattle.rules_base.specs.Parts.{near_offset, offset_of, pointer_of, signed, single, span_of};
ghost use Rattle.ebc_width.specs.Width.{wrap64};

use note_types::Ty;

/// The numbers from `lo` to `hi` that `div` divides.
#[derive(Clone, Copy, PartialEq, Eq)]
pub struct Span {
    pub lo: u64,
    pub hi: u64,
    pub div: u64,
}

/// Natural units and bytes, each with its sign.
#[derive(Clone, Copy, PartialEq, Eq)]
pub struct Offset {
    pub n: i32,
    pub c: i32,
}

/// A pointer that is not null: the address of an instance of a shape with at least `count` instances from there on, plus
/// n natural units and c bytes.
#[derive(Clone, Copy, PartialEq, Eq)]
pub struct Pointer {
    pub shape: u32,
    pub count: u64,
    pub n: i32,
    pub c: i32,
}

/// The type of one number.
pub fn constant(k: u64) -> Ty
    ensures { result ≡ constant k }
{
    Ty::Int {
        lo: k,
        hi: k,
        div: 1,
    }
}

/// The type of the numbers from 0 to another one.
pub fn numbers_up_to(hi: u64) -> Ty
    ensures { result ≡ Ty.Int 0 hi 1 }
{
    Ty::Int { lo: 0, hi, div: 1 }
}

/// The type of all numbers of 64 or 32 bits.
pub fn full(wide: bool) -> Ty
    ensures { result ≡ full (if wide then 64 else 32) }
{
    Ty::Int {
        lo: 0,
        hi: if wide { u64::MAX } else { 0xFFFF_FFFF },
        div: 1,
    }
}

/// The numbers of an Int.
pub fn span_of(t: Ty) -> Option<Span>
    ensures { result ≡ span_of t }
{
    match t {
        Ty::Int { lo, hi, div } => Some(Span { lo, hi, div }),
        _ => None,
    }
}

fn single(x: Span) -> Option<u64>
    ensures { result ≡ single x }
{
    if x.lo == x.hi { Some(x.lo) } else { None }
}

/// The number of a constant.
pub fn constant_of(t: Ty) -> Option<u64>
    ensures { result ≡ constant_of t }
{
    single(span_of(t)?)
}

/// What divides the numbers of an Int: a constant's number, else its divisor.
pub fn divisor_of(x: Span) -> u64
    ensures { result ≡ divisor_of x }
{
    if x.lo == x.hi { x.lo } else { x.div }
}

/// The signed number that 64 bits spell.
pub fn signed(k: u64) -> i64
    ensures { result ≡ signed k }
{
    k.cast_signed()
}

/// A signed number modulo 2^64.
pub fn wrap64(z: i64) -> u64
    ensures { result ≡ wrap64 z }
{
    z.cast_unsigned()
}

/// Whether a number lies from -2^20 to 2^20.
pub fn is_near(z: i64) -> bool
    ensures { result ≡ is_near z }
{
    -0x10_0000 <= z && z <= 0x10_0000
}

/// How far a small negative constant is below 0, where it is one: at most 2^20.
pub fn fall_of(k: u64) -> Option<u64>
    ensures { result ≡ fall_of k }
{
    if 0xFFFF_FFFF_FFF0_0000 <= k {
        Some(u64::MAX - k + 1)
    } else {
        None
    }
}

/// What a small constant adds.
pub fn near_offset(k: u64) -> Option<Offset>
    ensures { result ≡ near_offset k }
{
    let c = signed(k);
    if is_near(c) {
        Some(Offset { n: 0, c: c as i32 })
    } else {
        None
    }
}

/// What a small constant or a Lin adds.
pub fn offset_of(t: Ty) -> Option<Offset>
    ensures { result ≡ offset_of t }
{
    match t {
        Ty::Lin { n, c } => Some(Offset { n, c }),
        _ => near_offset(constant_of(t)?),
    }
}

/// The pair of a Lin.
pub fn lin_of(t: Ty) -> Option<Offset>
    ensures { result ≡ lin_of t }
{
    match t {
        Ty::Lin { n, c } => Some(Offset { n, c }),
        _ => None,
    }
}

/// A pointer that is not null.
pub fn pointer_of(t: Ty) -> Option<Pointer>
    ensures { result ≡ pointer_of t }
{
    match t {
        Ty::Ptr {
            shape,
            count,
            n,
            c,
            null: false,
        } => Some(Pointer { shape, count, n, c }),
        _ => None,
    }
}

/// Whether a type is a number's.
pub fn is_int(t: Ty) -> bool
    ensures { result ≡ is_int t }
{
    matches!(t, Ty::Int { .. })
}

/// Whether a type is that of numbers below a limit.
pub fn is_int_below(limit: u64, t: Ty) -> bool
    ensures { result ≡ is_int_below limit t }
{
    match t {
        Ty::Int { hi, .. } => hi < limit,
        _ => false,
    }
}
