//! The fields behind the first two bytes of an instruction: numbers and natural indexes.

ghost use Rattle.std.specs.Prelude.{◌≡◌};
ghost use Rattle.ebc_decode.specs.Reading.{extra_at, field_at, index_at, int32_at, int_at, optional_at};

use ebc_insn::{Extra, Field, Operand};
use natural_index::{Index, read16, read32, read64};

// The field in 2, 4 or 8 bytes.
#[inline(always)]
#[tactic(auto, unfolding(crate::specs::Reading::field_at))]
pub fn field_at(bytes: &[u8]) -> Field
    ensures { result ≡ field_at bytes.now }
{
    match bytes {
        [a, b] => Field::Word(u16::from_le_bytes([*a, *b])),
        [a, b, c, d] => Field::Dword(u32::from_le_bytes([*a, *b, *c, *d])),
        [a, b, c, d, e, f, g, h] => {
            Field::Qword(u64::from_le_bytes([*a, *b, *c, *d, *e, *f, *g, *h]))
        }
        _ => Field::Nothing,
    }
}

// The signed number whose two's complement a field of 2 or 4 bytes has.
#[inline(always)]
pub fn int32_at(field: Field) -> i32
    ensures { result ≡ int32_at field }
{
    match field {
        Field::Word(n) => n.cast_signed().into(),
        Field::Dword(n) => n.cast_signed(),
        Field::Nothing | Field::Qword(_) => 0,
    }
}

// The signed number whose two's complement a field has.
#[inline(always)]
pub fn int_at(field: Field) -> i64
    ensures { result ≡ int_at field }
{
    match field {
        Field::Qword(n) => n.cast_signed(),
        Field::Nothing | Field::Word(_) | Field::Dword(_) => int32_at(field).into(),
    }
}

// The index in a field.
#[inline(always)]
pub fn index_at(field: Field) -> Option<Index>
    ensures { result ≡ index_at field }
{
    match field {
        Field::Nothing => None,
        Field::Word(n) => read16(n),
        Field::Dword(n) => Some(read32(n)),
        Field::Qword(n) => Some(read64(n)),
    }
}

// The index in a field that may have no bytes.
#[inline(always)]
pub fn optional_at(field: Field) -> Option<Option<Index>>
    ensures { result ≡ optional_at field }
{
    match field {
        Field::Nothing => Some(None),
        Field::Word(_) | Field::Dword(_) | Field::Qword(_) => Some(Some(index_at(field)?)),
    }
}

// What stands in a field beside an operand.
#[inline(always)]
pub fn extra_at(o: Operand, field: Field) -> Option<Extra>
    ensures { result ≡ extra_at o field }
{
    match field {
        Field::Nothing => Some(Extra::Nothing),
        Field::Word(_) | Field::Dword(_) | Field::Qword(_) if o.indirect => Some(Extra::Idx(
            index_at(field)?,
        )),
        Field::Word(_) | Field::Dword(_) | Field::Qword(_) => Some(Extra::Imm(int_at(field))),
    }
}
