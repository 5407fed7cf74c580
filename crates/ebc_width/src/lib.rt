//! What a number means where a pointer has 4 or 8 bytes, and how numbers lie in bytes by their addresses. The width is
//! a parameter, and each law is proved once for both. It stands on no other crate.
//!
//! Promises:
//!
//! Each call needs a width of 4 or 8 (`IsWidth`).
//!
//! - `cut`: the low bytes of a number, as `cut_at` has them.
//! - `extend`: these bytes with their sign in 64 bits, as `extended_at` has them.
//! - `linear`: the number of so many natural units and bytes, modulo 2^64, as `linear_at` has it.
#![tactic(auto)]

ghost use Rattle.std.specs.Prelude.{◌≡◌};
ghost use Rattle.ebc_width.specs.Width.{IsWidth, cut_at, extended_at, linear_at};

/// The low `W` bytes of a number, as an address or a natural value is cut.
pub fn cut<const W: usize>(x: u64) -> u64
    requires { IsWidth W }
    ensures { result ≡ cut_at W x }
{
    if W == 4 { x % (1 << 32) } else { x }
}

/// The low `W` bytes of a number, sign-extended to 64 bits.
pub fn extend<const W: usize>(x: u64) -> u64
    requires { IsWidth W }
    ensures { result ≡ extended_at W x }
{
    if W == 4 {
        let low = cut::<W>(x) as u32;
        i64::from(low.cast_signed()).cast_unsigned()
    } else {
        x
    }
}

/// The number of `n` natural units, of `W` bytes each, and `c` bytes, modulo 2^64: the value of a
/// natural index (section "Natural Indexing").
pub fn linear<const W: usize>(n: i64, c: i64) -> u64
    requires { IsWidth W }
    ensures { result ≡ linear_at W n c }
{
    n.cast_unsigned()
        .wrapping_mul(W as u64)
        .wrapping_add(c.cast_unsigned())
}
