//! Divisors of the numbers of an Int.

ghost use Rattle.std.specs.Prelude.{◌≡◌};
ghost use Rattle.rules_base.specs.Sums.{gcd, shared};

// The greatest common divisor of two numbers.
fn gcd(a: u64, b: u64) -> u64
    ensures { result ≡ gcd a b }
{
    let mut x = a;
    let mut y = b;
    while y != 0 {
        let z = x % y;
        x = y;
        y = z;
    }
    x
}

/// A divisor that two numbers share; 0 counts as 1.
#[tactic(auto, unfolding(crate::specs::Sums::shared))]
pub fn shared(a: u64, b: u64) -> u64
    ensures { result ≡ shared a b }
{
    let d = gcd(a, b);
    if d == 0 { 1 } else { d }
}
