//! What is wrong with a line, and which of two faults is named.

ghost use Rattle.std.specs.Prelude.{◌≡◌};
ghost use Rattle.asm_text.specs.Faults.{asm_fault_number, both, lower};

/// What is wrong with a line of assembly text (docs/ASSEMBLY.md, "Faults"). Of several faults of a line the lowest is
/// named, in the order in which they stand here.
#[derive(Clone, Copy, PartialEq, Eq, Debug)]
pub enum AsmFault {
    /// There is no such statement, or the line has a byte past ASCII.
    Word,
    /// The operands aren't of the statement's form.
    Operand,
    /// What stands for a number is none, or is out of range.
    Number,
    /// An index that no spelling has.
    Index,
    /// What stands for a name is none, or a `.global` name is never defined.
    Label,
    /// A label that an earlier line has.
    Twice,
    /// A section would pass 1 MiB.
    Far,
    /// An instruction in data.
    Section,
}

impl AsmFault {
    /// The number of the fault, from 1 to 8, by the order in which they stand here.
    pub fn number(self) -> u8
        ensures { result ≡ asm_fault_number self }
    {
        match self {
            AsmFault::Word => 1,
            AsmFault::Operand => 2,
            AsmFault::Number => 3,
            AsmFault::Index => 4,
            AsmFault::Label => 5,
            AsmFault::Twice => 6,
            AsmFault::Far => 7,
            AsmFault::Section => 8,
        }
    }
}

fn lower(a: AsmFault, b: AsmFault) -> AsmFault
    ensures { result ≡ lower a b }
{
    if a.number() <= b.number() { a } else { b }
}

// Both values, or the lower fault.
pub(crate) fn both<A: Copy, B: Copy>(
    a: Result<A, AsmFault>,
    b: Result<B, AsmFault>,
) -> Result<(A, B), AsmFault>
    ensures { result ≡ both a b }
{
    match (a, b) {
        (Ok(a), Ok(b)) => Ok((a, b)),
        (Ok(_), Err(f)) => Err(f),
        (Err(e), Ok(_)) => Err(e),
        (Err(e), Err(f)) => Err(lower(e, f)),
    }
}
