// Seven-bit numbers: low group first, top bit set on every byte but the last.
ghost use Rattle.std.specs.Prelude.{◌≡◌, ◌+◌, ◌<◌};
ghost use Rattle.std.proofs.Math.Option.{some};
ghost use Rattle.scope.specs.Plan.{read_groups, read_number};
ghost use Rattle.tables.specs.declared.answer.Refusal.TheVariants.{Bytes};
ghost use Rattle.plan.specs.Told.{told_number};

use tables::answer::Refusal;

// A number of a plan file, with the offset after it.
#[derive(Clone, Copy, Debug, PartialEq, Eq)]
pub struct Number {
    pub value: u32,
    pub next: usize,
}

// Where a file is bad.
#[derive(Clone, Copy, Debug, PartialEq, Eq)]
pub struct Damaged {
    pub at: usize,
}

// Refusal 9 names the offset.
impl From<Damaged> for Refusal {
    ghost from_gives = { λ damaged refusal. refusal ≡ Bytes damaged.at };

    fn from(damaged: Damaged) -> Refusal {
        Refusal::Bytes(damaged.at as u64)
    }
}

impl Number {
    // A number of a plan file: at most 4,294,967,295.
    pub const LARGEST: u64 = 4294967295;

    // So many groups hold it.
    pub(crate) const MOST_GROUPS: usize = 5;
}

// The number of these groups at an offset: not too large, and in the fewest bytes.
#[tactic(auto, using(crate::proofs::NumberLaws::judged))]
fn formed(at: usize, value: u64, size: usize, last: u64) -> Result<Number, Damaged>
    requires { at + size < 18446744073709551616 }
    ensures { told_number result ≡ read_groups at (some (record { value = value; size = size; last = last })) }
{
    if Number::LARGEST < value {
        return Err(Damaged { at });
    }
    if size != 1 && last == 0 {
        return Err(Damaged { at });
    }
    Ok(Number {
        value: value as u32,
        next: at + size,
    })
}

#[tactic(auto, using(crate::proofs::NumberLaws::by_groups))]
pub fn read_number(bytes: &[u8], at: usize) -> Result<Number, Damaged>
    ensures { told_number result ≡ read_number bytes.now at }
{
    if bytes.len() <= at {
        return Err(Damaged { at: bytes.len() });
    }
    let mut value: u64 = 0;
    let mut weight: u64 = 1;
    for size in 0..Number::MOST_GROUPS {
        let next = at + size;
        if bytes.len() <= next {
            return Err(Damaged { at });
        }
        let byte = u64::from(bytes[next]);
        if byte < 128 {
            return formed(at, value + byte * weight, size + 1, byte);
        }
        value += (byte - 128) * weight;
        weight *= 128;
    }
    Err(Damaged { at })
}
