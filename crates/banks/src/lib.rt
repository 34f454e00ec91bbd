// Bank numbers, a type for each size of bank, and the bytes of a bank as a part of the caller's own data.
#![tactic(auto)]

ghost use Rattle.std.specs.Prelude.{◌≡◌, ◌*◌, ◌%◌, [], ◌∷◌};
ghost use Rattle.common.specs.Common.{KB1, KB4, KB8, KB16, KB32};
ghost use Rattle.banks.specs.Banks.{shown, start_at, bank_start, bank_of};

use common::{Mode, kilobytes};

// A bank number, counted in banks of SIZE bytes.
#[derive(Clone, Copy, Debug, PartialEq, Eq)]
pub struct Bank<const SIZE: u32>(pub u32);

pub type Bank1K = Bank<{ kilobytes::KB1 }>;

pub type Bank4K = Bank<{ kilobytes::KB4 }>;

pub type Bank8K = Bank<{ kilobytes::KB8 }>;

pub type Bank16K = Bank<{ kilobytes::KB16 }>;

pub type Bank32K = Bank<{ kilobytes::KB32 }>;

// Where bank 1 of each starts, at its size: the clauses below hold of every size, and here the five are those of the definitions.
pub fn sizes() -> [u64; 5]
    ensures { result ≡ KB1 ∷ KB4 ∷ KB8 ∷ KB16 ∷ KB32 ∷ [] }
{
    [
        Bank1K::new(1).offset(),
        Bank4K::new(1).offset(),
        Bank8K::new(1).offset(),
        Bank16K::new(1).offset(),
        Bank32K::new(1).offset(),
    ]
}

impl<const SIZE: u32> Bank<SIZE> {
    pub fn new(number: u32) -> Bank<SIZE>
        ensures { result.0 ≡ number }
    {
        Bank(number)
    }

    pub fn offset(self) -> u64
        ensures { result ≡ self.entry.0 * SIZE }
    {
        (self.0 as u64) * (SIZE as u64)
    }

    // Where it starts by the bank rule of the mode, in data of `total` bytes; nowhere if it ends past them.
    #[tactic(auto, unfolding(crate::specs::Banks::bank_start))]
    pub fn start(self, mode: Mode, total: u32) -> Option<u32>
        ensures { result ≡ bank_start mode self.entry.0 SIZE total }
    {
        let count = total.checked_div(SIZE).unwrap_or(0);
        let bank = Bank::<SIZE>::new(shown_number(mode, self.0, count));
        start_at(bank.offset(), SIZE, total)
    }
}

// The number modulo the count; the number itself where there are no banks, as ℕ's remainder has it.
pub fn wrapped(n: u32, count: u32) -> u32
    ensures { result ≡ n % count }
{
    n.checked_rem(count).unwrap_or(n)
}

// House mode takes a bank number as it stands, board mode modulo the count of such banks.
#[tactic(auto, unfolding(crate::specs::Banks::shown))]
fn shown_number(mode: Mode, n: u32, count: u32) -> u32
    ensures { result ≡ shown mode n count }
{
    match mode {
        Mode::House => n,
        Mode::Board => wrapped(n, count),
    }
}

#[tactic(auto, unfolding(crate::specs::Banks::start_at))]
fn start_at(at: u64, size: u32, total: u32) -> Option<u32>
    ensures { result ≡ start_at at size total }
{
    let end = at.checked_add(size as u64)?;
    if end <= (total as u64) {
        Some(at as u32)
    } else {
        None
    }
}

// The bytes of a bank: the caller's own, given back as a part of the data.
#[tactic(auto, unfolding(crate::specs::Banks::bank_of))]
pub fn bank_of(s: &[u8], start: Option<u32>, size: u32) -> &[u8]
    ensures { result.now ≡ bank_of s.now start size }
{
    match start {
        Some(a) => memory::part_of(s, a as usize, size as usize),
        None => &[],
    }
}
