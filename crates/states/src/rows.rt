// A word as a row of digits, the first one lowest: docs/ABI.md, "The state". Each row is a table of sizes; with the
// table known the loops are gone from the compiled code, and no division is left. They go by the place, since
// the sizes and the digits stand side by side.
#![tactic(auto)]

ghost use Rattle.std.specs.Prelude.{◌≡◌, ◌<◌, ◌^◌};
ghost use Rattle.rules.specs.Flat.{flat_word, flat_digits};
ghost use Rattle.states.specs.Rows.{AllAbove0, count};

#[inline(always)]
#[tactic(auto, using(crate::proofs::RowSteps::sums))]
pub fn word<const N: usize>(sizes: [u64; N], digits: [u64; N]) -> u64
    requires sizes { AllAbove0 sizes }
    requires row { count sizes < 2 ^ 64 }
    requires word { flat_word sizes digits < 2 ^ 64 }
    ensures { result ≡ flat_word sizes.entry digits.entry }
{
    let mut word = 0;
    let mut place = 1;
    for i in 0..N {
        word += digits[i] * place;
        place *= sizes[i];
    }
    word
}

#[inline(always)]
#[tactic(auto, using(crate::proofs::RowSteps::reads))]
pub fn digits<const N: usize>(sizes: [u64; N], word: u64) -> [u64; N]
    requires { AllAbove0 sizes }
    ensures { result ≡ flat_digits sizes.entry word }
{
    let mut digits = [0; N];
    let mut rest = word;
    for i in 0..N {
        digits[i] = rest % sizes[i];
        rest /= sizes[i];
    }
    digits
}
