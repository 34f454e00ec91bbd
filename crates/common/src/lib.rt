// What every crate above uses: the two modes, the mirrorings, the refusals, what a call leaves and answers, the sizes, the test of bit 7.
// Ported from potatis common/src/lib.rs.
#![tactic(auto)]

ghost use Rattle.std.specs.Prelude.{◌≡◌};
ghost use Rattle.common.specs.Common.{is_signed, mode_number, mode_of};
ghost use Rattle.common.specs.Answers.{refusal_number, mirroring_letter, is_headers};

// A title gets one of the two at release and never leaves it.
#[derive(Clone, Copy, Debug, PartialEq, Eq)]
pub enum Mode {
    // Answers as the Rust does, oddities included.
    House,
    // Answers as the real board does.
    Board,
}

// As a trace writes it.
impl From<Mode> for u8 {
    fn from(mode: Mode) -> u8
        ensures { result ≡ mode_number mode }
    {
        mode as u8
    }
}

impl From<u8> for Mode {
    #[tactic(auto, unfolding(crate::specs::Common::mode_of))]
    fn from(number: u8) -> Mode
        ensures { result ≡ mode_of number }
    {
        match number {
            0 => Mode::House,
            _ => Mode::Board,
        }
    }
}

// The Rust has a fifth, HardwiredFourScreen, which is never answered: such an image is refused first.
#[derive(Clone, Copy, Debug, PartialEq, Eq)]
pub enum Mirroring {
    Horizontal,
    Vertical,
    SingleScreenUpper,
    SingleScreenLower,
}

// What a call leaves of a board, or of a part of one, and what it answers.
#[derive(Clone, Copy, Debug, PartialEq, Eq)]
pub struct Outcome<S, A> {
    pub left: S,
    pub answer: A,
}

impl Mirroring {
    // As a trace prints it, and as C is told it: the number of a notice (docs/ABI.md).
    pub fn letter(self) -> u8
        ensures { result ≡ mirroring_letter self }
    {
        match self {
            Mirroring::Horizontal => b'H',
            Mirroring::Vertical => b'V',
            Mirroring::SingleScreenUpper => b'U',
            Mirroring::SingleScreenLower => b'L',
        }
    }

    // One that a header can ask for.
    pub fn is_headers(self) -> bool
        ensures { result ≡ is_headers self }
    {
        matches!(self, Mirroring::Horizontal | Mirroring::Vertical)
    }
}

// What is wrong with an image, a call or a trace, by its number in the paper.
#[derive(Clone, Copy, Debug, PartialEq, Eq)]
pub enum Refusal {
    HeaderTooShort = 1,
    HeaderNotInes = 2,
    ImageNotInes = 3,
    MapperNotTaken = 4,
    TrainerOrFourScreen = 5,
    PrgCountNotTaken = 6,
    ImageTooShort = 7,
    CountNoPowerOfTwo = 8,
    RamNot8K = 9,
    StateOutOfRange = 10,
    BankPastData = 11,
    NoChrRam = 12,
    NoSuchPlace = 13,
    IrqPending = 14,
    TraceMalformed = 15,
    Nes2NotTaken = 16,
}

impl From<Refusal> for u8 {
    fn from(why: Refusal) -> u8
        ensures { result ≡ refusal_number why }
    {
        why as u8
    }
}

pub mod kilobytes {
    pub const KB1: u32 = 1024;

    pub const KB4: u32 = 4096;

    pub const KB8: u32 = 8192;

    pub const KB16: u32 = 16384;

    pub const KB32: u32 = 32768;
}

pub mod bits {
    pub fn is_signed(n: u8) -> bool
        ensures { result ≡ is_signed n }
    {
        128 <= n
    }
}
