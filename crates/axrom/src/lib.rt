// AxROM: one 32 KB PRG bank register, with the screen in the same byte. Not in the Rust: board mode only.
#![tactic(auto)]

ghost use Rattle.std.specs.Prelude.{◌≡◌};
ghost use Rattle.places.specs.Windows.{lands_in};
ghost use Rattle.axrom.specs.Axrom.{start, is_start, fits, read_place, write_window, screen, written};

use banks::{Bank8K, Bank32K};
use cartridge::Cartridge;
use common::{Mirroring, Outcome};
use places::Landing;

#[derive(Clone, Copy, Debug, PartialEq, Eq)]
pub struct Axrom {
    pub bank: u8,
}

// What a write leaves, and what it asks of the screens.
pub type Wrote = Outcome<Axrom, Option<Mirroring>>;

#[tactic(auto, unfolding(crate::specs::Axrom::screen, places::specs::Windows::lands_in))]
fn screen(value: u8) -> Mirroring
    ensures { result ≡ screen value }
{
    if value / 16 % 2 == 1 {
        Mirroring::SingleScreenUpper
    } else {
        Mirroring::SingleScreenLower
    }
}

impl Axrom {
    pub fn new() -> Self
        ensures { result ≡ start }
    {
        Axrom { bank: 0 }
    }

    pub fn is_start(self) -> bool
        ensures { result ≡ is_start self }
    {
        self == Axrom::new()
    }

    pub fn fits(self) -> bool
        ensures { result ≡ fits self }
    {
        self.bank < 8
    }

    pub fn read_landing(self, cart: Cartridge, address: u16) -> Landing
        ensures { result ≡ read_place self cart address }
    {
        places::whole_banks(
            cart,
            Bank8K::new(0),
            Bank32K::new(self.bank as u32),
            address,
        )
    }

    // The screen is the board's current mirroring; no register keeps it.
    #[tactic(auto, unfolding(crate::specs::Axrom::written, places::specs::Windows::lands_in))]
    pub fn write8(self, value: u8, address: u16) -> Wrote
        ensures { result ≡ written self value address }
    {
        match address {
            0x8000..=0xffff => Outcome {
                left: Axrom { bank: value % 8 },
                answer: Some(screen(value)),
            },
            _ => Outcome {
                left: self,
                answer: None,
            },
        }
    }
}

pub fn write_landing(cart: Cartridge, address: u16) -> Landing
    ensures { result ≡ lands_in cart (write_window cart address) address }
{
    places::board_chr_ram(cart, Bank8K::new(0), address)
}
