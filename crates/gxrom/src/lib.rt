// GxROM: a 32 KB PRG bank and an 8 KB CHR bank in one byte. Not in the Rust: board mode only.
#![tactic(auto)]

ghost use Rattle.std.specs.Prelude.{◌≡◌};
ghost use Rattle.places.specs.Windows.{lands_in};
ghost use Rattle.gxrom.specs.Gxrom.{start, is_start, fits, read_place, write_window, written};

use banks::{Bank8K, Bank32K};
use cartridge::Cartridge;
use places::Landing;

#[derive(Clone, Copy, Debug, PartialEq, Eq)]
pub struct Gxrom {
    pub prg: u8,
    pub chr: u8,
}

impl Gxrom {
    pub fn new() -> Self
        ensures { result ≡ start }
    {
        Gxrom { prg: 0, chr: 0 }
    }

    pub fn is_start(self) -> bool
        ensures { result ≡ is_start self }
    {
        self == Gxrom::new()
    }

    pub fn fits(self) -> bool
        ensures { result ≡ fits self }
    {
        (self.prg < 4) & (self.chr < 4)
    }

    pub fn read_landing(self, cart: Cartridge, address: u16) -> Landing
        ensures { result ≡ read_place self cart address }
    {
        places::whole_banks(
            cart,
            Bank8K::new(self.chr as u32),
            Bank32K::new(self.prg as u32),
            address,
        )
    }

    pub fn write_landing(self, cart: Cartridge, address: u16) -> Landing
        ensures { result ≡ lands_in cart (write_window self cart address) address }
    {
        places::board_chr_ram(cart, Bank8K::new(self.chr as u32), address)
    }

    #[tactic(auto, unfolding(crate::specs::Gxrom::written, places::specs::Windows::lands_in))]
    pub fn write8(mut self, value: u8, address: u16) -> Self
        ensures { result ≡ written self value address }
    {
        if 0x8000 <= address {
            self.prg = value / 16 % 4;
            self.chr = value % 4;
        }
        self
    }
}
