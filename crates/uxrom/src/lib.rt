// UxROM: one 16 KB bank register. Ported from potatis nes/src/mappers/uxrom.rs.
#![tactic(auto)]

ghost use Rattle.std.specs.Prelude.{◌≡◌};
ghost use Rattle.places.specs.Windows.{lands_in};
ghost use Rattle.uxrom.specs.Uxrom.{read_window, write_window, written, start, is_start};

use banks::{Bank8K, Bank16K};
use cartridge::Cartridge;
use common::Mode;
use places::{Landing, Place};

#[derive(Clone, Copy, Debug, PartialEq, Eq)]
pub struct Uxrom {
    pub bank: u8,
}

impl Uxrom {
    pub fn new() -> Self
        ensures { result ≡ start }
    {
        Uxrom { bank: 0 }
    }

    #[tactic(auto, unfolding(places::specs::Windows::lands_in, crate::specs::Uxrom::read_window, places::specs::Windows::lands_in))]
    pub fn read_landing(self, cart: Cartridge, address: u16) -> Landing
        ensures { result ≡ lands_in cart (read_window self cart address) address }
    {
        match address {
            0x0000..=0x1fff => places::chr_bank(cart, Bank8K::new(0), address),
            0x8000..=0xbfff => places::prg_bank(cart, Bank16K::new(self.bank as u32), address),
            0xc000..=0xffff => places::prg_bank(cart, Bank16K::new(cart.last_prg()), address),
            _ => Ok(Place::Nowhere),
        }
    }

    #[tactic(auto, unfolding(crate::specs::Uxrom::write_window_in, places::specs::Windows::lands_in))]
    pub fn write_landing(self, cart: Cartridge, address: u16) -> Landing
        ensures { result ≡ lands_in cart (write_window self cart address) address }
    {
        match cart.mode {
            Mode::House => places::house_chr_ram(cart, address),
            Mode::Board => places::board_chr_ram(cart, Bank8K::new(0), address),
        }
    }

    // The bank is the whole byte.
    #[tactic(auto, unfolding(crate::specs::Uxrom::written, places::specs::Windows::lands_in))]
    pub fn write8(mut self, value: u8, address: u16) -> Self
        ensures { result ≡ written self value address }
    {
        if 0x8000 <= address {
            self.bank = value;
        }
        self
    }

    pub fn is_start(self) -> bool
        ensures { result ≡ is_start self }
    {
        self == Uxrom::new()
    }
}
