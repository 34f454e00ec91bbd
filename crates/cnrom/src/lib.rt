// CNROM: one 8 KB CHR bank register. Ported from potatis nes/src/mappers/cnrom.rs.
#![tactic(auto)]

ghost use Rattle.std.specs.Prelude.{◌≡◌};
ghost use Rattle.places.specs.Windows.{lands_in};
ghost use Rattle.cnrom.specs.Cnrom.{start, is_start, fits, house_prg, house_read_window, board_read_window, read_window, house_write_window, write_window, written};

use banks::Bank8K;
use cartridge::Cartridge;
use common::{Mode, Refusal};
use places::{Landing, Place};

#[derive(Clone, Copy, Debug, PartialEq, Eq)]
pub struct Cnrom {
    pub bank: u8,
}

// With one PRG block the Rust's index underflows below C000.
#[tactic(auto, unfolding(places::specs::Windows::lands_in, crate::specs::Cnrom::house_prg, places::specs::Windows::lands_in))]
fn house_prg(cart: Cartridge, address: u16) -> Landing
    ensures { result ≡ lands_in cart (house_prg cart address) address }
{
    if cart.prg == 1 {
        match address {
            0x0000..=0xbfff => Err(Refusal::NoSuchPlace),
            _ => places::fixed_prg(cart, address),
        }
    } else {
        places::fixed_prg(cart, address)
    }
}

// The Rust's catch-all: PRG RAM at the number of the address, which panics past its end.
#[tactic(auto, unfolding(places::specs::Windows::lands_in, crate::specs::Cnrom::house_write_window, places::specs::Windows::lands_in))]
fn house_write_landing(cart: Cartridge, address: u16) -> Landing
    ensures { result ≡ lands_in cart (house_write_window address) address }
{
    match address {
        0x0000..=0x1fff => places::prg_ram(cart, address),
        0x2000..=0x7fff => Err(Refusal::NoSuchPlace),
        _ => Ok(Place::Nowhere),
    }
}

impl Cnrom {
    pub fn new() -> Self
        ensures { result ≡ start }
    {
        Cnrom { bank: 0 }
    }

    pub fn is_start(self) -> bool
        ensures { result ≡ is_start self }
    {
        self == Cnrom::new()
    }

    pub fn fits(self) -> bool
        ensures { result ≡ fits self }
    {
        self.bank < 4
    }

    #[tactic(auto, unfolding(places::specs::Windows::lands_in, crate::specs::Cnrom::house_read_window, places::specs::Windows::lands_in))]
    fn house_read_landing(self, cart: Cartridge, address: u16) -> Landing
        ensures { result ≡ lands_in cart (house_read_window self cart address) address }
    {
        match address {
            0x0000..=0x1fff => places::chr_bank(cart, Bank8K::new(self.bank as u32), address),
            0x2000..=0x7fff => Err(Refusal::NoSuchPlace),
            _ => house_prg(cart, address),
        }
    }

    #[tactic(auto, unfolding(crate::specs::Cnrom::board_read_window, places::specs::Windows::lands_in))]
    fn board_read_landing(self, cart: Cartridge, address: u16) -> Landing
        ensures { result ≡ lands_in cart (board_read_window self cart address) address }
    {
        match address {
            0x0000..=0x1fff => places::chr_bank(cart, Bank8K::new(self.bank as u32), address),
            _ => places::fixed_prg(cart, address),
        }
    }

    #[tactic(auto, unfolding(crate::specs::Cnrom::read_window_in, places::specs::Windows::lands_in))]
    pub fn read_landing(self, cart: Cartridge, address: u16) -> Landing
        ensures { result ≡ lands_in cart (read_window self cart address) address }
    {
        match cart.mode {
            Mode::House => self.house_read_landing(cart, address),
            Mode::Board => self.board_read_landing(cart, address),
        }
    }

    #[tactic(auto, unfolding(crate::specs::Cnrom::write_window_in, places::specs::Windows::lands_in))]
    pub fn write_landing(self, cart: Cartridge, address: u16) -> Landing
        ensures { result ≡ lands_in cart (write_window self cart address) address }
    {
        match cart.mode {
            Mode::House => house_write_landing(cart, address),
            Mode::Board => places::board_chr_ram(cart, Bank8K::new(self.bank as u32), address),
        }
    }

    #[tactic(auto, unfolding(crate::specs::Cnrom::written, places::specs::Windows::lands_in))]
    pub fn write8(mut self, value: u8, address: u16) -> Self
        ensures { result ≡ written self value address }
    {
        if 0x8000 <= address {
            self.bank = value % 4;
        }
        self
    }
}
