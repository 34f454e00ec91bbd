// NROM: no register. Ported from potatis nes/src/mappers/nrom.rs.
#![tactic(auto)]

ghost use Rattle.std.specs.Prelude.{◌≡◌};
ghost use Rattle.places.specs.Windows.{lands_in};
ghost use Rattle.nrom.specs.Nrom.{read_window, write_window};

use banks::Bank8K;
use cartridge::Cartridge;
use common::Mode;
use places::Landing;

#[tactic(auto, unfolding(crate::specs::Nrom::read_window, places::specs::Windows::lands_in))]
pub fn read_landing(cart: Cartridge, address: u16) -> Landing
    ensures { result ≡ lands_in cart (read_window cart address) address }
{
    match address {
        0x0000..=0x1fff => places::chr_bank(cart, Bank8K::new(0), address),
        _ => places::fixed_prg(cart, address),
    }
}

#[tactic(auto, unfolding(crate::specs::Nrom::write_window_in, places::specs::Windows::lands_in))]
pub fn write_landing(cart: Cartridge, address: u16) -> Landing
    ensures { result ≡ lands_in cart (write_window cart address) address }
{
    match cart.mode {
        Mode::House => places::house_chr_ram(cart, address),
        Mode::Board => places::board_chr_ram(cart, Bank8K::new(0), address),
    }
}
