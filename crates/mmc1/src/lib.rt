// MMC1: a serial register and the four registers that it loads. Ported from potatis nes/src/mappers/mmc1.rs.
#![tactic(auto)]

ghost use Rattle.std.specs.Prelude.{◌≡◌, cond, ◌%◌};
ghost use Rattle.common.specs.Common.{KB4, KB8, KB16};
ghost use Rattle.memory.specs.Memory.{byte};
ghost use Rattle.banks.specs.Banks.{bank_start, bank_of};
ghost use Rattle.cartridge.specs.Load.{prg_rom, prg_total, chr_data, chr_total};
ghost use Rattle.places.specs.Places.{byte_at};
ghost use Rattle.places.specs.Windows.{lands_in, board_chr};
ghost use Rattle.places.specs.Windows.Window.{Chr4K, Prg16K};
ghost use Rattle.mmc1.specs.Write.{shifted, register_at, move_of, reset, switches8_kb, stored_chr0, stored_chr1, load, applied, control_mirroring, mirrors_of, written};
ghost use Rattle.mmc1.specs.Read.{switches32_kb, prg_pair, chr_pair, lower_prg, upper_prg, lower_chr, upper_chr, chr_bank, prg_bank, read_window, write_window, lower_prg_bank, upper_prg_bank, lower_chr_bank, upper_chr_bank};
ghost use Rattle.mmc1.specs.Range.{start, unused, is_unused, serial_fits, regs_fits, fits};

use banks::{Bank4K, Bank16K};
use cartridge::Cartridge;
use common::{Mirroring, Mode, Outcome, bits, kilobytes};
use memory::byte_at;
use places::{Landing, Lent, Place};

// The bits that have entered, the last of them as bit 4.
#[derive(Clone, Copy, Debug, PartialEq, Eq)]
pub struct Serial {
    pub count: u8,
    pub value: u8,
}

#[derive(Clone, Copy, Debug, PartialEq, Eq)]
pub struct Regs {
    pub prgmode: u8,
    pub chrmode: u8,
    pub chr0: u8,
    pub chr1: u8,
    pub prg: u8,
}

#[derive(Clone, Copy, Debug, PartialEq, Eq)]
pub struct Mmc1 {
    pub serial: Serial,
    pub regs: Regs,
}

// What a completed load goes to.
#[derive(Clone, Copy, Debug, PartialEq, Eq)]
pub enum Register {
    Control,
    Chr0,
    Chr1,
    Prg,
}

// What a write does. The fifth bit fills a register with five bits.
#[derive(Clone, Copy, Debug, PartialEq, Eq)]
pub enum Move {
    Nothing,
    Clear,
    Enter(Serial),
    Fill(Register, u8),
}

// The board after a write, and what the write asks of the screens.
pub type Wrote = Outcome<Mmc1, Option<Mirroring>>;

#[tactic(auto, unfolding(crate::specs::Write::register_at))]
fn register_at(address: u16) -> Register
    ensures { result ≡ register_at address }
{
    match address {
        0x0000..=0x9fff => Register::Control,
        0xa000..=0xbfff => Register::Chr0,
        0xc000..=0xdfff => Register::Chr1,
        _ => Register::Prg,
    }
}

#[tactic(auto, unfolding(crate::specs::Write::control_mirroring))]
fn control_mirroring(bits: u8) -> Mirroring
    ensures { result ≡ control_mirroring bits }
{
    match bits % 4 {
        0 => Mirroring::SingleScreenLower,
        1 => Mirroring::SingleScreenUpper,
        2 => Mirroring::Vertical,
        _ => Mirroring::Horizontal,
    }
}

impl Serial {
    pub const EMPTY: Serial = Serial { count: 0, value: 0 };

    // Least bit first: the new bit enters as bit 4, the others move down.
    fn shifted(self, value: u8) -> u8
        ensures { result ≡ shifted self value }
    {
        self.value / 2 + 16 * (value % 2)
    }

    // What the Rust's write_to_shift_register does, as a value. Only the fifth address chooses the register.
    #[tactic(auto, unfolding(crate::specs::Write::move_of))]
    pub fn move_of(self, value: u8, address: u16) -> Move
        ensures { result ≡ move_of self value address }
    {
        let shifted = self.shifted(value);
        if address < 0x8000 {
            Move::Nothing
        } else if bits::is_signed(value) {
            Move::Clear
        } else if self.count < 4 {
            Move::Enter(Serial {
                count: self.count + 1,
                value: shifted,
            })
        } else {
            Move::Fill(register_at(address), shifted)
        }
    }

    // `count` places further up, a multiple of 2^(5 - count) has left the five bits.
    pub fn fits(self) -> bool
        ensures { result ≡ serial_fits self }
    {
        (self.count < 5) & (self.value < 32) & ((self.value << (self.count % 8)) % 32 == 0)
    }
}

impl Move {
    #[tactic(auto, unfolding(crate::specs::Write::applied))]
    pub fn applied(self, mode: Mode, mmc1: Mmc1) -> Mmc1
        ensures { result ≡ applied mode self mmc1 }
    {
        match self {
            Move::Nothing => mmc1,
            Move::Clear => Mmc1 {
                serial: Serial::EMPTY,
                regs: mmc1.regs.reset(mode),
            },
            Move::Enter(serial) => Mmc1 { serial, ..mmc1 },
            Move::Fill(register, bits) => Mmc1 {
                serial: Serial::EMPTY,
                regs: mmc1.regs.load(mode, register, bits),
            },
        }
    }

    // What it asks of the screens.
    #[tactic(auto, unfolding(crate::specs::Write::mirrors_of))]
    pub fn mirrors(self) -> Option<Mirroring>
        ensures { result ≡ mirrors_of self }
    {
        match self {
            Move::Fill(Register::Control, bits) => Some(control_mirroring(bits)),
            _ => None,
        }
    }
}

impl Regs {
    // PRG modes 0 and 1 switch 32 KB at once; mode 2 fixes the first bank below, mode 3 the last above.
    fn switches_32kb(self) -> bool
        ensures { result ≡ switches32_kb self.prgmode }
    {
        self.prgmode < 2
    }

    // CHR mode 0 switches 8 KB at once, mode 1 two banks of 4 KB.
    fn switches_8kb(self) -> bool
        ensures { result ≡ switches8_kb self.chrmode }
    {
        self.chrmode == 0
    }

    // The Rust's switch_lower_chr_bank halves in 8 KB mode; the real board stores every bit.
    #[tactic(auto, unfolding(crate::specs::Write::stored_chr0))]
    fn stored_chr0(self, mode: Mode, bits: u8) -> u8
        ensures { result ≡ stored_chr0 mode self.chrmode bits }
    {
        match mode {
            Mode::House => if self.switches_8kb() { bits / 2 } else { bits },
            Mode::Board => bits,
        }
    }

    // Its switch_upper_chr_bank leaves the register alone in 8 KB mode.
    #[tactic(auto, unfolding(crate::specs::Write::stored_chr1))]
    fn stored_chr1(self, mode: Mode, bits: u8) -> u8
        ensures { result ≡ stored_chr1 mode self.chrmode self.chr1 bits }
    {
        match mode {
            Mode::House => if self.switches_8kb() { self.chr1 } else { bits },
            Mode::Board => bits,
        }
    }

    #[tactic(auto, unfolding(crate::specs::Write::load))]
    fn load(self, mode: Mode, register: Register, bits: u8) -> Regs
        ensures { result ≡ load mode self register bits }
    {
        match register {
            Register::Control => Regs {
                prgmode: bits / 4 % 4,
                chrmode: bits / 16 % 2,
                ..self
            },
            Register::Chr0 => Regs {
                chr0: self.stored_chr0(mode, bits),
                ..self
            },
            Register::Chr1 => Regs {
                chr1: self.stored_chr1(mode, bits),
                ..self
            },
            Register::Prg => Regs {
                prg: bits % 16,
                ..self
            },
        }
    }

    // A write with bit 7 sets PRG mode 3 on the real board, and in the Rust no register.
    #[tactic(auto, unfolding(crate::specs::Write::reset))]
    fn reset(self, mode: Mode) -> Regs
        ensures { result ≡ reset mode self }
    {
        match mode {
            Mode::House => self,
            Mode::Board => Regs { prgmode: 3, ..self },
        }
    }

    #[tactic(auto, unfolding(crate::specs::Read::lower_prg))]
    fn lower_prg(self, mode: Mode) -> Bank16K
        ensures { result.0 ≡ lower_prg mode self }
    {
        if self.switches_32kb() {
            Bank16K::new(prg_pair(mode, self.prg) as u32)
        } else if self.prgmode == 2 {
            Bank16K::new(0)
        } else {
            Bank16K::new(self.prg as u32)
        }
    }

    #[tactic(auto, unfolding(crate::specs::Read::upper_prg))]
    fn upper_prg(self, mode: Mode, last: u32) -> Bank16K
        ensures { result.0 ≡ upper_prg mode self last }
    {
        if self.switches_32kb() {
            Bank16K::new((prg_pair(mode, self.prg) as u32) + 1)
        } else if self.prgmode == 2 {
            Bank16K::new(self.prg as u32)
        } else {
            Bank16K::new(last)
        }
    }

    #[tactic(auto, unfolding(crate::specs::Read::lower_chr))]
    fn lower_chr(self, mode: Mode) -> Bank4K
        ensures { result.0 ≡ lower_chr mode self }
    {
        if self.switches_8kb() {
            Bank4K::new(chr_pair(mode, self.chr0) as u32)
        } else {
            Bank4K::new(self.chr0 as u32)
        }
    }

    #[tactic(auto, unfolding(crate::specs::Read::upper_chr))]
    fn upper_chr(self, mode: Mode) -> Bank4K
        ensures { result.0 ≡ upper_chr mode self }
    {
        if self.switches_8kb() {
            Bank4K::new((chr_pair(mode, self.chr0) as u32) + 1)
        } else {
            Bank4K::new(self.chr1 as u32)
        }
    }

    #[tactic(auto, unfolding(crate::specs::Range::regs_fits))]
    pub fn fits(self) -> bool
        ensures { result ≡ regs_fits self }
    {
        (self.prgmode < 4)
            & (self.chrmode < 2)
            & (self.chr0 < 32)
            & (self.chr1 < 32)
            & (self.prg < 16)
    }
}

// The first of the two 16 KB banks of PRG modes 0 and 1.
#[tactic(auto, unfolding(crate::specs::Read::prg_pair))]
fn prg_pair(mode: Mode, p: u8) -> u8
    ensures { result ≡ prg_pair mode p }
{
    match mode {
        Mode::House => p / 2,
        Mode::Board => p / 2 * 2,
    }
}

// The first of the two 4 KB banks of 8 KB CHR mode. House mode halved it when it was stored.
#[tactic(auto, unfolding(crate::specs::Read::chr_pair))]
fn chr_pair(mode: Mode, chr0: u8) -> u8
    ensures { result ≡ chr_pair mode chr0 }
{
    match mode {
        Mode::House => chr0,
        Mode::Board => chr0 / 2 * 2,
    }
}

// The bytes of a bank: a part of the lent image, or of CHR RAM.
fn prg_bytes(cart: Cartridge, bank: Bank16K, image: &[u8]) -> &[u8]
    ensures { result.now ≡ bank_of (prg_rom image.now) (bank_start cart.mode bank.0 KB16 (prg_total cart)) KB16 }
{
    let start = bank.start(cart.mode, cart.prg_total());
    banks::bank_of(cart.prg_rom(image), start, kilobytes::KB16)
}

fn chr_bytes<'a>(cart: Cartridge, bank: Bank4K, image: &'a [u8], ram: &'a [u8]) -> &'a [u8]
    ensures { result.now ≡ bank_of (chr_data cart image.now ram.now) (bank_start cart.mode bank.0 KB4 (chr_total cart)) KB4 }
{
    let start = bank.start(cart.mode, cart.chr_total());
    banks::bank_of(cart.chr_data(image, ram), start, kilobytes::KB4)
}

// The byte of PRG RAM at 6000-7FFF, 0 where there is no such RAM.
fn prg_ram_byte(cart: Cartridge, prg: &[u8], address: u16) -> u8
    ensures { result ≡ cond cart.prgram (byte prg.now (address % KB8)) 0 }
{
    if cart.prgram {
        byte_at(prg, (address % 8192) as usize)
    } else {
        0
    }
}

impl Mmc1 {
    // Powers on in the last bank.
    pub fn new() -> Self
        ensures { result ≡ start }
    {
        Mmc1 {
            serial: Serial::EMPTY,
            regs: Regs {
                prgmode: 3,
                chrmode: 0,
                chr0: 0,
                chr1: 0,
                prg: 0,
            },
        }
    }

    // What another board holds in these fields.
    pub fn unused() -> Self
        ensures { result ≡ unused }
    {
        Mmc1 {
            serial: Serial::EMPTY,
            regs: Regs {
                prgmode: 0,
                chrmode: 0,
                chr0: 0,
                chr1: 0,
                prg: 0,
            },
        }
    }

    #[tactic(auto, unfolding(crate::specs::Range::is_unused))]
    pub fn is_unused(self) -> bool
        ensures { result ≡ is_unused self }
    {
        self == Mmc1::unused()
    }

    #[tactic(auto, unfolding(crate::specs::Range::fits))]
    pub fn fits(self) -> bool
        ensures { result ≡ fits self }
    {
        self.serial.fits() & self.regs.fits()
    }

    #[tactic(auto, unfolding(crate::specs::Write::written))]
    pub fn write8(self, mode: Mode, value: u8, address: u16) -> Wrote
        ensures { result ≡ written mode self value address }
    {
        let made = self.serial.move_of(value, address);
        Outcome {
            left: made.applied(mode, self),
            answer: made.mirrors(),
        }
    }

    #[tactic(auto, unfolding(crate::specs::Read::chr_bank))]
    fn chr_bank(self, cart: Cartridge, address: u16) -> Bank4K
        ensures { result.0 ≡ chr_bank self cart address }
    {
        if address < 0x1000 {
            self.regs.lower_chr(cart.mode)
        } else {
            self.regs.upper_chr(cart.mode)
        }
    }

    #[tactic(auto, unfolding(crate::specs::Read::prg_bank))]
    fn prg_bank(self, cart: Cartridge, address: u16) -> Bank16K
        ensures { result.0 ≡ prg_bank self cart address }
    {
        if address < 0xc000 {
            self.regs.lower_prg(cart.mode)
        } else {
            self.regs.upper_prg(cart.mode, cart.last_prg())
        }
    }

    #[tactic(auto, unfolding(places::specs::Windows::lands_in))]
    fn read_chr(self, cart: Cartridge, address: u16) -> Landing
        ensures { result ≡ lands_in cart (Chr4K (chr_bank self cart address)) address }
    {
        places::chr_bank(cart, self.chr_bank(cart, address), address)
    }

    #[tactic(auto, unfolding(places::specs::Windows::lands_in))]
    fn read_prg(self, cart: Cartridge, address: u16) -> Landing
        ensures { result ≡ lands_in cart (Prg16K (prg_bank self cart address)) address }
    {
        places::prg_bank(cart, self.prg_bank(cart, address), address)
    }

    #[tactic(auto, unfolding(places::specs::Windows::lands_in, crate::specs::Read::read_window, places::specs::Windows::in_windows))]
    pub fn read_landing(self, cart: Cartridge, address: u16) -> Landing
        ensures { result ≡ lands_in cart (read_window self cart address) address }
    {
        match address {
            0x0000..=0x1fff => self.read_chr(cart, address),
            0x6000..=0x7fff => places::if_prg_ram(cart, address),
            0x8000..=0xffff => self.read_prg(cart, address),
            _ => Ok(Place::Nowhere),
        }
    }

    fn board_write_chr(self, cart: Cartridge, address: u16) -> Landing
        ensures { result ≡ lands_in cart (board_chr cart (Chr4K (chr_bank self cart address))) address }
    {
        places::if_chr_ram(cart, self.read_chr(cart, address))
    }

    // At 8000-FFFF no byte is stored: the registers are there.
    #[tactic(auto, unfolding(places::specs::Windows::lands_in, crate::specs::Read::write_window_in, crate::specs::Read::ppu_write_in, places::specs::Windows::in_windows))]
    pub fn write_landing(self, cart: Cartridge, address: u16) -> Landing
        ensures { result ≡ lands_in cart (write_window self cart address) address }
    {
        match address {
            0x0000..=0x1fff => match cart.mode {
                Mode::House => places::house_chr(cart, address),
                Mode::Board => self.board_write_chr(cart, address),
            },
            0x6000..=0x7fff => places::if_prg_ram(cart, address),
            _ => Ok(Place::Nowhere),
        }
    }

    // The four banks, each a function of its own as document 01 asks, over one for PRG and one for CHR.
    #[tactic(auto, unfolding(crate::specs::Read::lower_prg_bank))]
    pub fn lower_prg_bank(self, cart: Cartridge, image: &[u8]) -> &[u8]
        ensures { result.now ≡ lower_prg_bank self cart image.now }
    {
        prg_bytes(cart, self.regs.lower_prg(cart.mode), image)
    }

    #[tactic(auto, unfolding(crate::specs::Read::upper_prg_bank))]
    pub fn upper_prg_bank(self, cart: Cartridge, image: &[u8]) -> &[u8]
        ensures { result.now ≡ upper_prg_bank self cart image.now }
    {
        prg_bytes(cart, self.regs.upper_prg(cart.mode, cart.last_prg()), image)
    }

    #[tactic(auto, unfolding(crate::specs::Read::lower_chr_bank))]
    pub fn lower_chr_bank<'a>(self, cart: Cartridge, image: &'a [u8], ram: &'a [u8]) -> &'a [u8]
        ensures { result.now ≡ lower_chr_bank self cart image.now ram.now }
    {
        chr_bytes(cart, self.regs.lower_chr(cart.mode), image, ram)
    }

    #[tactic(auto, unfolding(crate::specs::Read::upper_chr_bank))]
    pub fn upper_chr_bank<'a>(self, cart: Cartridge, image: &'a [u8], ram: &'a [u8]) -> &'a [u8]
        ensures { result.now ≡ upper_chr_bank self cart image.now ram.now }
    {
        chr_bytes(cart, self.regs.upper_chr(cart.mode), image, ram)
    }

    // The byte that a read finds, from the bank that shows it; 0 where there is none.
    pub fn read8(self, cart: Cartridge, lent: Lent<'_>, address: u16) -> u8
        ensures { result ≡ byte_at cart (lands_in cart (read_window self cart address) address) lent.entry.image.now lent.entry.prg.now lent.entry.chr.now }
    {
        let Lent { image, prg, chr } = lent;
        let in_chr = (address % 4096) as usize;
        let in_prg = (address % 16384) as usize;
        match address {
            0x0000..=0x0fff => byte_at(self.lower_chr_bank(cart, image, chr), in_chr),
            0x1000..=0x1fff => byte_at(self.upper_chr_bank(cart, image, chr), in_chr),
            0x6000..=0x7fff => prg_ram_byte(cart, prg, address),
            0x8000..=0xbfff => byte_at(self.lower_prg_bank(cart, image), in_prg),
            0xc000..=0xffff => byte_at(self.upper_prg_bank(cart, image), in_prg),
            _ => 0,
        }
    }
}
