// Where an address lands in what a board shows there, and the byte that is read or stored.
#![tactic(auto)]

ghost use Rattle.std.specs.Prelude.{◌≡◌, ◌%◌};
ghost use Rattle.places.specs.Windows.{lands_in, fixed_block, fixed_prg, house_chr, house_chr_ram, board_chr, board_chr_ram, prg_ram_of};
ghost use Rattle.places.specs.Steps.{if_chr_ram};
ghost use Rattle.places.specs.Whole.{whole_banks};
ghost use Rattle.places.specs.Windows.Window.{Chr8K, PrgRam};
ghost use Rattle.places.specs.Places.{prg_at, chr_at, in_prg, in_chr, byte_of, byte_at, answer_at, StoreOwes};

use banks::{Bank, Bank8K, Bank16K, Bank32K};
use cartridge::Cartridge;
use common::Refusal;

// Counted from the start of the PRG data, of the CHR data, or of a lent RAM.
#[derive(Clone, Copy, Debug, PartialEq, Eq)]
pub enum Place {
    Prg(usize),
    Chr(usize),
    PrgRam(usize),
    ChrRam(usize),
    Nowhere,
}

pub type Landing = Result<Place, Refusal>;

pub type ReadAnswer = Result<u8, Refusal>;

#[tactic(auto, unfolding(crate::specs::Places::prg_at))]
pub fn prg_at(start: Option<u32>, at: u16) -> Landing
    ensures { result ≡ prg_at start at }
{
    match start {
        Some(s) => Ok(Place::Prg((s as usize) + (at as usize))),
        None => Err(Refusal::BankPastData),
    }
}

#[tactic(auto, unfolding(crate::specs::Places::chr_at))]
pub fn chr_at(ram: bool, start: Option<u32>, at: u16) -> Landing
    ensures { result ≡ chr_at ram start at }
{
    match start {
        Some(s) => {
            let i = (s as usize) + (at as usize);
            Ok(if ram { Place::ChrRam(i) } else { Place::Chr(i) })
        }
        None => Err(Refusal::BankPastData),
    }
}

// A window of PRG and one of CHR, for every size of bank. Each lies on a multiple of its size.
#[tactic(auto, unfolding(crate::specs::Places::in_prg))]
pub fn prg_bank<const SIZE: u32>(cart: Cartridge, bank: Bank<SIZE>, address: u16) -> Landing
    ensures { result ≡ in_prg cart SIZE bank.entry.0 (address % SIZE) }
{
    let at = banks::wrapped(address as u32, SIZE);
    prg_at(bank.start(cart.mode, cart.prg_total()), at as u16)
}

#[tactic(auto, unfolding(crate::specs::Places::in_chr))]
pub fn chr_bank<const SIZE: u32>(cart: Cartridge, bank: Bank<SIZE>, address: u16) -> Landing
    ensures { result ≡ in_chr cart SIZE bank.entry.0 (address % SIZE) }
{
    let at = banks::wrapped(address as u32, SIZE);
    chr_at(
        cart.has_chr_ram(),
        bank.start(cart.mode, cart.chr_total()),
        at as u16,
    )
}

#[tactic(auto, unfolding(crate::specs::Windows::lands_in))]
pub fn prg_ram(cart: Cartridge, address: u16) -> Landing
    ensures { result ≡ lands_in cart PrgRam address }
{
    Ok(Place::PrgRam((address % 8192) as usize))
}

// MMC1 and MMC3: 6000-7FFF, where an NES 2.0 image may have no RAM.
#[tactic(auto, unfolding(crate::specs::Windows::prg_ram_of, crate::specs::Windows::lands_in))]
pub fn if_prg_ram(cart: Cartridge, address: u16) -> Landing
    ensures { result ≡ lands_in cart (prg_ram_of cart) address }
{
    if cart.prgram {
        prg_ram(cart, address)
    } else {
        Ok(Place::Nowhere)
    }
}

// The first PRG block, then the second, or the first again if there is only one.
#[tactic(auto, unfolding(crate::specs::Windows::fixed_block))]
fn fixed_block(cart: Cartridge, address: u16) -> u32
    ensures { result ≡ fixed_block cart address }
{
    if address < 0xc000 {
        0
    } else if cart.prg == 1 {
        0
    } else {
        1
    }
}

// NROM and CNROM: one or two PRG blocks, which no write moves.
#[tactic(auto, unfolding(crate::specs::Windows::lands_in, crate::specs::Windows::fixed_prg))]
pub fn fixed_prg(cart: Cartridge, address: u16) -> Landing
    ensures { result ≡ lands_in cart (fixed_prg cart address) address }
{
    match address {
        0x8000..=0xffff => prg_bank(cart, Bank16K::new(fixed_block(cart, address)), address),
        _ => Ok(Place::Nowhere),
    }
}

// House NROM, UxROM and MMC1: a PPU write lands in CHR RAM unbanked, and where there is none the Rust panics.
#[tactic(auto, unfolding(crate::specs::Windows::lands_in, crate::specs::Windows::house_chr))]
pub fn house_chr(cart: Cartridge, address: u16) -> Landing
    ensures { result ≡ lands_in cart (house_chr cart) address }
{
    if cart.chr == 0 {
        Ok(Place::ChrRam((address % 8192) as usize))
    } else {
        Err(Refusal::NoChrRam)
    }
}

// House NROM and UxROM: no other write stores a byte.
#[tactic(auto, unfolding(crate::specs::Windows::lands_in, crate::specs::Windows::house_chr_ram))]
pub fn house_chr_ram(cart: Cartridge, address: u16) -> Landing
    ensures { result ≡ lands_in cart (house_chr_ram cart address) address }
{
    match address {
        0x0000..=0x1fff => house_chr(cart, address),
        _ => Ok(Place::Nowhere),
    }
}

// Board mode: a byte for CHR goes where it would be read, if that is RAM; CHR ROM ignores it.
#[tactic(auto, unfolding(crate::specs::Steps::if_chr_ram))]
pub fn if_chr_ram(cart: Cartridge, read: Landing) -> Landing
    ensures { result ≡ if_chr_ram cart read }
{
    if cart.chr == 0 {
        read
    } else {
        Ok(Place::Nowhere)
    }
}

fn board_chr_8k(cart: Cartridge, bank: Bank8K, address: u16) -> Landing
    ensures { result ≡ lands_in cart (board_chr cart (Chr8K bank.0)) address }
{
    if_chr_ram(cart, chr_bank(cart, bank, address))
}

// NROM, UxROM and CNROM in board mode: no other write stores a byte.
#[tactic(auto, unfolding(crate::specs::Windows::lands_in, crate::specs::Windows::board_chr_ram))]
pub fn board_chr_ram(cart: Cartridge, bank: Bank8K, address: u16) -> Landing
    ensures { result ≡ lands_in cart (board_chr_ram cart bank.0 address) address }
{
    match address {
        0x0000..=0x1fff => board_chr_8k(cart, bank, address),
        _ => Ok(Place::Nowhere),
    }
}

// AxROM and GxROM: one bank of CHR, one of PRG.
#[tactic(auto, unfolding(crate::specs::Whole::whole_banks, crate::specs::Whole::in_prg_32k, crate::specs::Windows::lands_in))]
pub fn whole_banks(cart: Cartridge, chr: Bank8K, prg: Bank32K, address: u16) -> Landing
    ensures { result ≡ whole_banks cart chr.0 prg.0 address }
{
    match address {
        0x0000..=0x1fff => chr_bank(cart, chr, address),
        0x8000..=0xffff => prg_bank(cart, prg, address),
        _ => Ok(Place::Nowhere),
    }
}

// What is lent to a read: the image, and both RAMs.
#[derive(Clone, Copy)]
pub struct Lent<'a> {
    pub image: &'a [u8],
    pub prg: &'a [u8],
    pub chr: &'a [u8],
}

impl Lent<'_> {
    // The byte at a place, 0 where there is none.
    #[tactic(auto, unfolding(crate::specs::Places::byte_of))]
    pub fn byte_of(self, cart: Cartridge, place: Place) -> u8
        ensures { result ≡ byte_of cart place self.entry.image.now self.entry.prg.now self.entry.chr.now }
    {
        match place {
            Place::Prg(i) => memory::byte_at(cart.prg_rom(self.image), i),
            Place::Chr(i) => memory::byte_at(cart.chr_rom(self.image), i),
            Place::PrgRam(i) => memory::byte_at(self.prg, i),
            Place::ChrRam(i) => memory::byte_at(self.chr, i),
            Place::Nowhere => 0,
        }
    }

    // The byte where an address lands.
    #[tactic(auto, unfolding(crate::specs::Places::byte_at))]
    pub fn byte_at(self, cart: Cartridge, landing: Landing) -> u8
        ensures { result ≡ byte_at cart landing self.entry.image.now self.entry.prg.now self.entry.chr.now }
    {
        match landing {
            Ok(place) => self.byte_of(cart, place),
            Err(_) => 0,
        }
    }
}

// What a read answers that lands on this byte.
#[tactic(auto, unfolding(crate::specs::Places::answer_at))]
pub fn answer_at(landing: Landing, byte: u8) -> ReadAnswer
    ensures { result ≡ answer_at landing byte }
{
    landing.map(|_| byte)
}

// Only RAM takes a byte.
#[tactic(auto, unfolding(crate::specs::Places::stored_prg, crate::specs::Places::stored_chr))]
pub fn store(landing: Landing, prg: &mut [u8], chr: &mut [u8], value: u8)
    ensures { StoreOwes landing value prg.old chr.old prg.new chr.new }
{
    match landing {
        Ok(Place::PrgRam(i)) => memory::put(prg, i, value),
        Ok(Place::ChrRam(i)) => memory::put(chr, i, value),
        Ok(Place::Prg(_) | Place::Chr(_) | Place::Nowhere) | Err(_) => {}
    }
}
