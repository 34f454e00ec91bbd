// The iNES header, and what a load accepts and leaves. Ported from potatis nes/src/cartridge.rs; what board
// mode reads of an NES 2.0 header is not in the Rust.
#![tactic(auto)]

ghost use Rattle.std.specs.Prelude.{◌≡◌, ◌+◌, ◌*◌, length};
ghost use Rattle.cartridge.specs.Mappers.{mapper_number, mapper_type};
ghost use Rattle.cartridge.specs.Header.{is_ines, header_of, header_read, total_size, mapper_of, mirroring_of, is_nes2, is_special};
ghost use Rattle.cartridge.specs.Nes2.{is_nes2_in, extended, longer, mapper_in, prg_in, chr_in, has_submapper, has_exponent, is_shifts, says_otherwise, nes2_not_taken, has_prg_ram};
ghost use Rattle.cartridge.specs.Load.{is_power, no_powers, bad_prg, needed, rams_fit, verdict, cartridge_of, LoadOwes, prg_total, has_chr_ram, chr_total, prg_rom, chr_rom, chr_data, last_prg, counts_end, prg_ram_fits, could_load};

use common::{Mirroring, Mode, Refusal, kilobytes};
use memory::byte_at;

pub const HEADER_SIZE: u32 = 16;

const PRG_ROM_BLOCK_SIZE: u32 = kilobytes::KB16;

const CHR_ROM_BLOCK_SIZE: u32 = kilobytes::KB8;

// Bytes 4 to 15 as they stand; byte 4 counts PRG blocks, byte 5 CHR blocks.
#[derive(Clone, Copy, Debug, PartialEq, Eq)]
pub struct Header {
    pub prg: u8,
    pub chr: u8,
    pub flags6: u8,
    pub flags7: u8,
    pub flags8: u8,
    pub flags9: u8,
    pub flags10: u8,
    pub flags11: u8,
    pub flags12: u8,
    pub flags13: u8,
    pub flags14: u8,
    pub flags15: u8,
}

impl Header {
    // The header reader.
    #[tactic(auto, unfolding(crate::specs::Header::header_read, crate::specs::Header::header_as))]
    pub fn parse(bin: &[u8]) -> Result<Header, Refusal>
        ensures { result ≡ header_read bin.now }
    {
        if bin.len() < 16 {
            Err(Refusal::HeaderTooShort)
        } else if !is_ines(bin) {
            Err(Refusal::HeaderNotInes)
        } else {
            Ok(read_header(bin))
        }
    }

    pub fn total_size_excluding_header(self) -> u32
        ensures { result ≡ total_size self }
    {
        (self.prg as u32) * PRG_ROM_BLOCK_SIZE + (self.chr as u32) * CHR_ROM_BLOCK_SIZE
    }

    fn mapper(self) -> u8
        ensures { result ≡ mapper_of self }
    {
        self.flags7 / 16 * 16 + self.flags6 / 16
    }

    #[tactic(auto, unfolding(crate::specs::Header::mirroring_of))]
    fn mirroring(self) -> Mirroring
        ensures { result ≡ mirroring_of self }
    {
        if self.flags6 % 2 == 1 {
            Mirroring::Vertical
        } else {
            Mirroring::Horizontal
        }
    }

    fn is_nes2(self) -> bool
        ensures { result ≡ is_nes2 self }
    {
        self.flags7 / 4 % 4 == 2
    }

    // A trainer, or four screens: bits 2 and 3 of byte 6.
    fn is_special(self) -> bool
        ensures { result ≡ is_special self }
    {
        self.flags6 / 4 % 4 != 0
    }

    fn is_extended(self, mode: Mode) -> bool
        ensures { result ≡ extended mode self }
    {
        is_nes2_in(mode, self.is_nes2())
    }

    // A number that iNES has in a byte, with the nibble that NES 2.0 has above it.
    fn longer(self, mode: Mode, number: u8, nibble: u8) -> u16
        ensures { result ≡ longer mode self number nibble }
    {
        if self.is_extended(mode) {
            (number as u16) + (nibble as u16) * 256
        } else {
            number as u16
        }
    }

    #[tactic(auto, unfolding(crate::specs::Nes2::mapper_in))]
    fn mapper_in(self, mode: Mode) -> u16
        ensures { result ≡ mapper_in mode self }
    {
        self.longer(mode, self.mapper(), self.flags8 % 16)
    }

    #[tactic(auto, unfolding(crate::specs::Nes2::prg_in))]
    fn prg_in(self, mode: Mode) -> u16
        ensures { result ≡ prg_in mode self }
    {
        self.longer(mode, self.prg, self.flags9 % 16)
    }

    #[tactic(auto, unfolding(crate::specs::Nes2::chr_in))]
    fn chr_in(self, mode: Mode) -> u16
        ensures { result ≡ chr_in mode self }
    {
        self.longer(mode, self.chr, self.flags9 / 16)
    }

    #[tactic(auto, unfolding(crate::specs::Nes2::has_submapper))]
    fn has_submapper(self) -> bool
        ensures { result ≡ has_submapper self }
    {
        self.flags8 / 16 != 0
    }

    // A count as a power of two and a multiplier, which no image of ours needs.
    #[tactic(auto, unfolding(crate::specs::Nes2::has_exponent))]
    fn has_exponent(self) -> bool
        ensures { result ≡ has_exponent self }
    {
        (self.flags9 % 16 == 15) | (self.flags9 / 16 == 15)
    }

    // Refusal 16.
    #[tactic(auto, unfolding(crate::specs::Nes2::nes2_not_taken))]
    fn nes2_not_taken(self, mode: Mode) -> bool
        ensures { result ≡ nes2_not_taken mode self }
    {
        self.is_extended(mode)
            & (self.has_submapper()
                | self.has_exponent()
                | !is_shifts(self.flags10)
                | !is_shifts(self.flags11)
                | says_otherwise(self.chr_in(mode), self.flags11))
    }

    // An iNES header does not say; the boards have it.
    #[tactic(auto, unfolding(crate::specs::Nes2::has_prg_ram))]
    fn has_prg_ram(self, mode: Mode) -> bool
        ensures { result ≡ has_prg_ram mode self }
    {
        if self.is_extended(mode) {
            self.flags10 != 0
        } else {
            true
        }
    }
}

// House mode knows no NES 2.0: the mark changes nothing there.
#[tactic(auto, unfolding(crate::specs::Nes2::is_nes2_in))]
fn is_nes2_in(mode: Mode, mark: bool) -> bool
    ensures { result ≡ is_nes2_in mode mark }
{
    match mode {
        Mode::House => false,
        Mode::Board => mark,
    }
}

// Two shifts of a RAM, without a battery and with one: none of it, or 8 KB of one kind.
#[tactic(auto, unfolding(crate::specs::Nes2::is_shifts))]
fn is_shifts(byte: u8) -> bool
    ensures { result ≡ is_shifts byte }
{
    (byte == 0x00) | (byte == 0x07) | (byte == 0x70)
}

// Byte 11 has CHR RAM beside CHR blocks, or none where there are no blocks.
#[tactic(auto, unfolding(crate::specs::Nes2::says_otherwise))]
fn says_otherwise(chr: u16, byte11: u8) -> bool
    ensures { result ≡ says_otherwise chr byte11 }
{
    ((chr == 0) & (byte11 == 0)) | ((chr != 0) & (byte11 != 0))
}

// Bytes 0 to 3 are 4E 45 53 1A, "NES" and an end of file.
#[tactic(auto, unfolding(crate::specs::Header::is_ines))]
fn is_ines(bin: &[u8]) -> bool
    ensures { result ≡ is_ines bin.now }
{
    (byte_at(bin, 0) == 0x4E)
        & (byte_at(bin, 1) == 0x45)
        & (byte_at(bin, 2) == 0x53)
        & (byte_at(bin, 3) == 0x1A)
}

#[tactic(auto, unfolding(crate::specs::Header::header_of))]
fn read_header(bin: &[u8]) -> Header
    ensures { result ≡ header_of bin.now }
{
    Header {
        prg: byte_at(bin, 4),
        chr: byte_at(bin, 5),
        flags6: byte_at(bin, 6),
        flags7: byte_at(bin, 7),
        flags8: byte_at(bin, 8),
        flags9: byte_at(bin, 9),
        flags10: byte_at(bin, 10),
        flags11: byte_at(bin, 11),
        flags12: byte_at(bin, 12),
        flags13: byte_at(bin, 13),
        flags14: byte_at(bin, 14),
        flags15: byte_at(bin, 15),
    }
}

// The boards by their numbers.
#[derive(Clone, Copy, Debug, PartialEq, Eq)]
pub enum MapperType {
    Nrom = 0,
    Mmc1 = 1,
    Uxrom = 2,
    Cnrom = 3,
    Mmc3 = 4,
}

impl From<MapperType> for u8 {
    fn from(mapper: MapperType) -> u8
        ensures { result ≡ mapper_number mapper }
    {
        mapper as u8
    }
}

// The board of a number up to 4; the load refuses the others.
impl From<u16> for MapperType {
    #[tactic(auto, unfolding(crate::specs::Mappers::mapper_type))]
    fn from(number: u16) -> MapperType
        ensures { result ≡ mapper_type number }
    {
        match number {
            0 => MapperType::Nrom,
            1 => MapperType::Mmc1,
            2 => MapperType::Uxrom,
            3 => MapperType::Cnrom,
            _ => MapperType::Mmc3,
        }
    }
}

// What a load keeps of an image. The bytes stay the caller's.
#[derive(Clone, Copy, Debug, PartialEq, Eq)]
pub struct Cartridge {
    pub mode: Mode,
    pub mapper: MapperType,
    // Recorded; what board mode read by it stands in the fields below.
    pub nes2: bool,
    pub mirroring: Mirroring,
    pub prgram: bool,
    // In 16 KB blocks.
    pub prg: u16,
    // In 8 KB blocks; 0 means 8 KB of CHR RAM.
    pub chr: u16,
    // Of the whole image.
    pub length: usize,
}

impl Cartridge {
    // The PRG data, which begins at byte 16, as a part of the lent image.
    #[tactic(auto, unfolding(crate::specs::Load::prg_rom))]
    pub fn prg_rom(self, image: &[u8]) -> &[u8]
        ensures { result.now ≡ prg_rom image.now }
    {
        memory::tail_of(image, HEADER_SIZE as usize)
    }

    // The CHR data, which follows the PRG data.
    #[tactic(auto, unfolding(crate::specs::Load::chr_rom))]
    pub fn chr_rom(self, image: &[u8]) -> &[u8]
        ensures { result.now ≡ chr_rom self image.now }
    {
        let start = HEADER_SIZE + self.prg_total();
        memory::tail_of(image, start as usize)
    }

    // CHR RAM where there is any, else the CHR data.
    #[tactic(auto, unfolding(crate::specs::Load::chr_data))]
    pub fn chr_data<'a>(self, image: &'a [u8], ram: &'a [u8]) -> &'a [u8]
        ensures { result.now ≡ chr_data self image.now ram.now }
    {
        if self.chr == 0 {
            ram
        } else {
            self.chr_rom(image)
        }
    }

    pub fn prg_total(self) -> u32
        ensures { result ≡ prg_total self }
    {
        (self.prg as u32) * PRG_ROM_BLOCK_SIZE
    }

    // The last 16 KB bank, 0 where there is none.
    #[tactic(auto, unfolding(crate::specs::Load::last_prg))]
    pub fn last_prg(self) -> u32
        ensures { result ≡ last_prg self }
    {
        (self.prg as u32).saturating_sub(1)
    }

    pub fn has_chr_ram(self) -> bool
        ensures { result ≡ has_chr_ram self }
    {
        self.chr == 0
    }

    #[tactic(auto, unfolding(crate::specs::Load::chr_total))]
    pub fn chr_total(self) -> u32
        ensures { result ≡ chr_total self }
    {
        if self.chr == 0 {
            CHR_ROM_BLOCK_SIZE
        } else {
            (self.chr as u32) * CHR_ROM_BLOCK_SIZE
        }
    }

    // Every field is as a load could leave it.
    #[tactic(auto, unfolding(crate::specs::Load::could_load))]
    pub fn could_load(self) -> bool
        ensures { result ≡ could_load self }
    {
        let end = counts_end(self.mode, self.nes2);
        let counts = !bad_prg(u8::from(self.mapper) as u16, self.prg)
            & !no_powers(self.mode, self.prg as u64, self.chr as u64);
        let size = (self.prg < end)
            & (self.chr < end)
            & ((needed(self.prg, self.chr) as usize) <= self.length);
        counts & size & self.mirroring.is_headers() & self.prg_ram_fits()
    }

    #[tactic(auto, unfolding(crate::specs::Load::prg_ram_fits))]
    fn prg_ram_fits(self) -> bool
        ensures { result ≡ prg_ram_fits self }
    {
        self.prgram | is_nes2_in(self.mode, self.nes2)
    }
}

// Above every count that a header can say.
#[tactic(auto, unfolding(crate::specs::Load::counts_end))]
fn counts_end(mode: Mode, mark: bool) -> u16
    ensures { result ≡ counts_end mode mark }
{
    if is_nes2_in(mode, mark) { 4096 } else { 256 }
}

// In a power of two exactly one bit is 1, and in no other number.
#[tactic(auto, unfolding(crate::specs::Load::is_power))]
fn is_power_of_two(n: u64) -> bool
    ensures { result ≡ is_power n }
{
    u64::count_ones(n) == 1
}

// Refusal 8: a PRG count, or a CHR count that is not 0, is no power of two. Board mode only. Counts are as
// wide as a word of a kept state, whose calls judge it by this.
#[tactic(auto, unfolding(crate::specs::Load::no_powers))]
pub fn no_powers(mode: Mode, prg: u64, chr: u64) -> bool
    ensures { result ≡ no_powers mode prg chr }
{
    match mode {
        Mode::House => false,
        Mode::Board => !is_power_of_two(prg) | ((chr != 0) & !is_power_of_two(chr)),
    }
}

// Refusal 6. NROM and CNROM have no more than two blocks.
#[tactic(auto, unfolding(crate::specs::Load::bad_prg))]
fn bad_prg(mapper: u16, prg: u16) -> bool
    ensures { result ≡ bad_prg mapper prg }
{
    (prg == 0) | (((mapper == 0) | (mapper == 3)) & (2 < prg))
}

// The header and all blocks.
fn needed(prg: u16, chr: u16) -> u32
    ensures { result ≡ needed prg chr }
{
    HEADER_SIZE + (prg as u32) * PRG_ROM_BLOCK_SIZE + (chr as u32) * CHR_ROM_BLOCK_SIZE
}

// Refusal 9. Both RAMs are lent whole, used or not.
#[tactic(auto, unfolding(crate::specs::Load::rams_fit))]
pub fn rams_fit(prg: usize, chr: usize) -> bool
    ensures { result ≡ rams_fit prg chr }
{
    (prg == 8192) & (chr == 8192)
}

// What a load decides: the first refusal that is due, in the order of a load.
#[tactic(auto, unfolding(crate::specs::Load::verdict))]
fn judge(image: &[u8], mode: Mode, prg: usize, chr: usize) -> Result<(), Refusal>
    ensures { result ≡ verdict image.now mode prg chr }
{
    let header = read_header(image);
    let mapper = header.mapper_in(mode);
    let blocks = header.prg_in(mode);
    let chr_blocks = header.chr_in(mode);
    if !rams_fit(prg, chr) {
        Err(Refusal::RamNot8K)
    } else if (image.len() < 16400) | !is_ines(image) {
        Err(Refusal::ImageNotInes)
    } else if 4 < mapper {
        Err(Refusal::MapperNotTaken)
    } else if header.is_special() {
        Err(Refusal::TrainerOrFourScreen)
    } else if header.nes2_not_taken(mode) {
        Err(Refusal::Nes2NotTaken)
    } else if bad_prg(mapper, blocks) {
        Err(Refusal::PrgCountNotTaken)
    } else if image.len() < (needed(blocks, chr_blocks) as usize) {
        Err(Refusal::ImageTooShort)
    } else if no_powers(mode, blocks as u64, chr_blocks as u64) {
        Err(Refusal::CountNoPowerOfTwo)
    } else {
        Ok(())
    }
}

#[tactic(auto, unfolding(crate::specs::Load::cartridge_of))]
fn cartridge_of(h: Header, mode: Mode, len: usize) -> Cartridge
    ensures { result ≡ cartridge_of h mode len }
{
    Cartridge {
        mode,
        mapper: MapperType::from(h.mapper_in(mode)),
        nes2: h.is_nes2(),
        mirroring: h.mirroring(),
        prgram: h.has_prg_ram(mode),
        prg: h.prg_in(mode),
        chr: h.chr_in(mode),
        length: len,
    }
}

impl Cartridge {
    // An accepted load fills both RAMs with zero; a refused one leaves them. The image stays the caller's.
    #[tactic(auto, unfolding(crate::specs::Load::loaded_as, crate::specs::Load::ram_after))]
    pub fn load(
        image: &[u8],
        mode: Mode,
        prg: &mut [u8],
        chr: &mut [u8],
    ) -> Result<Cartridge, Refusal>
        ensures { LoadOwes image.now mode prg.old chr.old result prg.new chr.new }
    {
        judge(image, mode, prg.len(), chr.len())?;
        memory::clear(prg);
        memory::clear(chr);
        Ok(cartridge_of(read_header(image), mode, image.len()))
    }
}
