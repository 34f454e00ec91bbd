// The address space in 64 pages of 1 KB: where the bytes of each are, for a caller that reads and stores them itself, and which
// pages a change of registers may have moved.
#![tactic(auto)]

ghost use Rattle.std.specs.Prelude.{◌≡◌, ℕ, ◌+◌, ◌<◌, ◌≤◌, leb, length, slice_index, EachIndex};
ghost use Rattle.pages.specs.Pages.{place_read, place_written, refused_page, read_from, written_to, has_registers, read_page, write_page, PagesIf, PagesOwes};
ghost use Rattle.pages.specs.Parts.{same_chr1, same_prg1, same_chr3, same_prg3, same_ram3, same_chr, same_prg, same_ram, parts_moved};

use boards::{Board, Registers};
use cartridge::{Cartridge, MapperType};
use common::Refusal;
use mmc1::Regs;
use mmc3::Mmc3;
use places::{Landing, Place};

pub type PagesAnswer = Result<(), Refusal>;

// Pages 0 to 7, pages 32 to 63, and pages 24 to 31. Those from 8 to 23 never move.
#[derive(Clone, Copy, Debug, PartialEq, Eq)]
pub struct Parts {
    pub chr: bool,
    pub prg: bool,
    pub ram: bool,
}

// A page is one number, its kind 2^28 times and an offset. Kinds are no enum here: C is told the number as it stands (docs/ABI.md).
#[tactic(auto, unfolding(crate::specs::Pages::place_written))]
fn place_written(place: Place) -> u32
    ensures { result ≡ place_written place }
{
    match place {
        Place::PrgRam(i) => 0x1000_0000 + ((i % 8192) as u32),
        Place::ChrRam(i) => 0x2000_0000 + ((i % 8192) as u32),
        Place::Prg(_) | Place::Chr(_) | Place::Nowhere => 0x3000_0000,
    }
}

// All but the ROMs is read where it is written.
#[tactic(auto, unfolding(crate::specs::Pages::place_read, crate::specs::Pages::place_written))]
fn place_read(cart: Cartridge, place: Place) -> u32
    ensures { result ≡ place_read cart place }
{
    match place {
        Place::Prg(i) => 16 + ((i % 0x1000_0000) as u32),
        Place::Chr(i) => 16 + cart.prg_total() + ((i % 0x1000_0000) as u32),
        Place::PrgRam(_) | Place::ChrRam(_) | Place::Nowhere => place_written(place),
    }
}

#[tactic(auto, unfolding(crate::specs::Pages::refused_page))]
fn refused_page(why: Refusal) -> u32
    ensures { result ≡ refused_page why }
{
    0x4000_0000 + u32::from(u8::from(why))
}

#[tactic(auto, unfolding(crate::specs::Pages::read_from))]
fn read_from(cart: Cartridge, landing: Landing) -> u32
    ensures { result ≡ read_from cart landing }
{
    landing.map_or_else(refused_page, |place| place_read(cart, place))
}

#[tactic(auto, unfolding(crate::specs::Pages::written_to))]
fn written_to(landing: Landing) -> u32
    ensures { result ≡ written_to landing }
{
    landing.map_or_else(refused_page, place_written)
}

#[tactic(auto, unfolding(crate::specs::Pages::has_registers, cartridge::specs::Mappers::is_mapper))]
fn has_registers(mapper: MapperType, page: u16) -> bool
    ensures { result ≡ has_registers mapper page }
{
    32 <= page && mapper != MapperType::Nrom
}

// `page < 64` is a clause and no type, since `fill` says by number which page a call was made for.
#[tactic(auto, unfolding(crate::specs::Pages::read_page))]
fn read_page(board: Board, page: u16) -> u32
    requires { page < 64 }
    ensures { result ≡ read_page board page }
{
    read_from(board.cart, board.read_landing(page * 1024))
}

#[tactic(auto, unfolding(crate::specs::Pages::write_page))]
fn write_page(board: Board, page: u16) -> u32
    requires { page < 64 }
    ensures { result ≡ write_page board page }
{
    if has_registers(board.cart.mapper, page) {
        0x5000_0000
    } else {
        written_to(board.write_landing(page * 1024))
    }
}

// As many pages as the lent numbers are, from a page on.
fn fill<F: Fn(u16) -> u32>(number: F, first: u16, pages: &mut [u32])
    requires room { first + length pages.old ≤ 64 }
    requires callable { (page : ℕ) → page < 64 → F.pre number page }
    ensures { EachIndex pages.new (λ k. F.post number (first + k) (slice_index pages.new k)) }
{
    for (i, page) in pages.iter_mut().enumerate() {
        *page = number(first + (i as u16));
    }
}

fn has_room(first: u8, n: usize) -> bool
    ensures { result ≡ leb (first + n) 64 }
{
    n <= 64 && usize::from(first) + n <= 64
}

// Of a board that has been judged: `fits` is whether it may be served.
#[tactic(auto, unfolding(crate::specs::Pages::is_told, crate::specs::Pages::told))]
pub fn pages_if(
    fits: bool,
    board: Board,
    first: u8,
    reads: &mut [u32],
    writes: &mut [u32],
) -> PagesAnswer
    ensures { PagesIf fits board first reads.old writes.old result reads.new writes.new }
{
    if fits && has_room(first, reads.len()) && has_room(first, writes.len()) {
        fill(|page| read_page(board, page), u16::from(first), reads);
        fill(|page| write_page(board, page), u16::from(first), writes);
        Ok(())
    } else {
        Err(Refusal::StateOutOfRange)
    }
}

// Where each page from `first` on is read from, and where a write to it goes.
pub fn pages(board: Board, first: u8, reads: &mut [u32], writes: &mut [u32]) -> PagesAnswer
    ensures { PagesOwes board first reads.old writes.old result reads.new writes.new }
{
    pages_if(board.in_range(), board, first, reads, writes)
}

#[tactic(auto, unfolding(crate::specs::Parts::same_chr1))]
fn same_chr_1(a: Regs, b: Regs) -> bool
    ensures { result ≡ same_chr1 a b }
{
    (a.chrmode, a.chr0, a.chr1) == (b.chrmode, b.chr0, b.chr1)
}

#[tactic(auto, unfolding(crate::specs::Parts::same_prg1))]
fn same_prg_1(a: Regs, b: Regs) -> bool
    ensures { result ≡ same_prg1 a b }
{
    (a.prgmode, a.prg) == (b.prgmode, b.prg)
}

// One by one, and of copies: with `a.regs[..6] == b.regs[..6]` a write to MMC3's registers takes a quarter longer (77 ns for 62)
// and misses its goal (docs/BENCHMARKS.md, c2), with `a.regs[0]` and so on a tenth.
#[tactic(auto, unfolding(crate::specs::Parts::same_chr3, mmc3::specs::Read::register))]
fn same_chr_3(a: Mmc3, b: Mmc3) -> bool
    ensures { result ≡ same_chr3 a b }
{
    let x = a.regs;
    let y = b.regs;
    (a.chrmode, x[0], x[1], x[2], x[3], x[4], x[5])
        == (b.chrmode, y[0], y[1], y[2], y[3], y[4], y[5])
}

#[tactic(auto, unfolding(crate::specs::Parts::same_prg3, mmc3::specs::Read::register))]
fn same_prg_3(a: Mmc3, b: Mmc3) -> bool
    ensures { result ≡ same_prg3 a b }
{
    (a.prgmode, a.regs[6], a.regs[7]) == (b.prgmode, b.regs[6], b.regs[7])
}

// All that 0000-1FFF hangs on beside the cartridge.
#[tactic(auto, unfolding(crate::specs::Parts::same_chr))]
fn same_chr(mapper: MapperType, a: Registers, b: Registers) -> bool
    ensures { result ≡ same_chr mapper a b }
{
    match mapper {
        MapperType::Nrom | MapperType::Uxrom => true,
        MapperType::Mmc1 => same_chr_1(a.mmc1.regs, b.mmc1.regs),
        MapperType::Cnrom => a.cnrom.bank == b.cnrom.bank,
        MapperType::Mmc3 => same_chr_3(a.mmc3, b.mmc3),
    }
}

// All that 8000-FFFF hangs on.
#[tactic(auto, unfolding(crate::specs::Parts::same_prg))]
fn same_prg(mapper: MapperType, a: Registers, b: Registers) -> bool
    ensures { result ≡ same_prg mapper a b }
{
    match mapper {
        MapperType::Nrom | MapperType::Cnrom => true,
        MapperType::Mmc1 => same_prg_1(a.mmc1.regs, b.mmc1.regs),
        MapperType::Uxrom => a.uxrom.bank == b.uxrom.bank,
        MapperType::Mmc3 => same_prg_3(a.mmc3, b.mmc3),
    }
}

// All that 6000-7FFF hangs on beside the cartridge.
#[tactic(auto, unfolding(crate::specs::Parts::same_ram, crate::specs::Parts::same_ram3, cartridge::specs::Mappers::is_mapper))]
fn same_ram(mapper: MapperType, a: Registers, b: Registers) -> bool
    ensures { result ≡ same_ram mapper a b }
{
    match mapper {
        MapperType::Mmc3 => a.mmc3.ram == b.mmc3.ram,
        MapperType::Nrom | MapperType::Mmc1 | MapperType::Uxrom | MapperType::Cnrom => true,
    }
}

// Which pages may show something else than before, where a call has left these registers.
#[tactic(auto, unfolding(crate::specs::Parts::parts_moved))]
pub fn moved(mapper: MapperType, before: Registers, after: Registers) -> Parts
    ensures { result ≡ parts_moved mapper before after }
{
    Parts {
        chr: !same_chr(mapper, before, after),
        prg: !same_prg(mapper, before, after),
        ram: !same_ram(mapper, before, after),
    }
}
