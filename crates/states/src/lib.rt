// A board as five words of 64 bits, each a row of digits: docs/ABI.md, "The state". No other crate knows
// the layout: the sizes of the digits stand below, as in specs/, and what a digit says in the functions.
#![tactic(auto)]

ghost use Rattle.std.specs.Prelude.{◌≡◌, ◌++◌};
ghost use Rattle.rules.specs.Rows.{bytes};
ghost use Rattle.rules.specs.Flat.{flat_digits};
ghost use Rattle.states.specs.Words.{mirroring_of, mirroring_digit, cart_sizes, banks_sizes, irq_sizes, cart_word, banks_word, irq_word, words_of, mapper_of, mode_in, cart_of, screens_of, uxrom_of, cnrom_of, mmc1_of, mmc3_of, registers_of, board_in, digits_of};
ghost use Rattle.states.specs.Kept.{is_kept};
ghost use Rattle.states.specs.Steps.{cart_is_kept, is_ines_word, mode_is_kept, mmc1_is_kept, banks_are_kept, mmc3_fits, mmc3_is_kept, after_clock, with_screens, after_write};

mod rows;

use boards::{Board, Registers};
use cartridge::{Cartridge, MapperType};
use cnrom::Cnrom;
use common::{Mirroring, Mode};
use mmc1::{Mmc1, Regs, Serial};
use mmc3::{Irq, Mmc3, RamMarks};
use rows::{digits, word};
use uxrom::Uxrom;

// The sizes of the digits of three words, the first one lowest. Of the other two, one is the image's length, and
// one has eight bytes.
const CART: [u64; 9] = [0x100, 0x100, 2, 2, 4, 4, 4, 0x1000, 0x1000];

const BANKS: [u64; 12] = [0x100, 4, 8, 4, 4, 8, 32, 4, 2, 32, 32, 16];

const IRQ: [u64; 10] = [0x100, 0x100, 8, 2, 2, 2, 2, 2, 2, 2];

#[derive(Clone, Copy, Debug, Default, PartialEq, Eq)]
pub struct Words {
    pub cart: u64,
    pub length: u64,
    pub banks: u64,
    pub regs: u64,
    pub irq: u64,
}

// Functions, since neither type of these conversions is this crate's.
#[tactic(auto, unfolding(crate::specs::Words::mirroring_of))]
fn mirroring_of(digit: u64) -> Mirroring
    ensures { result ≡ mirroring_of digit }
{
    match digit {
        0 => Mirroring::Horizontal,
        1 => Mirroring::Vertical,
        2 => Mirroring::SingleScreenUpper,
        _ => Mirroring::SingleScreenLower,
    }
}

fn mirroring_digit(mirroring: Mirroring) -> u64
    ensures { result ≡ mirroring_digit mirroring }
{
    mirroring as u64
}

// Version 1 of the layout.
fn cart_word(cart: Cartridge, screens: Mirroring) -> u64
    ensures { result ≡ cart_word cart screens }
{
    let row = [
        1,
        u8::from(cart.mapper) as u64,
        u8::from(cart.mode) as u64,
        cart.nes2 as u64,
        mirroring_digit(cart.mirroring),
        mirroring_digit(screens),
        cart.prgram as u64,
        cart.prg as u64,
        cart.chr as u64,
    ];
    word(CART, row)
}

fn banks_word(uxrom: Uxrom, cnrom: Cnrom, mmc1: Mmc1) -> u64
    ensures { result ≡ banks_word uxrom cnrom mmc1 }
{
    let row = [
        uxrom.bank as u64,
        cnrom.bank as u64,
        0,
        0,
        0,
        mmc1.serial.count as u64,
        mmc1.serial.value as u64,
        mmc1.regs.prgmode as u64,
        mmc1.regs.chrmode as u64,
        mmc1.regs.chr0 as u64,
        mmc1.regs.chr1 as u64,
        mmc1.regs.prg as u64,
    ];
    word(BANKS, row)
}

fn irq_word(mmc3: Mmc3) -> u64
    ensures { result ≡ irq_word mmc3 }
{
    let row = [
        mmc3.irq.latch as u64,
        mmc3.irq.counter as u64,
        mmc3.select as u64,
        mmc3.prgmode as u64,
        mmc3.chrmode as u64,
        mmc3.irq.enabled as u64,
        mmc3.irq.reload as u64,
        mmc3.line as u64,
        mmc3.ram.enabled as u64,
        mmc3.ram.denied as u64,
    ];
    word(IRQ, row)
}

impl From<Board> for Words {
    ghost from_gives = { λ board words. words ≡ words_of board };

    #[tactic(auto, unfolding(crate::specs::Words::words_of))]
    fn from(board: Board) -> Words {
        let registers = board.registers;
        Words {
            cart: cart_word(board.cart, board.mirroring),
            length: board.cart.length as u64,
            banks: banks_word(registers.uxrom, registers.cnrom, registers.mmc1),
            regs: u64::from_le_bytes(registers.mmc3.regs),
            irq: irq_word(registers.mmc3),
        }
    }
}

// The board that the digits of any words give.
impl From<Words> for Board {
    ghost from_gives = { λ words board. board ≡ board_in words };

    #[tactic(auto, unfolding(crate::specs::Words::board_in))]
    fn from(words: Words) -> Board {
        Board {
            cart: words.cartridge(),
            mirroring: words.screens(),
            registers: words.registers(),
        }
    }
}

// The first word with another current mirroring. By its place, since all that stands above and below stays as it is.
fn with_screens(c: u64, screens: Mirroring) -> u64
    ensures { result ≡ with_screens c screens }
{
    c / 0x40_0000 * 0x40_0000 + mirroring_digit(screens) * 0x10_0000 + c % 0x10_0000
}

impl Words {
    // After a write, which moves the current mirroring and the registers of its own board.
    #[tactic(auto, unfolding(crate::specs::Steps::after_write, cartridge::specs::Mappers::is_mapper))]
    pub fn after_write(self, mapper: MapperType, next: Board) -> Words
        ensures { result ≡ after_write mapper self next }
    {
        let cart = with_screens(self.cart, next.mirroring);
        let registers = next.registers;
        match mapper {
            MapperType::Mmc3 => Words {
                cart,
                regs: u64::from_le_bytes(registers.mmc3.regs),
                irq: irq_word(registers.mmc3),
                ..self
            },
            _ => Words {
                cart,
                banks: banks_word(registers.uxrom, registers.cnrom, registers.mmc1),
                ..self
            },
        }
    }

    // After a clock, which moves nothing but the last.
    pub fn after_clock(self, next: Board) -> Words
        ensures { result ≡ after_clock self next }
    {
        Words {
            irq: irq_word(next.registers.mmc3),
            ..self
        }
    }

    pub fn mapper(self) -> MapperType
        ensures { result ≡ mapper_of (flat_digits cart_sizes self.cart) }
    {
        let [_, mapper, ..] = digits(CART, self.cart);
        MapperType::from(mapper as u16)
    }

    fn mode(self) -> Mode
        ensures { result ≡ mode_in (flat_digits cart_sizes self.cart) }
    {
        let [_, _, mode, ..] = digits(CART, self.cart);
        Mode::from(mode as u8)
    }

    pub fn cartridge(self) -> Cartridge
        ensures { result ≡ cart_of (flat_digits cart_sizes self.cart) self.length }
    {
        let [_, _, _, nes2, header, _, prgram, prg, chr] = digits(CART, self.cart);
        Cartridge {
            mode: self.mode(),
            mapper: self.mapper(),
            nes2: nes2 == 1,
            mirroring: mirroring_of(header),
            prgram: prgram == 1,
            prg: prg as u16,
            chr: chr as u16,
            length: self.length as usize,
        }
    }

    // The current mirroring.
    fn screens(self) -> Mirroring
        ensures { result ≡ screens_of (flat_digits cart_sizes self.cart) }
    {
        let [_, _, _, _, _, screens, ..] = digits(CART, self.cart);
        mirroring_of(screens)
    }

    pub fn uxrom(self) -> Uxrom
        ensures { result ≡ uxrom_of (flat_digits banks_sizes self.banks) }
    {
        let [bank, ..] = digits(BANKS, self.banks);
        Uxrom { bank: bank as u8 }
    }

    pub fn cnrom(self) -> Cnrom
        ensures { result ≡ cnrom_of (flat_digits banks_sizes self.banks) }
    {
        let [_, bank, ..] = digits(BANKS, self.banks);
        Cnrom { bank: bank as u8 }
    }

    pub fn mmc1(self) -> Mmc1
        ensures { result ≡ mmc1_of (flat_digits banks_sizes self.banks) }
    {
        let [.., count, value, prgmode, chrmode, chr0, chr1, prg] = digits(BANKS, self.banks);
        Mmc1 {
            serial: Serial {
                count: count as u8,
                value: value as u8,
            },
            regs: Regs {
                prgmode: prgmode as u8,
                chrmode: chrmode as u8,
                chr0: chr0 as u8,
                chr1: chr1 as u8,
                prg: prg as u8,
            },
        }
    }

    pub fn mmc3(self) -> Mmc3
        ensures { result ≡ mmc3_of (flat_digits bytes self.regs) (flat_digits irq_sizes self.irq) }
    {
        let [
            latch,
            counter,
            select,
            prgmode,
            chrmode,
            enabled,
            reload,
            line,
            ram,
            denied,
        ] = digits(IRQ, self.irq);
        Mmc3 {
            select: select as u8,
            prgmode: prgmode as u8,
            chrmode: chrmode as u8,
            regs: self.regs.to_le_bytes(),
            irq: Irq {
                enabled: enabled == 1,
                latch: latch as u8,
                counter: counter as u8,
                reload: reload == 1,
            },
            line: line == 1,
            ram: RamMarks {
                enabled: ram == 1,
                denied: denied == 1,
            },
        }
    }

    fn registers(self) -> Registers
        ensures { result ≡ registers_of (flat_digits banks_sizes self.banks) (flat_digits bytes self.regs) (flat_digits irq_sizes self.irq) }
    {
        Registers {
            uxrom: self.uxrom(),
            cnrom: self.cnrom(),
            mmc1: self.mmc1(),
            mmc3: self.mmc3(),
        }
    }

    // Whether the words are a board's, in four parts by the mapper that they name. In line in every call, which the
    // compiler does only where it is told: apart a clock took 25 instructions more of 150, and a write 29 of 500.
    #[inline(always)]
    #[tactic(auto, using(crate::proofs::Judged::in_parts_lem))]
    pub fn are_kept(self) -> bool
        ensures { result ≡ is_kept self }
    {
        let mapper = self.mapper();
        self.cart_is_kept(mapper)
            & self.mode_is_kept(mapper)
            & self.banks_are_kept(mapper)
            & self.mmc3_is_kept(mapper)
    }

    // Of the first word those tests that ask for one value stand first: with the mapper known they are one mask.
    #[tactic(auto, unfolding(crate::specs::Steps::cart_is_kept, cartridge::specs::Load::bad_prg))]
    pub fn cart_is_kept(self, mapper: MapperType) -> bool
        ensures { result ≡ cart_is_kept mapper self.cart self.length }
    {
        let [version, named, _, _, header, _, prgram, prg, chr] = digits(CART, self.cart);
        let number = u8::from(mapper) as u64;
        (version == 1)
            & (named == number)
            & (prgram < 2)
            & (self.cart < 0x1_0000_0000_0000)
            & (header < 2)
            & !((prg == 0) | (((number == 0) | (number == 3)) & (2 < prg)))
            & (16 + prg * 16384 + chr * 8192 <= self.length)
    }

    // What an iNES header says of PRG RAM and the counts. By their places, so that the compiler makes one mask of the
    // tests: by `digits` a write took 8 instructions more, and a clock 7 of 160.
    #[tactic(auto, unfolding(crate::specs::Steps::is_ines_word))]
    fn is_ines_word(self) -> bool
        ensures { result ≡ is_ines_word self.cart }
    {
        let c = self.cart;
        (c / 0x40_0000 % 4 == 1)
            & (c / 0x100_0000 % 0x1000 < 256)
            & (c / 0x10_0000_0000 % 0x1000 < 256)
    }

    // What the mode asks of the first word. Two mirrorings are one where their digits are. The counts have a
    // branch of their own: joined with the test of the mirroring they took many more instructions.
    #[tactic(auto, unfolding(crate::specs::Steps::mode_is_kept))]
    pub fn mode_is_kept(self, mapper: MapperType) -> bool
        ensures { result ≡ mode_is_kept mapper self.cart }
    {
        let [_, _, mode, nes2, header, screens, _, prg, chr] = digits(CART, self.cart);
        let same = screens == header;
        let ines = self.is_ines_word();
        if mode == 0 {
            ines & same
        } else if cartridge::no_powers(Mode::Board, prg, chr) {
            false
        } else {
            ((nes2 == 1) | ines) & boards::turned_fit(mapper, same, screens < 2)
        }
    }

    #[tactic(auto, unfolding(crate::specs::Steps::banks_are_kept))]
    pub fn banks_are_kept(self, mapper: MapperType) -> bool
        ensures { result ≡ banks_are_kept mapper self.banks }
    {
        match mapper {
            MapperType::Nrom | MapperType::Mmc3 => self.banks == 0,
            MapperType::Mmc1 => self.mmc1_is_kept(),
            MapperType::Uxrom => {
                banks_word(self.uxrom(), Cnrom::new(), Mmc1::unused()) == self.banks
            }
            MapperType::Cnrom => {
                banks_word(Uxrom::new(), self.cnrom(), Mmc1::unused()) == self.banks
            }
        }
    }

    #[tactic(auto, unfolding(crate::specs::Steps::mmc1_is_kept))]
    fn mmc1_is_kept(self) -> bool
        ensures { result ≡ mmc1_is_kept self.banks }
    {
        let mmc1 = self.mmc1();
        mmc1.fits() & (banks_word(Uxrom::new(), Cnrom::new(), mmc1) == self.banks)
    }

    // In house mode the line is low: the first word says the mode.
    #[tactic(auto, unfolding(crate::specs::Steps::mmc3_is_kept, cartridge::specs::Mappers::is_mapper))]
    pub fn mmc3_is_kept(self, mapper: MapperType) -> bool
        ensures { result ≡ mmc3_is_kept mapper self.cart self.regs self.irq }
    {
        match mapper {
            MapperType::Mmc3 => self.mmc3_fits(),
            _ => (self.regs == 0) & (self.irq == 0x100_0000),
        }
    }

    #[tactic(auto, unfolding(crate::specs::Steps::mmc3_fits))]
    fn mmc3_fits(self) -> bool
        ensures { result ≡ mmc3_fits (mode_in (flat_digits cart_sizes self.cart)) (mmc3_of (flat_digits bytes self.regs) (flat_digits irq_sizes self.irq)) self.regs self.irq }
    {
        let mmc3 = self.mmc3();
        mmc3.fits(self.mode())
            & (u64::from_le_bytes(mmc3.regs) == self.regs)
            & (irq_word(mmc3) == self.irq)
    }

    // The digits of all five words, in the order of docs/ABI.md.
    pub fn digits(self) -> [u64; 40]
        ensures { result ≡ digits_of self }
    {
        let mut all = [0; 40];
        all[..9].copy_from_slice(&digits(CART, self.cart));
        all[9] = self.length;
        all[10..22].copy_from_slice(&digits(BANKS, self.banks));
        all[22..30].copy_from_slice(&digits([0x100; 8], self.regs));
        all[30..].copy_from_slice(&digits(IRQ, self.irq));
        all
    }
}
