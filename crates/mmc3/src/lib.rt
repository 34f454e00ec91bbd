// MMC3: eight bank registers, a counter that asks for an interrupt, and board mode's line and locks of RAM. Ported from potatis
// nes/src/mappers/mmc3.rs.
#![tactic(auto)]

ghost use Rattle.std.specs.Prelude.{◌≡◌, ◌/◌};
ghost use Rattle.places.specs.Windows.{lands_in, board_chr};
ghost use Rattle.places.specs.Windows.Window.{Chr1K, Prg8K};
ghost use Rattle.mmc3.specs.Ram.{marks_after, ram_read, ram_written};
ghost use Rattle.mmc3.specs.Clock.{at, house_clock, next_counter, board_clock, clock_in, line_after, clock_answer, clocked, is_pending};
ghost use Rattle.mmc3.specs.Write.{move_of, data_bits, applied, screens, mirrors_of, written};
ghost use Rattle.mmc3.specs.Read.{choice_at, register, chr_bank, last_bank, last_but_one, prg_bank, read_window, acknowledged, write_window};
ghost use Rattle.mmc3.specs.Range.{start, irq_is_start, ram_is_start, is_start, line_fits, ram_fits, fits};

use Choice::{After, R};
use banks::{Bank1K, Bank8K};
use cartridge::Cartridge;
use common::{Mirroring, Mode, Outcome, Refusal};
use places::{Landing, Place};

// The interrupt unit.
#[derive(Clone, Copy, Debug, PartialEq, Eq)]
pub struct Irq {
    pub enabled: bool,
    pub latch: u8,
    pub counter: u8,
    pub reload: bool,
}

// What the real board lets a program do with PRG RAM. In house mode it is always enabled and writable.
#[derive(Clone, Copy, Debug, PartialEq, Eq)]
pub struct RamMarks {
    pub enabled: bool,
    // Writes are denied.
    pub denied: bool,
}

#[derive(Clone, Copy, Debug, PartialEq, Eq)]
pub struct Mmc3 {
    // The register that a data write goes to.
    pub select: u8,
    pub prgmode: u8,
    pub chrmode: u8,
    pub regs: [u8; 8],
    pub irq: Irq,
    // The real board's interrupt line, which its unit raises. In house mode it is always low.
    pub line: bool,
    pub ram: RamMarks,
}

// The unit after a clock, and whether it raises the line; in house mode, whether an interrupt comes.
pub type Clocked = Outcome<Irq, bool>;

// The board after a clock, and its answer.
pub type Ticked = Outcome<Mmc3, bool>;

// The board after a write, and what the write asks of the screens.
pub type Wrote = Outcome<Mmc3, Option<Mirroring>>;

// What a write does: the register that its address names, with the byte where it counts.
#[derive(Clone, Copy, Debug, PartialEq, Eq)]
pub enum Move {
    Nothing,
    Select(u8),
    Data(u8),
    Screens(u8),
    Protect(u8),
    Latch(u8),
    Reload,
    Enable,
    Disable,
}

impl Irq {
    const START: Irq = Irq {
        enabled: false,
        latch: 0,
        counter: 0,
        reload: false,
    };

    fn set_to(self, counter: u8, answer: bool) -> Clocked
        ensures { result ≡ at self counter answer }
    {
        Outcome {
            left: Irq {
                counter,
                reload: false,
                ..self
            },
            answer,
        }
    }

    // The Rust answers no at the clock that reloads by the mark, whatever the latch.
    #[tactic(auto, unfolding(crate::specs::Clock::house_clock))]
    pub fn house_clock(self) -> Clocked
        ensures { result ≡ house_clock self }
    {
        if self.reload {
            self.set_to(self.latch, false)
        } else if self.counter == 0 {
            self.set_to(self.latch, self.enabled)
        } else {
            self.set_to(self.counter - 1, false)
        }
    }

    #[tactic(auto, unfolding(crate::specs::Clock::next_counter))]
    fn next_counter(self) -> u8
        ensures { result ≡ next_counter self }
    {
        if self.reload | (self.counter == 0) {
            self.latch
        } else {
            self.counter - 1
        }
    }

    // The real unit looks at the counter after it has moved.
    #[tactic(auto, unfolding(crate::specs::Clock::board_clock))]
    pub fn board_clock(self) -> Clocked
        ensures { result ≡ board_clock self }
    {
        let next = self.next_counter();
        self.set_to(next, self.enabled & (next == 0))
    }

    #[tactic(auto, unfolding(crate::specs::Clock::clock_in))]
    pub fn clock(self, mode: Mode) -> Clocked
        ensures { result ≡ clock_in mode self }
    {
        match mode {
            Mode::House => self.house_clock(),
            Mode::Board => self.board_clock(),
        }
    }

    // The Rust panics at an acknowledging write while an interrupt is due.
    fn is_pending(self) -> bool
        ensures { result ≡ is_pending self }
    {
        self.enabled & (self.counter < 2)
    }

    #[tactic(auto, unfolding(crate::specs::Range::irq_is_start))]
    fn is_start(self) -> bool
        ensures { result ≡ irq_is_start self }
    {
        self == Irq::START
    }
}

// The real board's line stays up once it is raised; an even write to E000-FFFF lowers it.
#[tactic(auto, unfolding(crate::specs::Clock::line_after))]
fn line_after(mode: Mode, line: bool, raised: bool) -> bool
    ensures { result ≡ line_after mode line raised }
{
    match mode {
        Mode::House => line,
        Mode::Board => line | raised,
    }
}

// The Rust answers what the unit does at this clock, the real board the level of its line.
#[tactic(auto, unfolding(crate::specs::Clock::clock_answer))]
fn clock_answer(mode: Mode, level: bool, raised: bool) -> bool
    ensures { result ≡ clock_answer mode level raised }
{
    match mode {
        Mode::House => raised,
        Mode::Board => level,
    }
}

#[tactic(auto, unfolding(crate::specs::Range::line_fits))]
fn line_fits(mode: Mode, line: bool) -> bool
    ensures { result ≡ line_fits mode line }
{
    match mode {
        Mode::House => !line,
        Mode::Board => true,
    }
}

impl RamMarks {
    const START: RamMarks = RamMarks {
        enabled: true,
        denied: false,
    };

    #[tactic(auto, unfolding(crate::specs::Range::ram_is_start))]
    fn is_start(self) -> bool
        ensures { result ≡ ram_is_start self }
    {
        self == RamMarks::START
    }

    #[tactic(auto, unfolding(crate::specs::Range::ram_fits))]
    fn fits(self, mode: Mode) -> bool
        ensures { result ≡ ram_fits mode self }
    {
        match mode {
            Mode::House => self.is_start(),
            Mode::Board => true,
        }
    }

    // The Rust leaves protection out.
    #[tactic(auto, unfolding(crate::specs::Ram::marks_after))]
    fn after(self, mode: Mode, value: u8) -> RamMarks
        ensures { result ≡ marks_after mode self value }
    {
        match mode {
            Mode::House => self,
            Mode::Board => RamMarks {
                enabled: value / 128 % 2 == 1,
                denied: value / 64 % 2 == 1,
            },
        }
    }

    #[tactic(auto, unfolding(crate::specs::Ram::ram_read, places::specs::Windows::lands_in))]
    fn read_landing(self, cart: Cartridge, address: u16) -> Landing
        ensures { result ≡ lands_in cart (ram_read self cart) address }
    {
        if self.enabled {
            places::if_prg_ram(cart, address)
        } else {
            Ok(Place::Nowhere)
        }
    }

    #[tactic(auto, unfolding(crate::specs::Ram::ram_written, places::specs::Windows::lands_in))]
    fn write_landing(self, cart: Cartridge, address: u16) -> Landing
        ensures { result ≡ lands_in cart (ram_written self cart) address }
    {
        if self.enabled & !self.denied {
            places::if_prg_ram(cart, address)
        } else {
            Ok(Place::Nowhere)
        }
    }
}

// What a slot of 1 KB of CHR shows: the bank in register Rn, or the one after it.
#[derive(Clone, Copy, Debug, PartialEq, Eq)]
pub enum Choice {
    R(u8),
    After(u8),
}

// A row for each CHR mode, an entry for each slot.
const CHOICES: [[Choice; 8]; 2] = [
    [R(0), After(0), R(1), After(1), R(2), R(3), R(4), R(5)],
    [R(2), R(3), R(4), R(5), R(0), After(0), R(1), After(1)],
];

#[tactic(auto, unfolding(crate::specs::Read::choice_at))]
fn choice_at(mode: u8, slot: u16) -> Choice
    ensures { result ≡ choice_at mode slot }
{
    match CHOICES.get(mode as usize) {
        Some(row) => row.get(slot as usize).copied().unwrap_or(R(0)),
        None => R(0),
    }
}

// What register a data write fills decides which of its bits are kept.
#[tactic(auto, unfolding(crate::specs::Write::data_bits))]
fn data_bits(select: u8, value: u8) -> u8
    ensures { result ≡ data_bits select value }
{
    if select < 2 {
        value / 2 * 2
    } else if 6 <= select {
        value % 64
    } else {
        value
    }
}

// The last 8 KB bank, and the one before it; 0 where there is none.
#[tactic(auto, unfolding(crate::specs::Read::last_bank))]
fn last_bank(cart: Cartridge) -> Bank8K
    ensures { result.0 ≡ last_bank cart }
{
    Bank8K::new(((cart.prg as u32) * 2).saturating_sub(1))
}

#[tactic(auto, unfolding(crate::specs::Read::last_but_one))]
fn last_but_one(cart: Cartridge) -> Bank8K
    ensures { result.0 ≡ last_but_one cart }
{
    Bank8K::new(((cart.prg as u32) * 2).saturating_sub(2))
}

#[tactic(auto, unfolding(crate::specs::Write::screens))]
fn screens(value: u8) -> Mirroring
    ensures { result ≡ screens value }
{
    if value % 2 == 1 {
        Mirroring::Horizontal
    } else {
        Mirroring::Vertical
    }
}

#[tactic(auto, unfolding(crate::specs::Write::move_of))]
pub fn move_of(value: u8, address: u16) -> Move
    ensures { result ≡ move_of value address }
{
    let even = address % 2 == 0;
    match address {
        0x8000..=0x9fff => if even {
            Move::Select(value)
        } else {
            Move::Data(value)
        },
        0xa000..=0xbfff => if even {
            Move::Screens(value)
        } else {
            Move::Protect(value)
        },
        0xc000..=0xdfff => if even {
            Move::Latch(value)
        } else {
            Move::Reload
        },
        0xe000..=0xffff => if even { Move::Disable } else { Move::Enable },
        _ => Move::Nothing,
    }
}

impl Move {
    #[tactic(auto, unfolding(crate::specs::Write::applied, crate::specs::Clock::with_irq))]
    pub fn applied(self, mode: Mode, mut mmc3: Mmc3) -> Mmc3
        ensures { result ≡ applied mode self mmc3 }
    {
        match self {
            Move::Nothing => mmc3,
            Move::Select(value) => mmc3.bank_select(value),
            Move::Data(value) => mmc3.bank_data(value),
            Move::Screens(_) => mmc3,
            Move::Protect(value) => mmc3.protect(mode, value),
            Move::Latch(value) => {
                mmc3.irq.latch = value;
                mmc3
            }
            Move::Reload => {
                mmc3.irq.reload = true;
                mmc3
            }
            Move::Enable => {
                mmc3.irq.enabled = true;
                mmc3
            }
            Move::Disable => mmc3.disable(),
        }
    }

    // What it asks of the screens.
    #[tactic(auto, unfolding(crate::specs::Write::mirrors_of))]
    pub fn mirrors(self) -> Option<Mirroring>
        ensures { result ≡ mirrors_of self }
    {
        match self {
            Move::Screens(value) => Some(screens(value)),
            _ => None,
        }
    }
}

impl Mmc3 {
    #[tactic(auto, unfolding(crate::specs::Range::start))]
    pub fn new() -> Self
        ensures { result ≡ start }
    {
        Mmc3 {
            select: 0,
            prgmode: 0,
            chrmode: 0,
            regs: [0; 8],
            irq: Irq::START,
            line: false,
            ram: RamMarks::START,
        }
    }

    #[tactic(auto, unfolding(crate::specs::Range::is_start, crate::specs::Read::register))]
    pub fn is_start(self) -> bool
        ensures { result ≡ is_start self }
    {
        self == Mmc3::new()
    }

    #[tactic(auto, unfolding(crate::specs::Range::fits, crate::specs::Read::register))]
    pub fn fits(self, mode: Mode) -> bool
        ensures { result ≡ fits mode self }
    {
        let r = self.regs;
        let modes = (self.select < 8) & (self.prgmode < 2) & (self.chrmode < 2);
        let banks = (r[0] % 2 == 0) & (r[1] % 2 == 0) & (r[6] < 64) & (r[7] < 64);
        modes & banks & line_fits(mode, self.line) & self.ram.fits(mode)
    }

    #[tactic(auto, unfolding(crate::specs::Read::register))]
    fn register(self, k: u8) -> u8
        ensures { result ≡ register self k }
    {
        let regs = self.regs;
        regs.get(k as usize).copied().unwrap_or(0)
    }

    // A number counted in 1 KB banks. The register is read once: read in each arm, a map of eight pages took a quarter longer.
    #[tactic(auto, unfolding(crate::specs::Read::chr_bank, crate::specs::Read::chosen))]
    fn chr_bank(self, slot: u16) -> Bank1K
        ensures { result.0 ≡ chr_bank self slot }
    {
        let (n, further) = match choice_at(self.chrmode, slot) {
            R(n) => (n, 0),
            After(n) => (n, 1),
        };
        Bank1K::new((self.register(n) as u32) + further)
    }

    // A number counted in 8 KB banks.
    #[tactic(auto, unfolding(crate::specs::Read::prg_bank, crate::specs::Read::register))]
    fn prg_bank(self, cart: Cartridge, address: u16) -> Bank8K
        ensures { result.0 ≡ prg_bank self cart address }
    {
        match address {
            0x0000..=0x9fff => {
                if self.prgmode == 0 {
                    Bank8K::new(self.regs[6] as u32)
                } else {
                    last_but_one(cart)
                }
            }
            0xa000..=0xbfff => Bank8K::new(self.regs[7] as u32),
            0xc000..=0xdfff => {
                if self.prgmode == 0 {
                    last_but_one(cart)
                } else {
                    Bank8K::new(self.regs[6] as u32)
                }
            }
            _ => last_bank(cart),
        }
    }

    #[tactic(auto, unfolding(places::specs::Windows::lands_in))]
    fn read_chr(self, cart: Cartridge, address: u16) -> Landing
        ensures { result ≡ lands_in cart (Chr1K (chr_bank self (address / 1024))) address }
    {
        places::chr_bank(cart, self.chr_bank(address / 1024), address)
    }

    #[tactic(auto, unfolding(places::specs::Windows::lands_in))]
    fn read_prg(self, cart: Cartridge, address: u16) -> Landing
        ensures { result ≡ lands_in cart (Prg8K (prg_bank self cart address)) address }
    {
        places::prg_bank(cart, self.prg_bank(cart, address), address)
    }

    #[tactic(auto, unfolding(places::specs::Windows::lands_in, crate::specs::Read::read_window, places::specs::Windows::in_windows))]
    pub fn read_landing(self, cart: Cartridge, address: u16) -> Landing
        ensures { result ≡ lands_in cart (read_window self cart address) address }
    {
        match address {
            0x0000..=0x1fff => self.read_chr(cart, address),
            0x6000..=0x7fff => self.ram.read_landing(cart, address),
            0x8000..=0xffff => self.read_prg(cart, address),
            _ => Ok(Place::Nowhere),
        }
    }

    // The Rust panics at an acknowledging write while an interrupt is due; else no byte lands.
    #[tactic(auto, unfolding(places::specs::Windows::lands_in, crate::specs::Read::acknowledged))]
    fn acknowledged(self, cart: Cartridge, address: u16) -> Landing
        ensures { result ≡ lands_in cart (acknowledged self address) address }
    {
        let pending = self.irq.is_pending() & (0xe000 <= address) & (address % 2 == 0);
        if pending {
            Err(Refusal::IrqPending)
        } else {
            Ok(Place::Nowhere)
        }
    }

    fn board_write_chr(self, cart: Cartridge, address: u16) -> Landing
        ensures { result ≡ lands_in cart (board_chr cart (Chr1K (chr_bank self (address / 1024)))) address }
    {
        places::if_chr_ram(cart, self.read_chr(cart, address))
    }

    // At 8000-FFFF no byte is stored: the registers are there.
    #[tactic(auto, unfolding(places::specs::Windows::lands_in, crate::specs::Read::write_window_in, crate::specs::Read::ppu_write_in, crate::specs::Read::rom_write_in, places::specs::Windows::in_windows))]
    pub fn write_landing(self, cart: Cartridge, address: u16) -> Landing
        ensures { result ≡ lands_in cart (write_window self cart address) address }
    {
        match address {
            0x0000..=0x1fff => match cart.mode {
                Mode::House => Ok(Place::Nowhere),
                Mode::Board => self.board_write_chr(cart, address),
            },
            0x6000..=0x7fff => self.ram.write_landing(cart, address),
            0x8000..=0xffff => match cart.mode {
                Mode::House => self.acknowledged(cart, address),
                Mode::Board => Ok(Place::Nowhere),
            },
            _ => Ok(Place::Nowhere),
        }
    }

    #[tactic(auto, unfolding(crate::specs::Write::applied))]
    fn bank_select(self, value: u8) -> Mmc3
        ensures { (m : Mode) → result ≡ applied m (Move.Select value) self }
    {
        Mmc3 {
            select: value % 8,
            prgmode: value / 64 % 2,
            chrmode: value / 128 % 2,
            ..self
        }
    }

    #[tactic(auto, unfolding(crate::specs::Write::applied))]
    fn bank_data(mut self, value: u8) -> Mmc3
        ensures { (m : Mode) → result ≡ applied m (Move.Data value) self }
    {
        let kept = data_bits(self.select, value);
        let i = self.select as usize;
        if i < 8 {
            self.regs[i] = kept;
        }
        self
    }

    #[tactic(auto, unfolding(crate::specs::Write::applied))]
    fn protect(self, mode: Mode, value: u8) -> Mmc3
        ensures { result ≡ applied mode (Move.Protect value) self }
    {
        Mmc3 {
            ram: self.ram.after(mode, value),
            ..self
        }
    }

    // It also acknowledges: the line goes low.
    #[tactic(auto, unfolding(crate::specs::Write::applied, crate::specs::Clock::with_irq))]
    fn disable(mut self) -> Mmc3
        ensures { (m : Mode) → result ≡ applied m Move.Disable self }
    {
        self.irq.enabled = false;
        self.line = false;
        self
    }

    #[tactic(auto, unfolding(crate::specs::Write::written))]
    pub fn write8(self, mode: Mode, value: u8, address: u16) -> Wrote
        ensures { result ≡ written mode self value address }
    {
        let made = move_of(value, address);
        Outcome {
            left: made.applied(mode, self),
            answer: made.mirrors(),
        }
    }

    #[tactic(auto, unfolding(crate::specs::Clock::clocked, crate::specs::Clock::with_irq))]
    pub fn clock(mut self, mode: Mode) -> Ticked
        ensures { result ≡ clocked mode self }
    {
        let unit = self.irq.clock(mode);
        self.irq = unit.left;
        self.line = line_after(mode, self.line, unit.answer);
        Outcome {
            left: self,
            answer: clock_answer(mode, self.line, unit.answer),
        }
    }
}
