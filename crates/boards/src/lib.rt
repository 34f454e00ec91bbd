// The board of any of the five mappers, and its public calls: load, read, write, clock, and play, which is any of the last three.
// Ported from potatis nes/src/mappers/mod.rs, which chooses the board.
#![tactic(auto)]

ghost use Rattle.std.specs.Prelude.{◌≡◌};
ghost use Rattle.places.specs.Places.{byte_at};
ghost use Rattle.boards.specs.Registers.{mmc1_start, start, part_fits, fits, moved, ticked};
ghost use Rattle.boards.specs.Start.{start_of, no_board, LoadOwes};
ghost use Rattle.boards.specs.Range.{in_range, is_loaded, guarded};
ghost use Rattle.boards.specs.Steps.{turned_fit, screens_by, screens_tested};
ghost use Rattle.boards.specs.Read.{read_landing, read_if, read};
ghost use Rattle.boards.specs.Write.{write_landing, against, next_mirroring, notice, turned, accepted_write, written_as, WritesIf, WriteOwes};
ghost use Rattle.boards.specs.Clock.{accepted_clock, clock_if, clock};
ghost use Rattle.boards.specs.Runs.{lent, moment, PlayOwes};

use cartridge::{Cartridge, MapperType};
use cnrom::Cnrom;
use common::{Mirroring, Mode, Outcome, Refusal};
use mmc1::Mmc1;
use mmc3::Mmc3;
use places::{Landing, Lent, ReadAnswer};
use uxrom::Uxrom;

// One record serves all boards, with a part for each: a part that the board doesn't use holds its start value.
#[derive(Clone, Copy, Debug, PartialEq, Eq)]
pub struct Registers {
    pub uxrom: Uxrom,
    pub cnrom: Cnrom,
    pub mmc1: Mmc1,
    pub mmc3: Mmc3,
}

// What a write leaves of the registers, and what it asks of the screens.
pub type Moved = Outcome<Registers, Option<Mirroring>>;

// What a clock leaves of them, and whether its answer is yes.
pub type Ticked = Outcome<Registers, bool>;

#[derive(Clone, Copy, Debug, PartialEq, Eq)]
pub struct Board {
    pub cart: Cartridge,
    // The current one. In house mode it stays the header's.
    pub mirroring: Mirroring,
    pub registers: Registers,
}

// A write is quiet, or gives notice of the screens.
pub type WriteAnswer = Result<Option<Mirroring>, Refusal>;

pub type ClockAnswer = Result<bool, Refusal>;

// The next board with the answer.
pub type Written = Outcome<Board, WriteAnswer>;

pub type Clocked = Outcome<Board, ClockAnswer>;

pub type Played = Outcome<Board, Answer>;

// The three calls of a loaded board as one type, and their answers.
#[derive(Clone, Copy, Debug, PartialEq, Eq)]
pub enum Event {
    Read(u16),
    Write(u16, u8),
    Clock,
}

#[derive(Clone, Copy, Debug, PartialEq, Eq)]
pub enum Answer {
    Read(ReadAnswer),
    Write(WriteAnswer),
    Clock(ClockAnswer),
}

#[tactic(auto, unfolding(crate::specs::Registers::mmc1_start, cartridge::specs::Mappers::is_mapper))]
fn mmc1_start(mapper: MapperType) -> Mmc1
    ensures { result ≡ mmc1_start mapper }
{
    match mapper {
        MapperType::Mmc1 => Mmc1::new(),
        _ => Mmc1::unused(),
    }
}

#[tactic(auto, using(cartridge::proofs::Mappers::by_equality), unfolding(crate::specs::Registers::part_fits))]
fn part_fits(mapper: MapperType, owner: MapperType, in_range: bool, at_start: bool) -> bool
    ensures { result ≡ part_fits mapper owner in_range at_start }
{
    if mapper == owner { in_range } else { at_start }
}

impl Registers {
    #[tactic(auto, unfolding(crate::specs::Registers::start))]
    pub fn new(mapper: MapperType) -> Self
        ensures { result ≡ start mapper }
    {
        Registers {
            uxrom: Uxrom::new(),
            cnrom: Cnrom::new(),
            mmc1: mmc1_start(mapper),
            mmc3: Mmc3::new(),
        }
    }

    // Each part is in its range where it is this board's, else at its start.
    #[tactic(auto, unfolding(crate::specs::Registers::fits))]
    pub fn fits(self, mapper: MapperType, mode: Mode) -> bool
        ensures { result ≡ fits mapper mode self }
    {
        part_fits(mapper, MapperType::Uxrom, true, self.uxrom.is_start())
            & part_fits(
                mapper,
                MapperType::Cnrom,
                self.cnrom.fits(),
                self.cnrom.is_start(),
            )
            & part_fits(
                mapper,
                MapperType::Mmc1,
                self.mmc1.fits(),
                self.mmc1.is_unused(),
            )
            & part_fits(
                mapper,
                MapperType::Mmc3,
                self.mmc3.fits(mode),
                self.mmc3.is_start(),
            )
    }

    #[tactic(auto, unfolding(crate::specs::Registers::moved))]
    pub fn moved(mut self, mapper: MapperType, mode: Mode, value: u8, address: u16) -> Moved
        ensures { result ≡ moved mapper mode self value address }
    {
        let mut mirrors = None;
        match mapper {
            MapperType::Nrom => {}
            MapperType::Mmc1 => {
                let wrote = self.mmc1.write8(mode, value, address);
                self.mmc1 = wrote.left;
                mirrors = wrote.answer;
            }
            MapperType::Uxrom => self.uxrom = self.uxrom.write8(value, address),
            MapperType::Cnrom => self.cnrom = self.cnrom.write8(value, address),
            MapperType::Mmc3 => {
                let wrote = self.mmc3.write8(mode, value, address);
                self.mmc3 = wrote.left;
                mirrors = wrote.answer;
            }
        }
        Outcome {
            left: self,
            answer: mirrors,
        }
    }

    #[tactic(auto, unfolding(crate::specs::Registers::ticked, cartridge::specs::Mappers::is_mapper))]
    pub fn ticked(mut self, mapper: MapperType, mode: Mode) -> Ticked
        ensures { result ≡ ticked mapper mode self }
    {
        let mut yes = false;
        if let MapperType::Mmc3 = mapper {
            let clocked = self.mmc3.clock(mode);
            self.mmc3 = clocked.left;
            yes = clocked.answer;
        }
        Outcome {
            left: self,
            answer: yes,
        }
    }
}

// The board that an accepted cartridge starts with.
#[tactic(auto, unfolding(crate::specs::Start::start_of))]
fn for_cart(cart: Cartridge) -> Board
    ensures { result ≡ start_of cart }
{
    Board {
        cart,
        mirroring: cart.mirroring,
        registers: Registers::new(cart.mapper),
    }
}

// What a caller may hold after a refused load. Every call refuses it.
#[tactic(auto, unfolding(crate::specs::Start::no_board))]
pub fn no_board() -> Board
    ensures { result ≡ no_board }
{
    for_cart(Cartridge {
        mode: Mode::House,
        mapper: MapperType::Nrom,
        nes2: false,
        mirroring: Mirroring::Horizontal,
        prgram: true,
        prg: 0,
        chr: 0,
        length: 0,
    })
}

#[tactic(auto, unfolding(crate::specs::Start::loaded_board))]
pub fn load(image: &[u8], mode: Mode, prg: &mut [u8], chr: &mut [u8]) -> Result<Board, Refusal>
    ensures { LoadOwes image.now mode prg.old chr.old result prg.new chr.new }
{
    let cart = Cartridge::load(image, mode, prg, chr)?;
    Ok(for_cart(cart))
}

// Where it lands, unless the call is refused first: 9, then 10.
#[tactic(auto, unfolding(crate::specs::Range::guarded))]
fn guarded(rams: bool, state: bool, landing: Landing) -> Landing
    ensures { result ≡ guarded rams state landing }
{
    if !rams {
        Err(Refusal::RamNot8K)
    } else if !state {
        Err(Refusal::StateOutOfRange)
    } else {
        landing
    }
}

#[tactic(auto, unfolding(crate::specs::Write::next_mirroring))]
fn next_mirroring(mode: Mode, now: Mirroring, mirrors: Option<Mirroring>) -> Mirroring
    ensures { result ≡ next_mirroring mode now mirrors }
{
    match mode {
        Mode::House => now,
        Mode::Board => mirrors.unwrap_or(now),
    }
}

// A notice of the screens that are asked for, where they are others.
#[tactic(auto, using(common::proofs::Answers::by_equality), unfolding(crate::specs::Write::notice, crate::specs::Write::notice_unless))]
fn notice(against: Mirroring, mirrors: Option<Mirroring>) -> WriteAnswer
    ensures { result ≡ notice against mirrors }
{
    match mirrors {
        Some(m) => Ok(if against == m { None } else { Some(m) }),
        None => Ok(None),
    }
}

// What the real board may have as its current mirroring.
#[tactic(auto, unfolding(crate::specs::Steps::turned_fit, cartridge::specs::Mappers::is_mapper))]
pub fn turned_fit(mapper: MapperType, same: bool, headers: bool) -> bool
    ensures { result ≡ turned_fit mapper same headers }
{
    match mapper {
        MapperType::Mmc1 => true,
        MapperType::Mmc3 => headers,
        _ => same,
    }
}

// House mode keeps the header's; on the real board MMC1 chooses among four and MMC3 between two.
#[tactic(auto, unfolding(crate::specs::Steps::screens_by))]
fn screens_by(mode: Mode, mapper: MapperType, same: bool, headers: bool) -> bool
    ensures { result ≡ screens_by mode mapper same headers }
{
    match mode {
        Mode::House => same,
        Mode::Board => turned_fit(mapper, same, headers),
    }
}

// What a cartridge's board may have as its current mirroring.
#[tactic(auto, using(common::proofs::Answers::by_equality))]
pub fn screens_fit(cart: Cartridge, now: Mirroring) -> bool
    ensures { result ≡ screens_tested cart now }
{
    screens_by(
        cart.mode,
        cart.mapper,
        now == cart.mirroring,
        now.is_headers(),
    )
}

impl Board {
    // Refusal 10 is given where this fails.
    #[tactic(auto, unfolding(crate::specs::Range::in_range, crate::specs::Range::mirroring_fits))]
    pub fn in_range(self) -> bool
        ensures { result ≡ in_range self }
    {
        self.cart.could_load()
            & self.registers.fits(self.cart.mapper, self.cart.mode)
            & screens_fit(self.cart, self.mirroring)
    }

    #[tactic(auto, unfolding(crate::specs::Range::is_loaded))]
    fn is_loaded(self, length: usize) -> bool
        ensures { result ≡ is_loaded self length }
    {
        self.in_range() & (length == self.cart.length)
    }

    #[tactic(auto, unfolding(crate::specs::Read::read_landing, crate::specs::Read::read_window_on))]
    pub fn read_landing(self, address: u16) -> Landing
        ensures { result ≡ read_landing self address }
    {
        let cart = self.cart;
        let registers = self.registers;
        match cart.mapper {
            MapperType::Nrom => nrom::read_landing(cart, address),
            MapperType::Mmc1 => registers.mmc1.read_landing(cart, address),
            MapperType::Uxrom => registers.uxrom.read_landing(cart, address),
            MapperType::Cnrom => registers.cnrom.read_landing(cart, address),
            MapperType::Mmc3 => registers.mmc3.read_landing(cart, address),
        }
    }

    #[tactic(auto, unfolding(crate::specs::Write::write_landing, crate::specs::Write::write_window_on))]
    pub fn write_landing(self, address: u16) -> Landing
        ensures { result ≡ write_landing self address }
    {
        let cart = self.cart;
        let registers = self.registers;
        match cart.mapper {
            MapperType::Nrom => nrom::write_landing(cart, address),
            MapperType::Mmc1 => registers.mmc1.write_landing(cart, address),
            MapperType::Uxrom => registers.uxrom.write_landing(cart, address),
            MapperType::Cnrom => registers.cnrom.write_landing(cart, address),
            MapperType::Mmc3 => registers.mmc3.write_landing(cart, address),
        }
    }

    // MMC1 reads from the bank itself, which is a part of the lent image.
    #[tactic(auto, unfolding(crate::specs::Read::read_landing, crate::specs::Read::read_window_on))]
    fn byte(self, landing: Landing, lent: Lent<'_>, address: u16) -> u8
        requires { landing ≡ read_landing self address }
        ensures { result ≡ byte_at self.cart (read_landing self address) lent.entry.image.now lent.entry.prg.now lent.entry.chr.now }
    {
        match self.cart.mapper {
            MapperType::Mmc1 => self.registers.mmc1.read8(self.cart, lent, address),
            _ => lent.byte_at(self.cart, landing),
        }
    }

    // What a notice compares with: the header's in house mode, the current one in board mode.
    #[tactic(auto, unfolding(crate::specs::Write::against_in))]
    fn against(self) -> Mirroring
        ensures { result ≡ against self }
    {
        match self.cart.mode {
            Mode::House => self.cart.mirroring,
            Mode::Board => self.mirroring,
        }
    }

    // The next board, with the registers and the screens that a write leaves, and its notice.
    #[tactic(auto, unfolding(crate::specs::Write::turned))]
    fn turned(self, moved: Moved) -> Written
        ensures { result ≡ turned self moved }
    {
        Outcome {
            left: Board {
                cart: self.cart,
                mirroring: next_mirroring(self.cart.mode, self.mirroring, moved.answer),
                registers: moved.left,
            },
            answer: notice(self.against(), moved.answer),
        }
    }

    #[tactic(auto, unfolding(crate::specs::Write::accepted_write))]
    fn accepted_write(self, value: u8, address: u16) -> Written
        ensures { result ≡ accepted_write self value address }
    {
        let cart = self.cart;
        self.turned(self.registers.moved(cart.mapper, cart.mode, value, address))
    }

    // A refused write hands the board back as it came.
    #[tactic(auto, unfolding(crate::specs::Write::written_as))]
    fn written_as(self, landing: Landing, value: u8, address: u16) -> Written
        ensures { result ≡ written_as self landing value address }
    {
        match landing {
            Ok(_) => self.accepted_write(value, address),
            Err(why) => Outcome {
                left: self,
                answer: Err(why),
            },
        }
    }

    #[tactic(auto, unfolding(crate::specs::Clock::accepted_clock, crate::specs::Clock::yes_no))]
    fn accepted_clock(self) -> Clocked
        ensures { result ≡ accepted_clock self }
    {
        let ticked = self.registers.ticked(self.cart.mapper, self.cart.mode);
        Outcome {
            left: Board {
                registers: ticked.left,
                ..self
            },
            answer: Ok(ticked.answer),
        }
    }

    // The three calls of a board that has been judged: `fits` is whether it may be served.
    pub fn clock_if(self, fits: bool) -> Clocked
        ensures { result ≡ clock_if fits self }
    {
        if fits {
            self.accepted_clock()
        } else {
            Outcome {
                left: self,
                answer: Err(Refusal::StateOutOfRange),
            }
        }
    }

    pub fn read_if(self, fits: bool, lent: Lent<'_>, address: u16) -> ReadAnswer
        ensures { result ≡ read_if fits self lent.entry.image.now lent.entry.prg.now lent.entry.chr.now address }
    {
        let landing = self.read_landing(address);
        let byte = self.byte(landing, lent, address);
        let rams = cartridge::rams_fit(lent.prg.len(), lent.chr.len());
        places::answer_at(guarded(rams, fits, landing), byte)
    }

    pub fn write_if(
        self,
        fits: bool,
        prg: &mut [u8],
        chr: &mut [u8],
        address: u16,
        value: u8,
    ) -> Written
        ensures { WritesIf fits self prg.old chr.old address value result prg.new chr.new }
    {
        let rams = cartridge::rams_fit(prg.len(), chr.len());
        let landing = guarded(rams, fits, self.write_landing(address));
        places::store(landing, prg, chr, value);
        self.written_as(landing, value, address)
    }

    // The public calls: each judges the state, then serves it.
    #[tactic(auto, unfolding(crate::specs::Clock::clock))]
    pub fn clock(self) -> Clocked
        ensures { result ≡ clock self }
    {
        self.clock_if(self.in_range())
    }

    #[tactic(auto, unfolding(crate::specs::Read::read))]
    pub fn read(self, lent: Lent<'_>, address: u16) -> ReadAnswer
        ensures { result ≡ read self lent.entry.image.now lent.entry.prg.now lent.entry.chr.now address }
    {
        self.read_if(self.is_loaded(lent.image.len()), lent, address)
    }

    // The buffers stand apart where RAM is written: the image is lent to be read, both RAMs to be stored in, and C lends three.
    #[tactic(auto, unfolding(crate::specs::Write::landing))]
    pub fn write(
        self,
        image: &[u8],
        prg: &mut [u8],
        chr: &mut [u8],
        address: u16,
        value: u8,
    ) -> Written
        ensures { WriteOwes self image.now prg.old chr.old address value result prg.new chr.new }
    {
        self.write_if(self.is_loaded(image.len()), prg, chr, address, value)
    }

    // Any of the three calls above, as a run makes one after another.
    #[tactic(auto, unfolding(crate::specs::Runs::next, crate::specs::Runs::answer, crate::specs::Runs::left, crate::specs::Runs::stepped))]
    pub fn play(self, event: Event, image: &[u8], prg: &mut [u8], chr: &mut [u8]) -> Played
        ensures { PlayOwes (moment self (lent image.now prg.old chr.old)) event result prg.new chr.new }
    {
        match event {
            Event::Read(address) => Outcome {
                left: self,
                answer: Answer::Read(self.read(Lent { image, prg, chr }, address)),
            },
            Event::Write(address, value) => {
                let written = self.write(image, prg, chr, address, value);
                Outcome {
                    left: written.left,
                    answer: Answer::Write(written.answer),
                }
            }
            Event::Clock => {
                let clocked = self.clock();
                Outcome {
                    left: clocked.left,
                    answer: Answer::Clock(clocked.answer),
                }
            }
        }
    }
}
