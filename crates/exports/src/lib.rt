// The boards for callers that are not Rattle: numbers and byte slices, the board as 40 lent bytes.
// No rule of a board stands here: a call decodes the state, calls the board and keeps what moved.
#![tactic(auto)]

ghost use Rattle.std.specs.Prelude.{◌≡◌, cond, ◌+◌, ◌≤◌, ◌&&◌, eqb, length};
ghost use Rattle.rules.specs.Flat.{flat_digits};
ghost use Rattle.rules.specs.Rows.{bytes};
ghost use Rattle.memory.specs.Memory.{part};
ghost use Rattle.exports.specs.Numbers.{refused, read_number, write_number, clock_number, load_number, moved_number, pages_number, fields_of, version};
ghost use Rattle.exports.specs.Bytes.{word_at, five_words, words_in, bytes_of, board_in, is_state, state_left};
ghost use Rattle.exports.specs.Calls.{read_bytes, WriteOwes, WriteMovedOwes, ClockOwes, LoadOwes, HeaderOwes, DigitsOwes, PagesOwes};
ghost use Rattle.exports.specs.Steps.{word_put, FieldsPut, WroteOwes};

use boards::{Board, ClockAnswer, WriteAnswer};
use cartridge::Header;
use common::{Mode, Refusal};
use pages::{PagesAnswer, Parts};
use places::{Lent, ReadAnswer};
use states::Words;

// A write's answer, and the pages that it may have moved.
#[derive(Clone, Copy, Debug, PartialEq, Eq)]
pub struct Wrote {
    pub answer: u16,
    pub parts: Parts,
}

// The answers as numbers. Functions, since neither the answers nor the numbers are types of this crate.

// An answer of 256 or more is a refusal, 256 above its number.
#[tactic(auto, unfolding(crate::specs::Numbers::refused))]
fn refusal(why: Refusal) -> u16
    ensures { result ≡ refused why }
{
    256 + (u8::from(why) as u16)
}

#[tactic(auto, unfolding(crate::specs::Numbers::read_number))]
fn read_number(answer: ReadAnswer) -> u16
    ensures { result ≡ read_number answer }
{
    answer.map_or_else(refusal, u16::from)
}

#[tactic(auto, unfolding(crate::specs::Numbers::write_number))]
fn write_number(answer: WriteAnswer) -> u16
    ensures { result ≡ write_number answer }
{
    answer.map_or_else(refusal, |notice| match notice {
        Some(mirroring) => u16::from(mirroring.letter()),
        None => 0,
    })
}

// By cases: `map_or_else` costs a clock ten to sixteen instructions more.
#[tactic(auto, unfolding(crate::specs::Numbers::clock_number))]
fn clock_number(answer: ClockAnswer) -> u16
    ensures { result ≡ clock_number answer }
{
    match answer {
        Ok(yes) => yes as u16,
        Err(why) => refusal(why),
    }
}

// Above a write's answer: which pages it may have moved.
#[tactic(auto, unfolding(crate::specs::Numbers::moved_number))]
fn moved_number(parts: Parts) -> u32
    ensures { (result ≡ moved_number parts) × (result ≤ 0x70000) }
{
    (parts.chr as u32) * 0x1_0000 + (parts.prg as u32) * 0x2_0000 + (parts.ram as u32) * 0x4_0000
}

#[tactic(auto, unfolding(crate::specs::Numbers::pages_number))]
fn pages_number(answer: PagesAnswer) -> u16
    ensures { result ≡ pages_number answer }
{
    answer.map_or_else(refusal, |()| 0)
}

// Eight bytes as one word, the least first. That they are there is asked by it and by `put_word`, and by no third.
#[tactic(auto, unfolding(crate::specs::Bytes::word_at))]
fn word_at(s: &[u8], i: usize) -> u64
    requires { i + 8 ≤ length s.now }
    ensures word { result ≡ word_at s.now i }
    ensures bytes { flat_digits bytes result ≡ part s.now i 8 }
{
    u64::from_le_bytes(s[i..i + 8].try_into().unwrap())
}

#[tactic(auto, unfolding(crate::specs::Bytes::five_words))]
fn five_words(s: &[u8]) -> Words
    requires { length s.now ≡ 40 }
    ensures { result ≡ five_words s.now }
{
    Words {
        cart: word_at(s, 0),
        length: word_at(s, 8),
        banks: word_at(s, 16),
        regs: word_at(s, 24),
        irq: word_at(s, 32),
    }
}

#[tactic(auto, unfolding(crate::specs::Bytes::words_in))]
fn words_in(s: &[u8]) -> Words
    ensures { result ≡ words_in s.now }
{
    if s.len() == 40 {
        five_words(s)
    } else {
        Words::default()
    }
}

// A word over its bytes in the state; where it has not moved, nothing is stored.
#[tactic(auto, unfolding(crate::specs::Steps::word_put), using(crate::proofs::Put::put_same))]
fn put_word(s: &mut [u8], at: usize, w: u64)
    requires { at + 8 ≤ length s.old }
    ensures { s.new ≡ word_put s.old at w }
{
    if word_at(s, at) != w {
        s[at..at + 8].copy_from_slice(&w.to_le_bytes());
    }
}

// One line each, as they are named: a loop over the state's chunks would take them from a list.
#[tactic(auto, using(crate::proofs::Put::forty))]
fn put_words(s: &mut [u8], w: Words)
    requires { length s.old ≡ 40 }
    ensures { s.new ≡ bytes_of w }
{
    put_word(s, 0, w.cart);
    put_word(s, 8, w.length);
    put_word(s, 16, w.banks);
    put_word(s, 24, w.regs);
    put_word(s, 32, w.irq);
}

// After a refusal the state holds what it held.
#[tactic(auto, unfolding(crate::specs::Bytes::state_left))]
fn keep(state: &mut [u8], answer: u16, w: Words)
    ensures { state.new ≡ state_left state.old answer w }
{
    if (answer < 256) & (state.len() == 40) {
        put_words(state, w);
    }
}

// A lent state: its words, the board that they hold, and whether a board could have them. No Option: a refused call too hands
// the words and the board on.
#[derive(Clone, Copy)]
struct State {
    words: Words,
    board: Board,
    fits: bool,
}

impl State {
    // In line in every call, with what it calls. Judged before the board is decoded: the other way round a read took
    // 18 instructions more of 400.
    #[inline(always)]
    fn of(bytes: &[u8]) -> State
        ensures words { result.words ≡ words_in bytes.now }
        ensures board { result.board ≡ board_in bytes.now }
        ensures fits { result.fits ≡ is_state bytes.now }
    {
        let words = words_in(bytes);
        let fits = words.are_kept();
        let board = Board::from(words);
        State { words, board, fits }
    }

    // Whether it fits, and the image is as long as the one that was loaded.
    #[inline(always)]
    fn fits_with(self, image: &[u8]) -> bool
        ensures { result ≡ (self.fits && eqb (length image.now) self.words.length) }
    {
        self.fits & (image.len() as u64 == self.words.length)
    }
}

// The calls of a board: decoded and judged, served, and what moved is kept.
#[tactic(auto, unfolding(crate::specs::Calls::read_bytes))]
pub fn biekkarul_read<'a>(
    state: &[u8],
    image: &'a [u8],
    prg: &[u8],
    chr: &'a [u8],
    address: u16,
) -> u16
    ensures { result ≡ read_bytes state.now image.now prg.now chr.now address }
{
    let held = State::of(state);
    let fits = held.fits_with(image);
    let lent = Lent { image, prg, chr };
    read_number(held.board.read_if(fits, lent, address))
}

// The one write behind both exported ones: its answer, and the pages that it may have moved.
fn write_in(
    state: &mut [u8],
    image: &[u8],
    prg: &mut [u8],
    chr: &mut [u8],
    address: u16,
    value: u8,
) -> Wrote
    ensures { WroteOwes state.old image.now prg.old chr.old address value result state.new prg.new chr.new }
{
    let held = State::of(state);
    let mapper = held.board.cart.mapper;
    let fits = held.fits_with(image);
    let written = held.board.write_if(fits, prg, chr, address, value);
    let answer = write_number(written.answer);
    let next = written.left;
    let parts = pages::moved(mapper, held.board.registers, next.registers);
    keep(state, answer, held.words.after_write(mapper, next));
    Wrote { answer, parts }
}

pub fn biekkarul_write(
    state: &mut [u8],
    image: &[u8],
    prg: &mut [u8],
    chr: &mut [u8],
    address: u16,
    value: u8,
) -> u16
    ensures { WriteOwes state.old image.now prg.old chr.old address value result state.new prg.new chr.new }
{
    write_in(state, image, prg, chr, address, value).answer
}

// The same write, with the pages that it may have moved above its answer.
pub fn biekkarul_write_moved(
    state: &mut [u8],
    image: &[u8],
    prg: &mut [u8],
    chr: &mut [u8],
    address: u16,
    value: u8,
) -> u32
    ensures { WriteMovedOwes state.old image.now prg.old chr.old address value result state.new prg.new chr.new }
{
    let wrote = write_in(state, image, prg, chr, address, value);
    (wrote.answer as u32) + moved_number(wrote.parts)
}

#[tactic(auto, using(crate::proofs::Keeps::clock_kept, crate::proofs::Keeps::unfit_keeps))]
pub fn biekkarul_clock(state: &mut [u8]) -> u16
    ensures { ClockOwes state.old result state.new }
{
    let held = State::of(state);
    let clocked = held.board.clock_if(held.fits);
    let answer = clock_number(clocked.answer);
    // Asked of every state, and told by the answer's number alone, a clock took a quarter longer.
    if held.fits {
        keep(state, answer, held.words.after_clock(clocked.left));
    }
    answer
}

#[tactic(auto, unfolding(crate::specs::Bytes::state_left, crate::specs::Numbers::load_number, crate::specs::Numbers::refused, cartridge::specs::Load::loaded_as, boards::specs::Start::loaded_board, boards::specs::Start::load_answer, boards::specs::Start::board_of, cartridge::specs::Load::ram_after))]
pub fn biekkarul_load(
    image: &[u8],
    mode: u8,
    state: &mut [u8],
    prg: &mut [u8],
    chr: &mut [u8],
) -> u16
    ensures { LoadOwes image.now mode state.old prg.old chr.old result state.new prg.new chr.new }
{
    if !cartridge::rams_fit(prg.len(), chr.len()) {
        refusal(Refusal::RamNot8K)
    } else if (state.len() != 40) | (mode >= 2) {
        refusal(Refusal::StateOutOfRange)
    } else {
        match boards::load(image, Mode::from(mode), prg, chr) {
            Ok(board) => {
                put_words(state, Words::from(board));
                0
            }
            Err(why) => refusal(why),
        }
    }
}

// What the state holds, digit by digit, so that no caller needs to know its bits.
pub fn biekkarul_digits(state: &[u8], digits: &mut [u64]) -> u16
    ensures { DigitsOwes state.now digits.old result digits.new }
{
    let held = State::of(state);
    if held.fits & (digits.len() == 40) {
        digits.copy_from_slice(&held.words.digits());
        0
    } else {
        refusal(Refusal::StateOutOfRange)
    }
}

// Where each page is read from, and where a write to it goes, as the state has them.
#[tactic(auto, using(crate::proofs::Keeps::number_told))]
pub fn biekkarul_pages(state: &[u8], first: u8, reads: &mut [u32], writes: &mut [u32]) -> u16
    ensures { PagesOwes state.now first reads.old writes.old result reads.new writes.new }
{
    let held = State::of(state);
    pages_number(pages::pages_if(held.fits, held.board, first, reads, writes))
}

// A function, since neither type is this crate's.
#[tactic(auto, unfolding(crate::specs::Numbers::fields_of))]
fn fields_of(h: Header) -> [u8; 12]
    ensures { result ≡ fields_of h }
{
    [
        h.prg, h.chr, h.flags6, h.flags7, h.flags8, h.flags9, h.flags10, h.flags11, h.flags12,
        h.flags13, h.flags14, h.flags15,
    ]
}

#[tactic(auto, unfolding(crate::specs::Numbers::header_number, crate::specs::Numbers::fields_after, crate::specs::Numbers::fields_of))]
fn put_fields(answer: Result<Header, Refusal>, fields: &mut [u8]) -> u16
    requires { length fields.old ≡ 12 }
    ensures { FieldsPut answer fields.old result fields.new }
{
    match answer {
        Ok(h) => {
            fields.copy_from_slice(&fields_of(h));
            0
        }
        Err(why) => refusal(why),
    }
}

pub fn biekkarul_header(image: &[u8], fields: &mut [u8]) -> u16
    ensures { HeaderOwes image.now fields.old result fields.new }
{
    if fields.len() == 12 {
        put_fields(Header::parse(image), fields)
    } else {
        refusal(Refusal::StateOutOfRange)
    }
}

// So that a caller can tell whether this library is the one that its header or wrapper was written for.
pub fn biekkarul_version() -> u32
    ensures { result ≡ version }
{
    5
}
