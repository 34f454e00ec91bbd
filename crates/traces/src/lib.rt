// Traces: an image and a list of events in, a line of text for each answer out.
// The format and the text are document 01's, "Trace program". Not in the Rust.
#![tactic(auto)]

ghost use Rattle.std.specs.Prelude.{◌≡◌, ◌≤◌, [], ◌∷◌, true};
ghost use Rattle.traces.specs.Format.{image_length, mode_of, image_of, event_count, event_start, events_fit, head_fits, is_trace};
ghost use Rattle.traces.specs.Text.{five_digits, leading, decimal, hex_digit, hex, refusal, read_text, write_text, clock_text, letter, answer_text, between, line, refused_line, counts, load_line};
ghost use Rattle.traces.specs.Run.{trace_run, ran, RunOwes};
ghost use Rattle.traces.specs.Steps.{event_in, Puts, EventOwes, EventsOwe, ShowsRun};

use boards::{Answer, Board, ClockAnswer, Event, WriteAnswer};
use cartridge::Cartridge;
use common::{Mode, Refusal};
use places::ReadAnswer;

// The format: document 01 from "Standard input" to "left over".

#[tactic(auto, unfolding(crate::specs::Format::image_length))]
fn image_length(trace: &[u8]) -> u32
    ensures { result ≡ image_length trace.now }
{
    u32::from_be_bytes([1, 2, 3, 4].map(|at| memory::byte_at(trace, at)))
}

#[tactic(auto, unfolding(crate::specs::Format::mode_of))]
fn mode_of(trace: &[u8]) -> Mode
    ensures { result ≡ mode_of trace.now }
{
    Mode::from(memory::byte_at(trace, 5))
}

#[tactic(auto, unfolding(crate::specs::Format::image_of))]
fn image_of(trace: &[u8]) -> &[u8]
    ensures { result.now ≡ image_of trace.now }
{
    memory::part_of(trace, 6, image_length(trace) as usize)
}

#[tactic(auto, unfolding(crate::specs::Format::event_count))]
fn event_count(trace: &[u8]) -> u16
    ensures { result ≡ event_count trace.now }
{
    let length = image_length(trace) as usize;
    u16::from_be_bytes([6 + length, 7 + length].map(|at| memory::byte_at(trace, at)))
}

#[tactic(auto, unfolding(crate::specs::Format::event_start))]
fn event_start(trace: &[u8], i: u16) -> usize
    ensures { (result ≡ event_start trace.now i) × (result ≤ 0x1FFFFFFFF) }
{
    8 + image_length(trace) as usize + 4 * usize::from(i)
}

// An event's four bytes: its kind, its address, its value. No other kind is there, and what a kind has no use for is 0.
#[tactic(auto, unfolding(crate::specs::Steps::event_in, crate::specs::Format::fits_at, crate::specs::Format::event_at, crate::specs::Format::event_of))]
fn event_in(trace: &[u8], i: u16) -> Option<Event>
    ensures { result ≡ event_in trace.now i }
{
    let s = event_start(trace, i);
    let [kind, high, low, value] = [s, s + 1, s + 2, s + 3].map(|at| memory::byte_at(trace, at));
    let address = u16::from_be_bytes([high, low]);
    match (kind, address, value) {
        (0, _, 0) => Some(Event::Read(address)),
        (1, _, _) => Some(Event::Write(address, value)),
        (2, 0, 0) => Some(Event::Clock),
        _ => None,
    }
}

fn events_fit(trace: &[u8], count: u16) -> bool
    ensures { result ≡ events_fit trace.now count }
{
    (0..count).all(|i| event_in(trace, i).is_some())
}

#[tactic(auto, unfolding(crate::specs::Format::head_fits))]
fn head_fits(trace: &[u8]) -> bool
    ensures { result ≡ head_fits trace.now }
{
    memory::byte_at(trace, 0) == 1
        && image_length(trace) <= 40976
        && memory::byte_at(trace, 5) <= 1
        && event_count(trace) <= 1024
}

#[tactic(auto, unfolding(crate::specs::Format::is_trace))]
pub fn is_trace(trace: &[u8]) -> bool
    ensures { result ≡ is_trace trace.now }
{
    let count = event_count(trace);
    head_fits(trace) && trace.len() == event_start(trace, count) && events_fit(trace, count)
}

// The text. `write!` makes digits too, but its contract lets any write fail, and `RunOwes` wants every byte of a run's text.

#[tactic(auto, unfolding(crate::specs::Text::five_digits))]
fn five_digits(n: u16) -> [u8; 5]
    ensures { result ≡ five_digits n }
{
    [n / 10000, n / 1000, n / 100, n / 10, n].map(|n| b'0' + (n % 10) as u8)
}

#[tactic(auto, unfolding(crate::specs::Text::leading))]
fn leading(n: u16) -> usize
    ensures { (result ≡ leading n) × (result ≤ 4) }
{
    match n {
        0..=9 => 4,
        10..=99 => 3,
        100..=999 => 2,
        1000..=9999 => 1,
        _ => 0,
    }
}

#[tactic(auto, unfolding(crate::specs::Text::hex_digit))]
fn hex_digit(n: u8) -> u8
    requires { n ≤ 15 }
    ensures { result ≡ hex_digit n }
{
    match n {
        0..=9 => b'0' + n,
        _ => b'A' + (n - 10),
    }
}

// No `From`: both types are other crates'.
#[tactic(auto, unfolding(crate::specs::Text::letter))]
fn letter(answer: Answer) -> u8
    ensures { result ≡ letter answer }
{
    match answer {
        Answer::Read(_) => b'R',
        Answer::Write(_) => b'W',
        Answer::Clock(_) => b'C',
    }
}

// A lent buffer, and how far the text has come in it. Past the buffer's end nothing is stored, and the place moves on all the same.
#[derive(Drop)]
struct Text<'a> {
    bytes: &'a mut [u8],
    at: usize,
}

impl Text<'_> {
    #[tactic(auto, unfolding(crate::specs::Text::laid))]
    fn put(&mut self, byte: u8)
        ensures { Puts (byte ∷ []) self.old self.new }
    {
        memory::put(self.bytes, self.at, byte);
        self.at = self.at.saturating_add(1);
    }

    fn put_all(&mut self, bytes: &[u8])
        ensures { Puts bytes.now self.old self.new }
    {
        for &byte in bytes {
            self.put(byte);
        }
    }

    #[tactic(auto, unfolding(crate::specs::Text::decimal))]
    fn put_decimal(&mut self, n: u16)
        ensures { Puts (decimal n) self.old self.new }
    {
        self.put_all(&five_digits(n)[leading(n)..]);
    }

    #[tactic(auto, unfolding(crate::specs::Text::hex))]
    fn put_hex(&mut self, b: u8)
        ensures { Puts (hex b) self.old self.new }
    {
        self.put_all(&[hex_digit(b / 16), hex_digit(b % 16)]);
    }

    fn put_refusal(&mut self, why: Refusal)
        ensures { Puts (refusal why) self.old self.new }
    {
        self.put(b'!');
        self.put_decimal(u16::from(u8::from(why)));
    }

    #[tactic(auto, unfolding(crate::specs::Text::read_text))]
    fn put_read(&mut self, answer: ReadAnswer)
        ensures { Puts (read_text answer) self.old self.new }
    {
        match answer {
            Ok(b) => self.put_hex(b),
            Err(why) => self.put_refusal(why),
        }
    }

    #[tactic(auto, unfolding(crate::specs::Text::write_text, crate::specs::Text::notice_text))]
    fn put_write(&mut self, answer: WriteAnswer)
        ensures { Puts (write_text answer) self.old self.new }
    {
        match answer {
            Ok(Some(m)) => self.put(m.letter()),
            Ok(None) => self.put(b'-'),
            Err(why) => self.put_refusal(why),
        }
    }

    #[tactic(auto, unfolding(crate::specs::Text::clock_text))]
    fn put_clock(&mut self, answer: ClockAnswer)
        ensures { Puts (clock_text answer) self.old self.new }
    {
        match answer {
            Ok(true) => self.put(b'1'),
            Ok(false) => self.put(b'0'),
            Err(why) => self.put_refusal(why),
        }
    }

    #[tactic(auto, unfolding(crate::specs::Text::answer_text))]
    fn put_answer(&mut self, answer: Answer)
        ensures { Puts (answer_text answer) self.old self.new }
    {
        match answer {
            Answer::Read(a) => self.put_read(a),
            Answer::Write(a) => self.put_write(a),
            Answer::Clock(a) => self.put_clock(a),
        }
    }

    // A letter between two spaces.
    #[tactic(auto, unfolding(crate::specs::Text::between))]
    fn put_between(&mut self, letter: u8)
        ensures { Puts (between letter) self.old self.new }
    {
        self.put_all(&[b' ', letter, b' ']);
    }

    fn put_line(&mut self, i: u16, answer: Answer)
        ensures { Puts (line i answer) self.old self.new }
    {
        self.put_decimal(i);
        self.put_between(letter(answer));
        self.put_answer(answer);
        self.put(b'\n');
    }

    fn put_refused(&mut self, why: Refusal)
        ensures { Puts (refused_line why) self.old self.new }
    {
        self.put_all(b"refused ");
        self.put_decimal(u16::from(u8::from(why)));
        self.put(b'\n');
    }

    fn put_counts(&mut self, prg: u16, chr: u16)
        ensures { Puts (counts prg chr) self.old self.new }
    {
        self.put_decimal(prg);
        self.put(b' ');
        self.put_decimal(chr);
        self.put(b'\n');
    }

    fn put_loaded(&mut self, cart: Cartridge)
        ensures { Puts (load_line cart) self.old self.new }
    {
        self.put_all(b"load ");
        self.put_decimal(u16::from(u8::from(cart.mapper)));
        self.put_between(cart.mirroring.letter());
        self.put_counts(cart.prg, cart.chr);
    }
}

// The run: the load, then each event's call and its line.

// A loaded board, and what is lent to it.
#[derive(Drop)]
struct Machine<'a> {
    board: Board,
    image: &'a [u8],
    prg: &'a mut [u8],
    chr: &'a mut [u8],
}

impl Machine<'_> {
    fn play(&mut self, event: Event) -> Answer
        ensures { EventOwes event self.old result self.new }
    {
        let played = self.board.play(event, self.image, self.prg, self.chr);
        self.board = played.left;
        played.answer
    }

    fn play_all(&mut self, trace: &[u8], text: &mut Text)
        requires { is_trace trace.now ≡ true }
        ensures { EventsOwe trace.now (event_count trace.now) self.old text.old self.new text.new }
    {
        for i in 0..event_count(trace) {
            // Of a well-formed trace each event is there.
            if let Some(event) = event_in(trace, i) {
                let answer = self.play(event);
                text.put_line(i, answer);
            }
        }
    }
}

fn run_trace(trace: &[u8], prg: &mut [u8], chr: &mut [u8], text: &mut Text)
    requires { is_trace trace.now ≡ true }
    ensures { ShowsRun (trace_run trace.now prg.old chr.old) text.old text.new prg.new chr.new }
{
    let image = image_of(trace);
    match boards::load(image, mode_of(trace), prg, chr) {
        Ok(board) => {
            text.put_loaded(board.cart);
            let mut machine = Machine {
                board,
                image,
                prg,
                chr,
            };
            machine.play_all(trace, text);
        }
        Err(why) => text.put_refused(why),
    }
}

// A malformed trace is refused before any load.
pub fn run(trace: &[u8], prg: &mut [u8], chr: &mut [u8], text: &mut [u8]) -> usize
    ensures { RunOwes (ran trace.now prg.old chr.old) text.old result prg.new chr.new text.new }
{
    let mut out = Text { bytes: text, at: 0 };
    if is_trace(trace) {
        run_trace(trace, prg, chr, &mut out);
    } else {
        out.put_refused(Refusal::TraceMalformed);
    }
    out.at
}
