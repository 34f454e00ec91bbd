// Plays the recorded answers of the original Rust on the exported calls and compares each; docs/RECORDED.md has the file's form.
#![tactic(auto)]

mod calls;
mod faults;
mod images;
mod records;

use calls::{Answer, Header, Lent};
use faults::{Difference, Fault, compare};
use images::Image;
use records::Records;
use std::{fmt, io};
use whole_input::read_full;

// One more than the longest file.
const ROOM: usize = 0x4_0000;

// How much was compared, where all of it is as recorded.
#[derive(Clone, Copy, Default)]
struct Tally {
    loads: u64,
    events: u64,
    headers: u64,
    refusals: u64,
}

// One more; the greatest number stays.
fn count(number: &mut u64) {
    *number = number.saturating_add(1);
}

impl Tally {
    fn count_refusal(&mut self, answered: Answer) {
        if answered.is_refusal() {
            count(&mut self.refusals);
        }
    }
}

impl fmt::Display for Tally {
    fn fmt<W: fmt::Write>(&self, f: &mut fmt::Formatter<W>) -> fmt::Result {
        let Tally {
            loads,
            events,
            headers,
            refusals,
        } = self;
        writeln!(
            f,
            "{loads} loads, {events} events, {headers} headers: as recorded"
        )?;
        writeln!(f, "{refusals} refusals: nothing changed")
    }
}

// The records that are still to come, what is lent to their calls, and how much was compared before. The first fault
// ends it.
#[derive(Drop)]
struct Replay<'a> {
    records: Records<'a>,
    lent: Lent,
    tally: Tally,
}

impl Replay<'_> {
    fn play_case(&mut self, case: u16, image: &mut Image) -> Result<(), Fault> {
        let header = self.records.array();
        let size = self.records.four() as usize;
        let recorded = Answer(self.records.two());
        let events = self.records.two();
        let image = image.of(header, size).ok_or(Fault::LongImage)?;
        self.play_load(case, recorded, image)?;
        for event in 0..events {
            self.play_event(case, event, image)?;
        }
        Ok(())
    }

    // A refusal has to leave all that is lent.
    fn judge(
        &mut self,
        recorded: Answer,
        answered: Answer,
        before: Lent,
    ) -> Result<(), Difference> {
        let is_kept = !answered.is_refusal() || self.lent == before;
        compare(recorded, answered, is_kept)?;
        self.tally.count_refusal(answered);
        Ok(())
    }

    fn play_load(&mut self, case: u16, recorded: Answer, image: &[u8]) -> Result<(), Fault> {
        self.lent.mark();
        let before = self.lent;
        let answered = self.lent.load(image);
        self.judge(recorded, answered, before)
            .map_err(|difference| Fault::Load { case, difference })?;
        count(&mut self.tally.loads);
        Ok(())
    }

    fn play_event(&mut self, case: u16, event: u16, image: &[u8]) -> Result<(), Fault> {
        let call = self.records.array();
        let recorded = Answer(self.records.two());
        let before = self.lent;
        let answered = self.lent.play(call, image);
        self.judge(recorded, answered, before)
            .map_err(|difference| Fault::Event {
                case,
                event,
                difference,
            })?;
        count(&mut self.tally.events);
        Ok(())
    }

    fn play_header(&mut self, number: u16) -> Result<(), Fault> {
        let length = self.records.byte();
        let bytes = self.records.bytes(usize::from(length));
        let recorded = Answer(self.records.two());
        let size = self.records.four();
        let header = Header::read(bytes);
        let answer = compare(recorded, header.answered, header.is_kept(bytes));
        let size = compare(size, header.size(), true);
        let (Ok(()), Ok(())) = (answer, size) else {
            return Err(Fault::Header {
                number,
                answer: answer.err(),
                size: size.err(),
            });
        };
        self.tally.count_refusal(header.answered);
        count(&mut self.tally.headers);
        Ok(())
    }

    fn play_all(&mut self, image: &mut Image) -> Result<(), Fault> {
        for case in 0..self.records.two() {
            self.play_case(case, image)?;
        }
        for number in 0..self.records.two() {
            self.play_header(number)?;
        }
        if self.records.is_at_end() {
            Ok(())
        } else {
            Err(Fault::OtherEnd)
        }
    }
}

fn play_file(file: &[u8]) -> Result<Tally, Fault> {
    if file.len() == ROOM {
        return Err(Fault::LongFile);
    }
    let mut records = Records::new(file);
    if records.array() != *b"BKR1" {
        return Err(Fault::NoRecord);
    }
    let mut replay = Replay {
        records,
        lent: Lent::new(),
        tally: Tally::default(),
    };
    replay.play_all(&mut Image::new())?;
    Ok(replay.tally)
}

fn main(rt: HostRuntime) -> io::Result<()> {
    let mut file = [0u8; ROOM];
    let n = read_full(&rt, &mut file);
    // Either is what the program says; the status tells only whether that could be written.
    match play_file(&file[..n]) {
        Ok(tally) => print!(rt; "{tally}"),
        Err(fault) => print!(rt; "{fault}"),
    }
}
