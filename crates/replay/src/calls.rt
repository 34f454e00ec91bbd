// The exported calls, and what is lent to them.

// The exported calls take the mode as a number, as C gives it.
const HOUSE: u8 = 0;

// What stands in the RAMs before a load, and in the fields before a header is read.
const MARK: u8 = 0xA5;

// What a call answers, and what the file has for it: one number, from 256 on a refusal's. C gives it so, and it is compared
// and told whole: to part it in a value and a refusal and to join them again would be no plainer.
#[derive(Clone, Copy)]
pub struct Answer(pub u16);

impl Answer {
    // The event is of none of the three kinds.
    const NO_CALL: Answer = Answer(0xFFFF);

    pub fn is_refusal(self) -> bool {
        self.0 >= 256
    }
}

impl From<Answer> for u32 {
    fn from(answer: Answer) -> u32 {
        u32::from(answer.0)
    }
}

// What an event asks for.
#[derive(Clone, Copy)]
enum Call {
    Read { address: u16 },
    Write { address: u16, value: u8 },
    Clock,
}

struct UnknownKind;

impl TryFrom<[u8; 4]> for Call {
    type Error = UnknownKind;

    fn try_from(event: [u8; 4]) -> Result<Self, UnknownKind> {
        let [kind, high, low, value] = event;
        let address = u16::from_be_bytes([high, low]);
        match kind {
            0 => Ok(Call::Read { address }),
            1 => Ok(Call::Write { address, value }),
            2 => Ok(Call::Clock),
            _ => Err(UnknownKind),
        }
    }
}

// What is lent to the calls of a board.
#[derive(Clone, Copy, PartialEq, Eq)]
pub struct Lent {
    state: [u8; 40],
    prg: [u8; 8192],
    chr: [u8; 8192],
}

impl Lent {
    pub fn new() -> Self {
        Lent {
            state: [0; 40],
            prg: [0; 8192],
            chr: [0; 8192],
        }
    }

    // Both RAMs; the state keeps what the case before left in it.
    pub fn mark(&mut self) {
        self.prg = [MARK; 8192];
        self.chr = [MARK; 8192];
    }

    pub fn load(&mut self, image: &[u8]) -> Answer {
        Answer(exports::biekkarul_load(image, HOUSE, &mut self.state, &mut self.prg, &mut self.chr))
    }

    pub fn play(&mut self, event: [u8; 4], image: &[u8]) -> Answer {
        match Call::try_from(event) {
            Ok(call) => Answer(self.call(call, image)),
            Err(UnknownKind) => Answer::NO_CALL,
        }
    }

    fn call(&mut self, call: Call, image: &[u8]) -> u16 {
        match call {
            Call::Read { address } => {
                exports::biekkarul_read(&self.state, image, &self.prg, &self.chr, address)
            }
            Call::Write { address, value } => exports::biekkarul_write(
                &mut self.state,
                image,
                &mut self.prg,
                &mut self.chr,
                address,
                value,
            ),
            Call::Clock => exports::biekkarul_clock(&mut self.state),
        }
    }
}

// What the header reader answers, and the fields that were lent to it.
#[derive(Clone, Copy)]
pub struct Header {
    pub answered: Answer,
    fields: [u8; 12],
}

impl Header {
    pub fn read(bytes: &[u8]) -> Self {
        let mut fields = [MARK; 12];
        let answered = Answer(exports::biekkarul_header(bytes, &mut fields));
        Header { answered, fields }
    }

    // The fields are bytes 4 to 15, or after a refusal what they were.
    pub fn is_kept(&self, bytes: &[u8]) -> bool {
        if self.answered.is_refusal() {
            self.fields == [MARK; 12]
        } else {
            bytes.get(4..16) == Some(&self.fields)
        }
    }

    // The size of the data by the fields; 0 after a refusal.
    pub fn size(&self) -> u32 {
        if self.answered.is_refusal() {
            0
        } else {
            u32::from(self.fields[0]) * 16384 + u32::from(self.fields[1]) * 8192
        }
    }
}
