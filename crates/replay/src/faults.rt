// What is told in place of the count, where the file is not played to its end.
use std::fmt;

// A recorded number beside the one that was answered, and whether what was lent holds what it has to hold.
#[derive(Clone, Copy)]
pub struct Difference {
    recorded: u32,
    answered: u32,
    is_kept: bool,
}

impl fmt::Display for Difference {
    fn fmt<W: fmt::Write>(&self, f: &mut fmt::Formatter<W>) -> fmt::Result {
        write!(f, "recorded {}, answered {}", self.recorded, self.answered)?;
        if !self.is_kept {
            write!(f, ", lent bytes changed")?;
        }
        Ok(())
    }
}

pub fn compare<N: Into<u32> + Drop>(
    recorded: N,
    answered: N,
    is_kept: bool,
) -> Result<(), Difference> {
    let difference = Difference {
        recorded: recorded.into(),
        answered: answered.into(),
        is_kept,
    };
    if difference.recorded == difference.answered && is_kept {
        Ok(())
    } else {
        Err(difference)
    }
}

#[derive(Clone, Copy)]
pub enum Fault {
    LongFile,
    NoRecord,
    LongImage,
    OtherEnd,
    Load {
        case: u16,
        difference: Difference,
    },
    Event {
        case: u16,
        event: u16,
        difference: Difference,
    },
    // The answer, the size that it gives, or both.
    Header {
        number: u16,
        answer: Option<Difference>,
        size: Option<Difference>,
    },
}

// Each in a line; a header of which both differ in two.
impl fmt::Display for Fault {
    fn fmt<W: fmt::Write>(&self, f: &mut fmt::Formatter<W>) -> fmt::Result {
        match self {
            Fault::LongFile => writeln!(f, "the file is longer than the room for it"),
            Fault::NoRecord => writeln!(f, "no recorded answers"),
            Fault::LongImage => writeln!(f, "an image is longer than the room for it"),
            Fault::OtherEnd => writeln!(f, "the file does not end behind its last record"),
            Fault::Load { case, difference } => writeln!(f, "case {case}, load: {difference}"),
            Fault::Event {
                case,
                event,
                difference,
            } => writeln!(f, "case {case}, event {event}: {difference}"),
            Fault::Header {
                number,
                answer,
                size,
            } => {
                if let Some(difference) = answer {
                    writeln!(f, "header {number}: {difference}")?;
                }
                if let Some(difference) = size {
                    writeln!(f, "header {number}, size: {difference}")?;
                }
                Ok(())
            }
        }
    }
}
