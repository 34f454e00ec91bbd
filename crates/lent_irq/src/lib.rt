// MMC3's interrupt unit lent by its owner: a clock updates it where it stands. In board mode a yes says that the line is to be raised; the line is the board's.
#![tactic(auto)]

ghost use Rattle.lent_irq.specs.Lent.{ClockOwes};

use common::Mode;
use mmc3::Irq;

pub fn clock(irq: &mut Irq, mode: Mode) -> bool
    ensures { ClockOwes mode irq.old result irq.new }
{
    let clocked = irq.clock(mode);
    *irq = clocked.left;
    clocked.answer
}
