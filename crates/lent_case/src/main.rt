// An owner lends its interrupt unit to each clock. Plays P9 and P10 of document 01, in house mode, and the same clocks in board mode: there it says which of them
// raise the line (M-101), which is the board's and not the unit's.
#![tactic(auto)]

ghost use Rattle.std.specs.Prelude.{◌≡◌};
ghost use Rattle.mmc3.specs.Clock.{clock_in};

use common::{Mode, Outcome};
use mmc3::{Clocked, Irq};
use std::io;

// What the owner has after the loan is what a clock by value gives.
fn lend(irq: Irq, mode: Mode) -> Clocked
    ensures { result ≡ clock_in mode irq }
{
    let mut unit = irq;
    let answer = lent_irq::clock(&mut unit, mode);
    Outcome { left: unit, answer }
}

// Latch, reload and enable written, and nothing after.
fn armed(latch: u8) -> Irq {
    Irq {
        enabled: true,
        latch,
        counter: 0,
        reload: true,
    }
}

fn play(rt: &impl Print, name: &str, mode: Mode, latch: u8, clocks: usize) -> io::Result<()> {
    print!(rt; "{name}:")?;
    let mut unit = armed(latch);
    for _ in 0..clocks {
        let clocked = lend(unit, mode);
        let word = if clocked.answer { "yes" } else { "no" };
        print!(rt; " {word}")?;
        unit = clocked.left;
    }
    println!(rt; "")
}

fn main(rt: HostRuntime) -> io::Result<()> {
    play(&rt, "P9 house", Mode::House, 0, 3)?;
    play(&rt, "P9 board raises", Mode::Board, 0, 3)?;
    play(&rt, "P10 house", Mode::House, 2, 7)?;
    play(&rt, "P10 board raises", Mode::Board, 2, 7)
}
