// Standard input, read into a caller's room: until the room is full, the input ends or a read fails.
#![tactic(auto)]

ghost use Rattle.std.specs.Prelude.{◌≤◌, length};

use std::io::Read;

// How many bytes came.
pub fn read_full(rt: &impl Input, room: &mut [u8]) -> usize
    ensures { result ≤ length room.new }
{
    let mut reader = rt.reader();
    let mut n = 0;
    // Input may never end, and a loop has to: so it is counted, to more than any run uses up.
    for _ in 0..u64::MAX {
        let got = reader.read(&mut room[n..]).unwrap_or(0);
        if got == 0 {
            break;
        }
        n += got;
    }
    n
}
