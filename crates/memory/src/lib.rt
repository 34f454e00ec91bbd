// Lent bytes: one read, one stored, all cleared, a part handed on. Every call takes every place.
// Beside potatis mos6502/src/memory.rs, whose Bus gives the shape of a read and a write.
#![tactic(auto)]

ghost use Rattle.std.specs.Prelude.{◌≡◌, length, replicate, set};
ghost use Rattle.memory.specs.Memory.{byte, tail, part, copied};

// The byte at a place, 0 past the end.
pub fn byte_at(s: &[u8], i: usize) -> u8
    ensures { result ≡ byte s.now i }
{
    s.get(i).copied().unwrap_or(0)
}

// The data from a place on, nothing past the end.
pub fn tail_of(s: &[u8], a: usize) -> &[u8]
    ensures { result.now ≡ tail s.now a }
{
    s.get(a..).unwrap_or(&[])
}

// The bytes from a place on, as many as asked for or as there are.
pub fn part_of(s: &[u8], a: usize, size: usize) -> &[u8]
    ensures { result.now ≡ part s.now a size }
{
    let rest = tail_of(s, a);
    rest.get(..size).unwrap_or(rest)
}

// Past the end nothing is stored.
pub fn put(s: &mut [u8], i: usize, v: u8)
    ensures { s.new ≡ set s.old i v }
{
    if i < s.len() {
        s[i] = v;
    }
}

pub fn clear(s: &mut [u8])
    ensures { s.new ≡ replicate (length s.old) 0 }
{
    s.fill(0);
}

// Copies all of src, where dst has just its length; else nothing.
#[tactic(auto, unfolding(crate::specs::Memory::copied))]
pub fn copy<T: Copy>(dst: &mut [T], src: &[T])
    ensures { dst.new ≡ copied dst.old src.now }
{
    if dst.len() == src.len() {
        dst.copy_from_slice(src);
    }
}
