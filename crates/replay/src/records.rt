// The recorded file, read from its first byte on. Its numbers are big-endian, and past its end there are zeros.
#[derive(Drop)]
pub struct Records<'a> {
    file: &'a [u8],
    at: usize,
}

impl<'a> Records<'a> {
    pub fn new(file: &'a [u8]) -> Self {
        Records { file, at: 0 }
    }

    // The next bytes, as many as there are; the place moves on by as many as were asked for.
    pub fn bytes(&mut self, count: usize) -> &'a [u8] {
        let rest = self.file.get(self.at..).unwrap_or(&[]);
        self.at = self.at.saturating_add(count);
        rest.get(..count).unwrap_or(rest)
    }

    pub fn array<const N: usize>(&mut self) -> [u8; N] {
        let mut array = [0; N];
        for (to, from) in array.iter_mut().zip(self.bytes(N)) {
            *to = *from;
        }
        array
    }

    pub fn byte(&mut self) -> u8 {
        u8::from_be_bytes(self.array())
    }

    pub fn two(&mut self) -> u16 {
        u16::from_be_bytes(self.array())
    }

    pub fn four(&mut self) -> u32 {
        u32::from_be_bytes(self.array())
    }

    pub fn is_at_end(&self) -> bool {
        self.at == self.file.len()
    }
}
