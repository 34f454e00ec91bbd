// The exported calls under their C names: each is the call of `exports` under the same clause, and does nothing else.
#![tactic(auto)]

ghost use Rattle.std.specs.Prelude.{◌≡◌};
ghost use Rattle.exports.specs.Numbers.{version};
ghost use Rattle.exports.specs.Calls.{read_bytes, WriteOwes, WriteMovedOwes, ClockOwes, LoadOwes, HeaderOwes, DigitsOwes, PagesOwes};

#[unsafe(no_mangle)]
pub extern "C" fn biekkarul_read<'a>(
    state: &[u8],
    image: &'a [u8],
    prg: &[u8],
    chr: &'a [u8],
    address: u16,
) -> u16
    ensures { result ≡ read_bytes state.now image.now prg.now chr.now address }
{
    exports::biekkarul_read(state, image, prg, chr, address)
}

#[unsafe(no_mangle)]
pub extern "C" fn biekkarul_write(
    state: &mut [u8],
    image: &[u8],
    prg: &mut [u8],
    chr: &mut [u8],
    address: u16,
    value: u8,
) -> u16
    ensures { WriteOwes state.old image.now prg.old chr.old address value result state.new prg.new chr.new }
{
    exports::biekkarul_write(state, image, prg, chr, address, value)
}

#[unsafe(no_mangle)]
pub extern "C" fn biekkarul_write_moved(
    state: &mut [u8],
    image: &[u8],
    prg: &mut [u8],
    chr: &mut [u8],
    address: u16,
    value: u8,
) -> u32
    ensures { WriteMovedOwes state.old image.now prg.old chr.old address value result state.new prg.new chr.new }
{
    exports::biekkarul_write_moved(state, image, prg, chr, address, value)
}

#[unsafe(no_mangle)]
pub extern "C" fn biekkarul_clock(state: &mut [u8]) -> u16
    ensures { ClockOwes state.old result state.new }
{
    exports::biekkarul_clock(state)
}

#[unsafe(no_mangle)]
pub extern "C" fn biekkarul_load(
    image: &[u8],
    mode: u8,
    state: &mut [u8],
    prg: &mut [u8],
    chr: &mut [u8],
) -> u16
    ensures { LoadOwes image.now mode state.old prg.old chr.old result state.new prg.new chr.new }
{
    exports::biekkarul_load(image, mode, state, prg, chr)
}

#[unsafe(no_mangle)]
pub extern "C" fn biekkarul_digits(state: &[u8], digits: &mut [u64]) -> u16
    ensures { DigitsOwes state.now digits.old result digits.new }
{
    exports::biekkarul_digits(state, digits)
}

#[unsafe(no_mangle)]
pub extern "C" fn biekkarul_pages(
    state: &[u8],
    first: u8,
    reads: &mut [u32],
    writes: &mut [u32],
) -> u16
    ensures { PagesOwes state.now first reads.old writes.old result reads.new writes.new }
{
    exports::biekkarul_pages(state, first, reads, writes)
}

#[unsafe(no_mangle)]
pub extern "C" fn biekkarul_header(image: &[u8], fields: &mut [u8]) -> u16
    ensures { HeaderOwes image.now fields.old result fields.new }
{
    exports::biekkarul_header(image, fields)
}

#[unsafe(no_mangle)]
pub extern "C" fn biekkarul_version() -> u32
    ensures { result ≡ version }
{
    exports::biekkarul_version()
}
