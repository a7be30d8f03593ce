// Little-endian numbers of two, four and eight bytes in a row of bytes. Bytes read past the end count as zero.
//
// One function for each size: no trait has from_le_bytes. Two bytes are read as usize, since callers add them to places. What is stored goes in
// halves, as the definition of eight bytes does.
ghost use Rattle.std.specs.Prelude.{◌≡◌, ◌+◌, ◌*◌, ◌^◌, ◌≤◌, ◌<◌, length, get_or};
ghost use Rattle.std.proofs.lemmas.List.Edits.{sets};
ghost use Rattle.base.specs.Bytes.{short_at, long_at, quad_at, short_bytes, long_bytes, quad_bytes};

pub fn byte_at(bytes: &[u8], i: usize) -> u8
    ensures { result ≡ get_or bytes.now i 0 }
{
    bytes.get(i).copied().unwrap_or(0)
}

// Two bytes, both there.
pub fn pair_at(bytes: &[u8], i: usize) -> usize
    requires { i + 2 ≤ length bytes.now }
    ensures { (result ≡ short_at bytes.now i) × (result < 65536) }
{
    usize::from(u16::from_le_bytes([bytes[i], bytes[i + 1]]))
}

// Two bytes.
pub fn short_at(bytes: &[u8], i: usize) -> usize
    ensures { (result ≡ short_at bytes.now i) × (result < 65536) }
{
    if bytes.len() <= i {
        return 0;
    }
    if bytes.len() - i < 2 {
        return usize::from(bytes[i]);
    }
    pair_at(bytes, i)
}

// Four bytes, all of them there.
pub fn whole_at(bytes: &[u8], i: usize) -> u32
    requires { i + 4 ≤ length bytes.now }
    ensures { result ≡ long_at bytes.now i }
{
    u32::from_le_bytes([bytes[i], bytes[i + 1], bytes[i + 2], bytes[i + 3]])
}

// Four bytes. A place in a list is below 2^63, and a longword lies at most seven bytes on.
pub fn long_at(bytes: &[u8], i: usize) -> u32
    requires { i < 2 ^ 63 + 8 }
    ensures { result ≡ long_at bytes.now i }
{
    if i + 4 <= bytes.len() {
        return whole_at(bytes, i);
    }
    u32::from_le_bytes([
        byte_at(bytes, i),
        byte_at(bytes, i + 1),
        byte_at(bytes, i + 2),
        0,
    ])
}

// Eight bytes, all of them there.
pub fn quad_at(bytes: &[u8], i: usize) -> u64
    requires { i + 8 ≤ length bytes.now }
    ensures { result ≡ quad_at bytes.now i }
{
    u64::from_le_bytes([
        bytes[i],
        bytes[i + 1],
        bytes[i + 2],
        bytes[i + 3],
        bytes[i + 4],
        bytes[i + 5],
        bytes[i + 6],
        bytes[i + 7],
    ])
}

// The two low bytes of a number.
pub fn put_short(bytes: &mut [u8], at: usize, v: u32)
    requires { at + 2 ≤ length bytes.old }
    ensures { bytes.new ≡ sets bytes.old at (short_bytes v) }
{
    let [low, high, ..] = v.to_le_bytes();
    bytes[at] = low;
    bytes[at + 1] = high;
}

// Four bytes.
pub fn put_long(bytes: &mut [u8], at: usize, v: u32)
    requires { at + 4 ≤ length bytes.old }
    ensures { bytes.new ≡ sets bytes.old at (long_bytes v) }
{
    put_short(bytes, at, v);
    put_short(bytes, at + 2, v / 65536);
}

// Eight bytes.
pub fn put_quad(bytes: &mut [u8], at: usize, v: u64)
    requires { at + 8 ≤ length bytes.old }
    ensures { bytes.new ≡ sets bytes.old at (quad_bytes v) }
{
    put_long(bytes, at, (v % 4294967296) as u32);
    put_long(bytes, at + 4, (v / 4294967296) as u32);
}
