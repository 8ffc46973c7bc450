// Numbers as big-endian bytes, read and written. A function a size, and none generic in it: each is one line of the size's own type.
#![tactic(auto)]

ghost use Rattle.std.specs.Prelude.{◌≡◌, ◌+◌, ◌<◌, ◌≤◌, length};
ghost use Rattle.std.proofs.lemmas.List.Edits.{sets};
ghost use Rattle.big_endian.specs.BigEndian.{be_at, be_bytes};

pub fn byte_at(b: &[u8], at: usize) -> u32
    requires { at < length b.now }
    ensures { (result ≡ be_at 1 b.now at) × (result < 256) }
{
    u32::from(b[at])
}

pub fn half_at(b: &[u8], at: usize) -> u32
    requires { at + 2 ≤ length b.now }
    ensures { (result ≡ be_at 2 b.now at) × (result < 65536) }
{
    u32::from(u16::from_be_bytes([b[at], b[at + 1]]))
}

pub fn word_at(b: &[u8], at: usize) -> u32
    requires { at + 4 ≤ length b.now }
    ensures { result ≡ be_at 4 b.now at }
{
    u32::from_be_bytes([b[at], b[at + 1], b[at + 2], b[at + 3]])
}

pub fn put_byte(t: &mut [u8], at: usize, x: u32)
    requires { at < length t.old }
    ensures { t.new ≡ sets t.old at (be_bytes 1 x) }
{
    t[at] = (x % 256) as u8;
}

pub fn put_half(t: &mut [u8], at: usize, x: u32)
    requires { at + 2 ≤ length t.old }
    ensures { t.new ≡ sets t.old at (be_bytes 2 x) }
{
    t[at..at + 2].copy_from_slice(&x.to_be_bytes()[2..]);
}

pub fn put_word(t: &mut [u8], at: usize, x: u32)
    requires { at + 4 ≤ length t.old }
    ensures { t.new ≡ sets t.old at (be_bytes 4 x) }
{
    t[at..at + 4].copy_from_slice(&x.to_be_bytes());
}
