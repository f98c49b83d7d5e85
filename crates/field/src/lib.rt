// Big-endian fields in a slice of bytes: read, written and cleared. A read takes up to 8 bytes; a
// write takes a 64-bit number and any width. The caller shows that the field is inside the
// slice, and nothing else is assumed.
#![tactic(auto)]

ghost use Rattle.std.specs.Prelude.{◌≡◌, true, ℕ, ◌+◌, ◌-◌, ◌^◌, ◌≤◌, ◌<◌, length};
ghost use Rattle.std.proofs.lemmas.List.Edits.{sets};
ghost use Rattle.field.specs.Field.{field_at, put_field, cleared, Zeros};

// The number in four bytes, such as a field of the head. It has no loop, so that the compiler
// makes one load of it.
pub fn read4(s: &[u8], at: usize) -> u32
    requires { at + 4 ≤ length s.now }
    ensures { result ≡ field_at s.now at 4 }
{
    u32::from_be_bytes([s[at], s[at + 1], s[at + 2], s[at + 3]])
}

// The number in 1 to 4 bytes, such as those of a character. It has no loop, and no `match` on w
// with `from_be_bytes`: for one byte, as most characters have, that took five instructions more.
pub fn read_few(s: &[u8], at: usize, w: usize) -> u32
    requires { (1 ≤ w) × (w ≤ 4) × (at + w ≤ length s.now) }
    ensures { result ≡ field_at s.now at w }
{
    let one = u32::from(s[at]);
    if w == 1 {
        return one;
    }
    let two = one * 256 + u32::from(s[at + 1]);
    if w == 2 {
        return two;
    }
    let three = two * 256 + u32::from(s[at + 2]);
    if w == 3 {
        return three;
    }
    three * 256 + u32::from(s[at + 3])
}

// The number in the w bytes that end at `end`, where the mask is 256^w - 1. It loads eight bytes
// for every width, so that a caller who reads many fields has neither a loop nor a branch for
// the width. The caller shows that there are eight bytes before `end`. The compiler makes one
// load of the two halves, and of the last half alone where the mask has 32 bits.
pub fn load_masked(s: &[u8], end: usize, mask: u64) -> u64
    requires { (8 ≤ end) × (end ≤ length s.now) }
    ensures field { (w : ℕ) → w ≤ 8 → mask + 1 ≡ 256 ^ w
        → result ≡ field_at s.now (end - w) w }
    ensures most { result ≤ mask }
{
    let high = read4(s, end - 8) as u64;
    let low = read4(s, end - 4) as u64;
    (high * 4294967296 + low) & mask
}

// True only if the bytes from `from` up to `to` are all 0. It answers false for fewer than eight
// bytes, and the caller then reads them. It compares the first sixteen bytes, the last sixteen,
// then those between, sixteen in each turn. It compares all of them with the first eight, and
// only these with 0, since the compiler makes one comparison of that.
pub fn blank(s: &[u8], from: usize, to: usize) -> bool
    requires { (from ≤ to) × (to ≤ length s.now) }
    ensures { result ≡ true → Zeros s.now from to }
{
    if to < from + 16 {
        return short_blank(s, from, to);
    }
    let first = eight(s, from);
    if eight(s, from + 8) != first {
        return false;
    }
    if eight(s, to - 16) != first {
        return false;
    }
    if eight(s, to - 8) != first {
        return false;
    }
    // A loop of its own: measured over 28 to 40 bytes, an `or` of all bytes takes about twice as
    // long and `all` six times.
    let mut at = from + 16;
    while at + 16 < to {
        if eight(s, at) != first {
            return false;
        }
        if eight(s, at + 8) != first {
            return false;
        }
        at += 16;
    }
    first == 0
}

// The same for fewer than sixteen bytes: the first eight and the last eight cover all of them.
fn short_blank(s: &[u8], from: usize, to: usize) -> bool
    requires { (from ≤ to) × (to < from + 16) × (to ≤ length s.now) }
    ensures { result ≡ true → Zeros s.now from to }
{
    if to < from + 8 {
        return false;
    }
    let first = eight(s, from);
    if eight(s, to - 8) != first {
        return false;
    }
    first == 0
}

// Eight bytes as one number, the last byte the most significant. The contract covers only the
// result 0.
fn eight(s: &[u8], at: usize) -> u64
    requires { at + 8 ≤ length s.now }
    ensures { result ≡ 0 → field_at s.now at 8 ≡ 0 }
{
    u64::from_le_bytes([
        s[at],
        s[at + 1],
        s[at + 2],
        s[at + 3],
        s[at + 4],
        s[at + 5],
        s[at + 6],
        s[at + 7],
    ])
}

// Writes v into the w bytes from `at` on, the last byte first. What does not fit the width is
// lost. By index: after a loop over `iter_mut().rev()` a proof knows nothing of the bytes.
pub fn write(s: &mut [u8], at: usize, w: usize, v: u64)
    requires { at + w ≤ length s.old }
    ensures { s.new ≡ put_field s.old at w v }
{
    let mut x = v;
    for i in (0..w).rev() {
        s[at + i] = (x % 256) as u8;
        x /= 256;
    }
}

// Sets n bytes from `at` on to 0. A loop of its own, of which the compiler makes one memset: the
// library's `fill` writes the last byte apart, which costs seven instructions for each new node.
pub fn clear(s: &mut [u8], at: usize, n: usize)
    requires { at + n ≤ length s.old }
    ensures { s.new ≡ cleared s.old at n }
{
    for i in 0..n {
        s[at + i] = 0;
    }
}

// Copies all of `from` into s, from `at` on. A loop of its own: the library's `copy_from_slice`
// calls memmove where the compiler can't tell that the two don't overlap, and a bench is promised
// that it needs memcpy and memset alone.
pub fn copy(s: &mut [u8], at: usize, from: &[u8])
    requires { at + length from.now ≤ length s.old }
    ensures { s.new ≡ sets s.old at from.now }
{
    for (i, &byte) in from.iter().enumerate() {
        s[at + i] = byte;
    }
}
