// Bytes as numbers: little-endian numbers in byte slices.
#![tactic(auto)]

ghost use Rattle.std.specs.Prelude.{◌≡◌, ◌+◌, ◌≤◌, ◌<◌, ◌^◌, length};
ghost use Rattle.std.proofs.lemmas.List.Edits.{sets};
ghost use Rattle.model.specs.Bits.{number_at};
ghost use Rattle.words.specs.Digits.{digits, front};

// The N bytes at an offset, and zeros after them.
#[tactic(auto, using(crate::proofs::Bytes::front_is))]
fn front<const N: usize>(s: &[u8], at: usize) -> [u8; 8]
    requires { (at + N ≤ length s.now) × (N ≤ 8) }
    ensures { result ≡ front N s.now at }
{
    let mut bytes = [0; 8];
    bytes[..N].copy_from_slice(&s[at..at + N]);
    bytes
}

// The number of N bytes at an offset.
#[tactic(auto, using(crate::proofs::Bytes::read, crate::proofs::Bytes::same_byte))]
pub fn get<const N: usize>(s: &[u8], at: usize) -> u64
    requires { (at + N ≤ length s.now) × (N ≤ 8) }
    ensures { (result ≡ number_at N s.now at) × (result < 256 ^ N) }
{
    let bytes = front::<N>(s, at);
    u64::from_le_bytes(bytes)
}

// Writes a number of N bytes at an offset, the remainder of a greater one.
#[tactic(auto, using(crate::proofs::Bytes::written))]
pub fn put<const N: usize>(t: &mut [u8], at: usize, v: u64)
    requires { (at + N ≤ length t.old) × (N ≤ 8) }
    ensures { t.new ≡ sets t.old at (digits N v) }
{
    t[at..at + N].copy_from_slice(&v.to_le_bytes()[..N]);
}
