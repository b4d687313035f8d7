// Words of 8, 16, 32 and 64 bits, which stand in memory low byte first: what differs by width is here, and all else is generic over it.
#![tactic(auto)]

ghost use Rattle.std.specs.Prelude.{◌≡◌, ℕ, ◌+◌, ◌*◌, ◌/◌, ◌^◌, ◌<◌, ◌≤◌, cond, reverse, length, take, drop, replicate, refl};
ghost use Rattle.std.proofs.lemmas.List.Edits.{sets};
ghost use Rattle.format.specs.Lists.{low, low_bytes};

pub trait Word: Copy {
    // The number that a word is.
    ghost value: { Self → ℕ };

    // How many bytes it has; its top bit, alone; and all its bits.
    ghost SIZE: { ℕ };

    ghost TOP: { ℕ };

    ghost ALL: { ℕ };

    const SIZE: usize;

    const TOP: u64;

    const ALL: u64;

    // The word at a place of s. It is read from the front of what stands from there on, where the optimiser joins its bytes into one load.
    fn low(s: &[u8], at: usize) -> Self
        requires { at + SIZE ≤ length s.now }
        ensures { value result ≡ low (take SIZE (drop at s.now)) };

    // Stored from a place of out on.
    fn put(self, out: &mut [u8], at: usize)
        requires { at + SIZE ≤ length out.old }
        ensures { out.new ≡ sets out.old at (low_bytes SIZE (value self)) };

    // Its bytes turned round.
    fn swap(self) -> Self
        ensures { low_bytes SIZE (value result) ≡ reverse (low_bytes SIZE (value self)) };

    // All bits where the top one is set, and else none: its signed pattern, shifted down arithmetically by all bits but one.
    fn sign(self) -> Self
        ensures { value result ≡ value self / TOP * ALL };

    // As a number of 64 bits, in which it is computed, and back.
    fn number(self) -> u64
        ensures same { result ≡ value self }
        ensures fits { result < 256 ^ SIZE };

    fn of(x: u64) -> Self
        requires { x < 256 ^ SIZE }
        ensures { value result ≡ x };

    // The top bit is half of what the bytes can spell, and all bits the last of it.
    ghost halves: { TOP + TOP ≡ 256 ^ SIZE };

    ghost all: { ALL + 1 ≡ 256 ^ SIZE };
}

// The word, or 0. Which of them is no branch.
#[tactic(auto, using(crate::proofs::Words::zeros))]
pub fn or_zero<W: Word>(keep: bool, x: W) -> W
    ensures { low_bytes W.SIZE (W.value result) ≡ cond keep (low_bytes W.SIZE (W.value x)) (replicate W.SIZE 0) }
{
    W::of(if keep { x.number() } else { 0 })
}

impl Word for u8 {
    ghost value = { λ x. x };

    ghost SIZE = { 1 };

    ghost TOP = { 128 };

    ghost ALL = { 255 };

    ghost halves = { refl };

    ghost all = { refl };

    const SIZE: usize = 1;

    const TOP: u64 = 128;

    const ALL: u64 = 255;

    fn low(s: &[u8], at: usize) -> u8 {
        s[at]
    }

    fn put(self, out: &mut [u8], at: usize) {
        out[at] = self;
    }

    fn swap(self) -> u8 {
        self
    }

    fn sign(self) -> u8 {
        (self.cast_signed() >> 7).cast_unsigned()
    }

    fn number(self) -> u64 {
        self as u64
    }

    fn of(x: u64) -> u8 {
        x as u8
    }
}

impl Word for u16 {
    ghost value = { λ x. x };

    ghost SIZE = { 2 };

    ghost TOP = { 0x8000 };

    ghost ALL = { 0xffff };

    ghost halves = { refl };

    ghost all = { refl };

    const SIZE: usize = 2;

    const TOP: u64 = 0x8000;

    const ALL: u64 = 0xffff;

    fn low(s: &[u8], at: usize) -> u16 {
        let word = &s[at..];
        u16::from_le_bytes([word[0], word[1]])
    }

    fn put(self, out: &mut [u8], at: usize) {
        out[at..at + 2].copy_from_slice(&self.to_le_bytes());
    }

    fn swap(self) -> u16 {
        self.swap_bytes()
    }

    fn sign(self) -> u16 {
        (self.cast_signed() >> 15).cast_unsigned()
    }

    fn number(self) -> u64 {
        self as u64
    }

    fn of(x: u64) -> u16 {
        x as u16
    }
}

impl Word for u32 {
    ghost value = { λ x. x };

    ghost SIZE = { 4 };

    ghost TOP = { 0x8000_0000 };

    ghost ALL = { 0xffff_ffff };

    ghost halves = { refl };

    ghost all = { refl };

    const SIZE: usize = 4;

    const TOP: u64 = 0x8000_0000;

    const ALL: u64 = 0xffff_ffff;

    fn low(s: &[u8], at: usize) -> u32 {
        let word = &s[at..];
        u32::from_le_bytes([word[0], word[1], word[2], word[3]])
    }

    fn put(self, out: &mut [u8], at: usize) {
        out[at..at + 4].copy_from_slice(&self.to_le_bytes());
    }

    fn swap(self) -> u32 {
        self.swap_bytes()
    }

    fn sign(self) -> u32 {
        (self.cast_signed() >> 31).cast_unsigned()
    }

    fn number(self) -> u64 {
        self as u64
    }

    fn of(x: u64) -> u32 {
        x as u32
    }
}

impl Word for u64 {
    ghost value = { λ x. x };

    ghost SIZE = { 8 };

    ghost TOP = { 0x80000000_00000000 };

    ghost ALL = { 0xffffffff_ffffffff };

    ghost halves = { refl };

    ghost all = { refl };

    const SIZE: usize = 8;

    const TOP: u64 = 0x80000000_00000000;

    const ALL: u64 = 0xffffffff_ffffffff;

    fn low(s: &[u8], at: usize) -> u64 {
        let word = &s[at..];
        u64::from_le_bytes([
            word[0], word[1], word[2], word[3], word[4], word[5], word[6], word[7],
        ])
    }

    fn put(self, out: &mut [u8], at: usize) {
        out[at..at + 8].copy_from_slice(&self.to_le_bytes());
    }

    fn swap(self) -> u64 {
        self.swap_bytes()
    }

    fn sign(self) -> u64 {
        (self.cast_signed() >> 63).cast_unsigned()
    }

    fn number(self) -> u64 {
        self
    }

    fn of(x: u64) -> u64 {
        x
    }
}
