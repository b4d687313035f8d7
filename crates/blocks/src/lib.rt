// The block encoding of variable bytes: its constants, the size of each block, and how long a field is.
#![tactic(auto)]

ghost use Rattle.std.specs.Prelude.{◌≡◌, ◌≤◌};
ghost use Rattle.format.specs.Limits.{max_slot};
ghost use Rattle.format.specs.Field.{block_size, padded_length};

// The size of a block.
pub const BLOCK_SIZE: usize = 32;

// The first 32 bytes are split into as many blocks, so that short values take less room.
pub const MINI_BLOCK_COUNT: usize = 4;

// The size of each of those.
pub const MINI_BLOCK_SIZE: usize = BLOCK_SIZE / MINI_BLOCK_COUNT;

// The end byte of a block that more follow.
pub const BLOCK_CONTINUATION: u8 = 0xFF;

// The lead byte of an empty value.
pub const EMPTY_SENTINEL: u8 = 1;

// The lead byte of any other value.
pub const NON_EMPTY_SENTINEL: u8 = 2;

// How many bytes block k holds.
pub fn block_size(k: usize) -> usize
    ensures { result ≡ block_size k }
{
    if k < MINI_BLOCK_COUNT {
        return MINI_BLOCK_SIZE;
    }
    BLOCK_SIZE
}

// The length of the field of a value of `len` bytes.
pub fn padded_length(len: usize) -> usize
    requires { len ≤ max_slot }
    ensures { result ≡ padded_length len }
{
    if len <= BLOCK_SIZE {
        return 1 + (MINI_BLOCK_SIZE + 1) * ((len + 7) / MINI_BLOCK_SIZE);
    }
    MINI_BLOCK_COUNT + (BLOCK_SIZE + 1) * ((len + 31) / BLOCK_SIZE)
}
