// The tests of the sizes that are lent with a warp.
#![tactic(auto)]

ghost use Rattle.std.specs.Prelude.{◌≡◌};
ghost use Rattle.memory.specs.Memories.{contents, memories_ok_of};
ghost use Rattle.definition.specs.State.{memories_in};
ghost use Rattle.definition.specs.Refuse.{runs_ok_of};

use warp::Fixed;

// The most kernel words and data bytes that may be lent, the words of a vector file, and what a base plus a length stays within.
const KERNEL_LIMIT: usize = 16384;

const DATA_LIMIT: usize = 65536;

const FILE_WORDS: usize = 8192;

const ADDRESSES: usize = 0x1_0000_0000;

// The sizes of the data memory and of the local memory, their bases plus lengths, and that they don't overlap.
fn memories_ok(f: Fixed, bytes: &[u8], local: &[u8]) -> bool
    ensures { result ≡ memories_ok_of (memories_in f (contents bytes.now local.now)) }
{
    let size = bytes.len();
    if DATA_LIMIT < size {
        return false;
    }
    let near = local.len();
    if DATA_LIMIT < near {
        return false;
    }
    let d = f.dataBase as usize;
    let l = f.lds as usize;
    (d + size <= ADDRESSES)
        & ((l + near <= ADDRESSES)
            & !(((d < d + size) & (l < l + near)) & ((d < l + near) & (l < d + size))))
}

// The sizes of the lent runs, and the bases plus lengths.
pub fn runs_ok(f: Fixed, kernel: &[u32], vector: &[u32], bytes: &[u8], local: &[u8]) -> bool
    ensures { result ≡ runs_ok_of f kernel.now vector.now (contents bytes.now local.now) }
{
    let words = kernel.len();
    if KERNEL_LIMIT < words {
        return false;
    }
    (1 <= words)
        & ((f.codeBase as usize + 4 * words <= ADDRESSES)
            & ((vector.len() == FILE_WORDS) & memories_ok(f, bytes, local)))
}
