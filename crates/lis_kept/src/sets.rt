//! The bytes of sets.

ghost use Rattle.std.specs.Prelude.{◌≡◌, ℕ, ◌+◌, ◌*◌, ◌<◌, ◌≤◌, length};
ghost use Rattle.lis_ports.specs.Bytes.{part};
ghost use Rattle.lis_fields.specs.Layouts.{set_bytes};
ghost use Rattle.lis_ext.specs.Ext.{set_of};

use lis_ext::Ext;
use lis_fields::write_set;
use lis_limits::{BLOCK_LEN, SET_LEN, SETS_PER_BLOCK, V3_MAX_FILES};

/// Writes the sets of the files from a slot on, as many as a block has.
pub fn write_sets(ext: &Ext, first: u32, block: &mut [u8])
    requires within { first + SETS_PER_BLOCK ≤ length ext.now.sets }
    requires few { first ≤ V3_MAX_FILES }
    requires block { length block.old ≡ BLOCK_LEN }
    ensures { (k : ℕ) → k < SETS_PER_BLOCK → part (SET_LEN * k) SET_LEN block.new ≡ set_bytes (set_of ext.now (first + k)) }
{
    for k in 0..SETS_PER_BLOCK {
        let at = SET_LEN * k as usize;
        write_set(ext.numbers(first + k), &mut block[at..at + SET_LEN]);
    }
}
