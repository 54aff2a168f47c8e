//! The bytes of rows of bits.

ghost use Rattle.std.specs.Prelude.{◌≡◌, ℕ, ◌+◌, ◌*◌, ◌<◌, ◌≤◌, length};
ghost use Rattle.lis_ports.specs.Bytes.{part};
ghost use Rattle.lis_kept.specs.Rows.{row_bytes};

use lis_ext::Ext;
use lis_limits::BLOCK_LEN;

// Writes the row of a number, which is empty past the last one.
fn write_row(ext: &Ext, number: u32, row: &mut [u8])
    requires whole { 8 * length row.old ≡ length ext.now.sets }
    ensures { row.new ≡ row_bytes ext.now number }
{
    if number < ext.props() {
        ext.row_bytes(number, row);
        return;
    }
    row.fill(0);
}

// More rows than any image has.
const MAX_ROWS: u32 = 2_000_000;

/// Writes `count` rows, from that of a number on.
pub fn write_rows(ext: &Ext, first: u32, width: usize, count: u32, block: &mut [u8])
    requires width { 8 * width ≡ length ext.now.sets }
    requires whole { width * count ≡ BLOCK_LEN }
    requires few { first + count ≤ MAX_ROWS }
    requires block { length block.old ≡ BLOCK_LEN }
    ensures { (k : ℕ) → k < count → part (width * k) width block.new ≡ row_bytes ext.now (first + k) }
{
    for k in 0..count {
        let at = width * k as usize;
        write_row(ext, first + k, &mut block[at..at + width]);
    }
}
