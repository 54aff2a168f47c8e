//! The header of a record: how many contents it has, and their homes.

ghost use Rattle.std.specs.Prelude.{◌≡◌, ◌+◌, ◌*◌, ◌<◌, ◌≤◌, ◌==◌, ◌^◌, nat_le, take, length, IsTrue};
ghost use Rattle.std.specs.Int.{w32, to_le_bytes};
ghost use Rattle.std.specs.List.{list_all};
ghost use Rattle.lis_ports.specs.Bytes.{put};
ghost use Rattle.lis_journal.specs.Record.{word, words, rises, is_header, homes_of, homes, count_of, header_blocks, record_len, homes_start};

use crate::layout::Layout;
use crate::stage::Stage;
use lis_limits::BLOCK_LEN;

/// How many blocks the header of a record of `count` homes has.
pub fn header_blocks(count: u32) -> u32
    ensures { result ≡ header_blocks count }
{
    count / (BLOCK_LEN as u32 / 4) + 1
}

/// How many bytes that header has.
pub fn header_len(count: u32) -> usize
    ensures { result ≡ BLOCK_LEN * header_blocks count }
{
    header_blocks(count) as usize * BLOCK_LEN
}

/// How many blocks such a record has.
pub fn record_len(count: u32) -> u32
    requires { record_len count < 2 ^ 32 }
    ensures { result ≡ record_len count }
{
    header_blocks(count) + count
}

/// Whether a record of `count` homes that begins at this block ends before the home blocks.
pub fn has_end(layout: Layout, first: u32, count: u32) -> bool
    requires { homes_start layout < 2 ^ 32 }
    ensures { result ≡ nat_le (first + record_len count) (homes_start layout) }
{
    let end = u64::from(first) + u64::from(header_blocks(count)) + u64::from(count);
    end <= u64::from(layout.homes_start())
}

/// A number of a header.
pub fn word(header: &[u8], k: usize) -> u32
    requires { 4 * k + 4 ≤ length header.now }
    ensures { result ≡ word k header.now }
{
    let (_, behind) = header.split_at(4 * k);
    let (range, _) = behind.split_at(4);
    let mut bytes = [0; 4];
    bytes.copy_from_slice(range);
    u32::from_le_bytes(bytes)
}

fn put_word(header: &mut [u8], k: usize, value: u32)
    requires { 4 * k + 4 ≤ length header.old }
    ensures { header.new ≡ put header.old (4 * k) (to_le_bytes w32 value) }
{
    let (_, behind) = header.split_at_mut(4 * k);
    let (range, _) = behind.split_at_mut(4);
    range.copy_from_slice(&value.to_le_bytes());
}

/// Writes the header of a record of all staged blocks.
pub fn write_header(header: &mut [u8], stage: &Stage)
    requires { length header.old ≡ BLOCK_LEN * header_blocks (length stage.now.entries) }
    ensures form { 0 < length stage.now.entries → IsTrue (is_header stage.now.layout header.new) }
    ensures homes { homes_of header.new ≡ homes stage.now.entries }
{
    let count = stage.len();
    header.fill(0);
    put_word(header, 0, count as u32);
    for k in 0..count {
        put_word(header, k + 1, stage.home(k));
    }
}

/// Writes that header into the first bytes of `front`.
pub fn write_front(front: &mut [u8], stage: &Stage)
    requires { BLOCK_LEN * header_blocks (length stage.now.entries) ≤ length front.old }
    ensures form { 0 < length stage.now.entries
        → IsTrue (is_header stage.now.layout (take (BLOCK_LEN * header_blocks (length stage.now.entries)) front.new)) }
    ensures homes { homes_of (take (BLOCK_LEN * header_blocks (length stage.now.entries)) front.new) ≡ homes stage.now.entries }
{
    let len = header_len(stage.len() as u32);
    write_header(&mut front[..len], stage);
}

/// Whether a header has this count and is well formed.
pub fn is_header(header: &[u8], layout: Layout, count: u32) -> bool
    requires len { length header.now ≡ BLOCK_LEN * header_blocks count }
    requires records { layout.records + 1 < 2 ^ 32 }
    ensures count { IsTrue result → count_of header.now ≡ count }
    ensures form { count_of header.now ≡ count → result ≡ is_header layout header.now }
{
    if word(header, 0) != count {
        return false;
    }
    let count = count as usize;
    if count == 0 {
        return false;
    }
    rise(header, layout, count) && are_zeros(&header[4 * (count + 1)..])
}

// Whether the homes of a header rise.
fn rise(header: &[u8], layout: Layout, count: usize) -> bool
    requires len { 4 * count + 4 ≤ length header.now }
    requires records { layout.records + 1 < 2 ^ 32 }
    ensures { result ≡ rises layout.blocks (layout.records + 1) (words 1 count header.now) }
{
    let mut last = layout.records + 1;
    for k in 1..count + 1 {
        let home = word(header, k);
        if home <= last {
            return false;
        }
        if home >= layout.blocks {
            return false;
        }
        last = home;
    }
    true
}

fn are_zeros(bytes: &[u8]) -> bool
    ensures { result ≡ list_all (λ b. b == 0) bytes.now }
{
    bytes.iter().all(|b| *b == 0)
}
