//! Bytes written into the middle of others, whole or as a crash leaves them.

ghost use Rattle.std.specs.Prelude.{◌≡◌, ◌+◌, ◌^◌, ◌<◌, ◌≤◌, length, vec_len};
ghost use Rattle.lis_ports.specs.Bytes.{part, put};
ghost use Rattle.lis_memdisk.specs.Changes.{picked, picked_byte};

/// Writes the bytes at a place.
pub fn overwrite(all: &mut [u8], place: usize, bytes: &[u8])
    requires { place + length bytes.now ≤ length all.old }
    ensures { all.new ≡ put all.old place bytes.now }
{
    let (_, behind) = all.split_at_mut(place);
    let (range, _) = behind.split_at_mut(bytes.len());
    range.copy_from_slice(bytes);
}

/// The same for a vector.
pub fn overwrite_vec(all: &mut Vec<u8>, place: usize, bytes: &[u8])
    requires { place + length bytes.now ≤ vec_len all.old }
    ensures bytes { all.new.items ≡ put all.old.items place bytes.now }
    ensures len { vec_len all.new ≡ vec_len all.old }
{
    overwrite(all, place, bytes);
}

/// Writes what a crash leaves of each byte.
pub fn tear(all: &mut [u8], place: usize, bytes: &[u8], pick: u8)
    requires { place + length bytes.now ≤ length all.old }
    ensures { all.new ≡ put all.old place (picked pick place bytes.now (part place (length bytes.now) all.old)) }
{
    let (_, behind) = all.split_at_mut(place);
    let (range, _) = behind.split_at_mut(bytes.len());
    pick_bytes(range, place, bytes, pick);
}

// Replaces each byte by what a crash leaves of it.
fn pick_bytes(range: &mut [u8], place: usize, bytes: &[u8], pick: u8)
    requires same_len { length bytes.now ≡ length range.old }
    requires fits { place + length bytes.now < 2 ^ 64 }
    ensures { range.new ≡ picked pick place bytes.now range.old }
{
    for (i, new) in bytes.iter().enumerate() {
        range[i] = pick_byte(pick, place + i, *new, range[i]);
    }
}

fn pick_byte(pick: u8, at: usize, new: u8, old: u8) -> u8
    ensures { result ≡ picked_byte pick at new old }
{
    if pick == 0 {
        return old;
    }
    if pick == 1 {
        return new;
    }
    if pick == 2 {
        return if at % 2 == 0 { new } else { old };
    }
    pick
}
