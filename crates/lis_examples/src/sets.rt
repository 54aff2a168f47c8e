//! Sets of files, as their bytes were worked out by hand.

use lis_fields::{read_set, write_set};

/// How a set of a file begins, behind which all bytes are zero, and the numbers that it spells.
fn sets() -> &'static [(&'static [u8], &'static [u32])] {
    &[
        (b"", &[]),
        (b"\x01", &[0]),
        (b"\x00\x00\x00\x01", &[16_777_215]),
        (b"\xff\xff\xff\xff", &[4_294_967_294]),
        (
            b"\x01\x00\x00\x00\x00\x01\x00\x00\x00\x00\x01",
            &[0, 255, 65_535],
        ),
    ]
}

/// How bytes begin that spell no set: a number below the one before it, a number twice, and bytes behind the first number that is zero.
fn broken_sets() -> &'static [&'static [u8]] {
    &[
        b"\x02\x00\x00\x00\x01",
        b"\x01\x00\x00\x00\x00\x01\x00\x00\xff",
        b"\x02\x00\x00\x00\x02",
        b"\x00\x00\x00\x00\x01",
        b"\x01\x00\x00\x00\x00\x00\x00\x00\x00\x00\x00\x01",
    ]
}

fn with_zeros(start: &[u8]) -> [u8; 512] {
    let mut bytes = [0; 512];
    for (byte, given) in bytes.iter_mut().zip(start) {
        *byte = *given;
    }
    bytes
}

/// Whether the bytes spell these numbers, and are also what is written of them.
fn spells(bytes: &[u8; 512], numbers: &[u32]) -> bool {
    let Some(found) = read_set(bytes) else {
        return false;
    };
    let mut again = [1; 512];
    write_set(found.as_slice(), &mut again);
    found.as_slice() == numbers && again == *bytes
}

#[test]
fn sets_are_read_and_written(rt: HostRuntime) {
    for (start, numbers) in sets() {
        assert!(rt; spells(&with_zeros(start), numbers), "{numbers:?}");
    }
    for start in broken_sets() {
        assert!(rt; read_set(&with_zeros(start)).is_none(), "{start:?}");
    }
}

#[test]
fn sets_have_128_numbers_and_512_bytes(rt: HostRuntime) {
    let mut bytes = [0; 513];
    let mut numbers = [0; 128];
    for k in 0..128 {
        bytes[4 * k] = k as u8 + 1;
        numbers[k] = k as u32;
    }
    let (set, _) = bytes.split_at(512);
    let (short, _) = bytes.split_at(511);
    assert!(rt; read_set(set).is_some_and(|found| found.as_slice() == numbers.as_slice()));
    assert!(rt; read_set(short).is_none() && read_set(&bytes).is_none() && read_set(b"").is_none());
}
