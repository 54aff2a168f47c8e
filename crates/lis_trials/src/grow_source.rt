//! Sessions compared with the number of bytes that another program made, which was written separately, and with their sum.

use lis_grow::GrowSource;
use lis_ports::Source;

/// A number, how many bytes its session has, and their sum, each weighted by its position.
static SESSIONS: [(u32, u64, u32); 3] = [
    (0, 35_948, 3_921_030_844),
    (7, 35_948, 1_308_323_982),
    (2_147_483_647, 35_948, 70_290_613),
];

fn measure(n: u32, step: usize) -> (u64, u32) {
    let mut source = GrowSource::new(n);
    let mut buf = [0u8; 100];
    let mut len = 0u64;
    let mut sum = 0u32;
    for _ in 0..100_000 {
        let count = match source.take(&mut buf[..step.clamp(1, 100)]) {
            Ok(count) => count,
            Err(_) => 0,
        };
        if count == 0 {
            return (len, sum);
        }
        len = len.saturating_add(count as u64);
        for byte in &buf[..count] {
            sum = sum.wrapping_mul(31).wrapping_add(u32::from(*byte));
        }
    }
    (0, 0)
}

#[test]
fn sessions_are_those_of_another_program(rt: HostRuntime) {
    for (n, len, sum) in &SESSIONS {
        for step in [1, 7, 100] {
            assert!(rt; measure(*n, step) == (*len, *sum), "{n} by {step}");
        }
    }
}
