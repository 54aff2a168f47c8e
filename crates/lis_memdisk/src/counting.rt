//! Counts of faults.

ghost use Rattle.std.specs.Prelude.{◌≡◌, ◌+◌};

// How many calls failed, disk calls and calls that show.
pub fn failed(disk_faults: u64, show_faults: u64) -> u128
    ensures { result ≡ disk_faults + show_faults }
{
    u128::from(disk_faults) + u128::from(show_faults)
}
