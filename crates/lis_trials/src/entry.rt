//! How a session over an image begins, so that no premise of the headline is empty.

ghost use Rattle.std.specs.Prelude.{◌≡◌, ◌<◌, IsTrue, IfOk, IfSome, Some};
ghost use Rattle.lis_model.specs.Ranges.{are_in_range};
ghost use Rattle.lis_trials.specs.Begun.{left_of, IsBegun};

use lis_memdisk::MemStation;
use lis_model::limits::{Limits, image_blocks};
use lis_open::make;
use lis_ports::MemSource;
use std::alloc::{AllocError, Global};

/// How many bytes a block of an image has.
const BLOCK_LEN: usize = 4_096;

/// A station in memory with an image of the empty state of these limits, which meets the premises of the headline at the start. If `room`
/// is not 0 it keeps a record, so that the headline says something of each moment. The result is `None` if the room is too small for making
/// the image.
pub fn empty_image(
    alloc: Global,
    limits: &Limits,
    room: u64,
) -> Result<Option<MemStation>, AllocError>
    requires { IsTrue (are_in_range limits.now) }
    ensures { IfOk result (λ made. IfSome made (λ station. IsBegun limits.now room station)) }
{
    let len = image_blocks(limits) as usize * BLOCK_LEN;
    let mut station = MemStation::new(alloc, &vec![in alloc; 0; len]?, room)?;
    match make(&mut station, limits) {
        Ok(()) => Ok(Some(station)),
        Err(_) => Ok(None),
    }
}

/// A source in memory of these bytes, which gives at most `step` in one call.
pub fn source_of(bytes: Vec<u8>, step: usize) -> MemSource
    requires { 0 < step }
    ensures { left_of result ≡ Some bytes.items }
{
    MemSource {
        bytes,
        place: 0,
        step,
        fail_at: None,
        faults: 0,
        behind: 0,
    }
}

#[cfg(test)]
mod tests {
    use super::*;
    use std::test::Fail;

    // No clause says that there is room: a body that always returns `None` would be proved.
    #[test]
    fn an_image_is_made_and_recorded_where_there_is_room(rt: HostRuntime) -> Result<(), Fail> {
        let limits = Limits {
            files: 64,
            props: 64,
            blocks: 8,
            version: 1,
        };
        for (room, is_made) in [(1 << 20, true), (1, false)] {
            let made = empty_image(rt.alloc(), &limits, room)?;
            assert!(rt; made.is_some() == is_made, "room {room}");
        }
        Ok(())
    }
}
