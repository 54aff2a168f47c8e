//! Showing many small pieces in few calls.

ghost use Rattle.std.specs.Prelude.{◌≡◌, ◌+◌, ◌≤◌, [], ◌++◌, length, OnOk};
ghost use Rattle.arrayvec.specs.ArrayVec.{array_vec_len};
ghost use Rattle.lis_session.specs.Parts.{Answers};
ghost use Rattle.lis_parts.specs.Showing.{Says};

use arrayvec::ArrayVec;
use lis_ports::Station;
use lis_session::end::End;
use lis_session::replies::answer_bytes;

/// The most bytes that are kept.
const ROOM: usize = 8_192;

/// Bytes to be shown, which are kept until there is no room for more.
pub type Outgoing = ArrayVec<u8, ROOM>;

/// Shows the bytes that are kept.
pub fn flush<T: Station>(station: &mut T, kept: &mut Outgoing) -> Result<(), End>
    ensures shows { Answers (T.meaning station.old) (T.meaning station.new) kept.old.items result }
    ensures empty { OnOk result (kept.new.items ≡ []) }
{
    answer_bytes(station, kept.as_slice())?;
    kept.clear();
    Ok(())
}

fn keep(kept: &mut Outgoing, bytes: &[u8])
    requires { array_vec_len kept.old + length bytes.now ≤ ROOM }
    ensures { kept.new.items ≡ kept.old.items ++ bytes.now }
{
    kept.try_extend_from_slice(bytes).unwrap();
}

/// Appends the bytes to those that are kept, and shows those for which there is no room.
pub fn say<T: Station>(station: &mut T, kept: &mut Outgoing, bytes: &[u8]) -> Result<(), End>
    ensures { Says (T.meaning station.old) (T.meaning station.new) kept.old.items kept.new.items bytes.now result }
{
    if bytes.len() <= kept.remaining_capacity() {
        keep(kept, bytes);
        return Ok(());
    }
    flush(station, kept)?;
    if bytes.len() > ROOM {
        return answer_bytes(station, bytes);
    }
    keep(kept, bytes);
    Ok(())
}
