//! A disk, by what a crash may leave of it, and a station: a disk that also shows bytes.

ghost use Rattle.std.specs.Prelude.{◌≡◌, ◌+◌, ◌<◌, ◌≤◌, ℕ, List, length, take, IsTrue, IfOk, OnOk, OnErr, MatchResult};
ghost use Rattle.std.specs.Io.KnownBytes.{append_known};
ghost use Rattle.lis_ports.specs.Meaning.{Meaning, Now, failed};
ghost use Rattle.lis_ports.specs.Bytes.{part};
ghost use Rattle.lis_ports.specs.Calls.{HasCause, IsDiskCall, Elapses, IsUnchanged, IsTorn, IsWritten, IsSynced, IsUnsynced, IsShowCall};

/// A call to the disk, the input or the output failed. The object that was called counted the fault.
#[derive(Clone, Copy, Debug, PartialEq, Eq)]
pub struct Failed;

/// A disk of fixed length. No disk call shows anything.
pub trait Disk {
    /// What the disk reads as, what a crash may leave, its moments and its counts of faults.
    ghost meaning: { Self → Meaning };

    /// How many bytes the disk has.
    fn len(&self) -> u64
        ensures { result ≡ (meaning self.now).len };

    /// Reads as many bytes as the buffer has. A read changes nothing.
    fn read_at(&mut self, at: u64, buf: &mut [u8]) -> Result<(), Failed>
        requires { at + length buf.old ≤ (meaning self.old).len }
        ensures call { IsDiskCall (meaning self.old) (meaning self.new) result }
        ensures same { IsTrue (meaning self.old).is_honest → IsUnchanged (meaning self.old) (meaning self.new) }
        ensures read { OnOk result (IsTrue (meaning self.old).is_honest
            → buf.new ≡ part at (length buf.old) (meaning self.old).bytes) };

    /// Writes over what is there. Until the next sync that succeeds, a crash may leave any bytes in the range.
    fn write_at(&mut self, at: u64, bytes: &[u8]) -> Result<(), Failed>
        requires { at + length bytes.now ≤ (meaning self.old).len }
        ensures call { IsDiskCall (meaning self.old) (meaning self.new) result }
        ensures torn { IsTrue (meaning self.old).is_honest
            → IsTorn at (length bytes.now) (meaning self.old) (meaning self.new) }
        ensures written { OnOk result (IsTrue (meaning self.old).is_honest
            → IsWritten at bytes.now (meaning self.old) (meaning self.new)) };

    /// After a sync that succeeds, a crash leaves the bytes as they read.
    fn sync(&mut self) -> Result<(), Failed>
        ensures call { IsDiskCall (meaning self.old) (meaning self.new) result }
        ensures synced { OnOk result (IsTrue (meaning self.old).is_honest → IsSynced (meaning self.old) (meaning self.new)) }
        ensures unsynced { OnErr result (IsTrue (meaning self.old).is_honest → IsUnsynced (meaning self.old) (meaning self.new)) };

    /// If the disk records its moments, those of now are among those since any earlier time.
    ghost counts_now: { (disk : Self) (t : ℕ) (image bytes : List ℕ) → IsTrue (meaning disk).is_recorded → t ≤ (meaning disk).clock
        → Now (meaning disk) image bytes → (meaning disk).moments t image bytes };

    /// The moments since now are those of now.
    ghost only_now: { (disk : Self) (image bytes : List ℕ) → (meaning disk).moments (meaning disk).clock image bytes → Now (meaning disk) image bytes };

    /// A moment since a later time is one since an earlier time.
    ghost since_earlier: { (disk : Self) (t u : ℕ) (image bytes : List ℕ) → t ≤ u → (meaning disk).moments u image bytes → (meaning disk).moments t image bytes };

    /// If the disk records its images, the bytes as they read are one of them.
    ghost reads_image: { (disk : Self) → IsTrue (meaning disk).is_recorded → (meaning disk).images (meaning disk).bytes };

    /// The bytes as they read are as many as the disk has.
    ghost reads_len: { (disk : Self) → IsTrue (meaning disk).is_honest → length (meaning disk).bytes ≡ (meaning disk).len };

    /// Each image has as many bytes as the disk.
    ghost image_len: { (disk : Self) (image : List ℕ) → IsTrue (meaning disk).is_honest → (meaning disk).images image → length image ≡ (meaning disk).len };
}

/// A disk that also shows bytes, as on an output. Its meaning is that of its disk.
pub trait Station: Disk {
    /// Shows some first bytes of the piece, at least one, and returns how many.
    fn show(&mut self, piece: &[u8]) -> Result<usize, Failed>
        requires { 0 < length piece.now }
        ensures count { IfOk result (λ n. (0 < n) × (n ≤ length piece.now)) }
        ensures call { IsShowCall (Self.meaning self.old) (Self.meaning self.new) }
        ensures time { Elapses (Self.meaning self.old) (Self.meaning self.new) }
        ensures cause { HasCause (Self.meaning self.old).show_faults (Self.meaning self.new).show_faults result }
        ensures began { (Self.meaning self.new).behind ≡ failed (Self.meaning self.old) }
        ensures shown { MatchResult result
            (λ n. (Self.meaning self.new).shown ≡ append_known (Self.meaning self.old).shown (take n piece.now))
            (λ _. (Self.meaning self.new).shown ≡ (Self.meaning self.old).shown) };
}
