//! Where the header of a mail ends.

ghost use Rattle.std.specs.Prelude.{◌≡◌, ◌<◌, ◌≤◌, length};
ghost use Rattle.lis_mail.specs.Header.{begins_line, ends_empty, has_end_from};

// Whether a line begins at this index.
fn begins_line(bytes: &[u8], at: usize) -> bool
    requires { at ≤ length bytes.now }
    ensures { result ≡ begins_line bytes.now at }
{
    at == 0 || bytes[at - 1] == b'\n'
}

// Whether an empty line ends at this index.
fn ends_empty(bytes: &[u8], at: usize) -> bool
    requires { at < length bytes.now }
    ensures { result ≡ ends_empty bytes.now at }
{
    if bytes[at] != b'\n' {
        return false;
    }
    if begins_line(bytes, at) {
        return true;
    }
    bytes[at - 1] == b'\r' && begins_line(bytes, at - 1)
}

/// Whether an empty line, as it ends a header, ends at one of the indexes from `seen` on.
pub fn has_end_from(bytes: &[u8], seen: usize) -> bool
    requires { seen ≤ length bytes.now }
    ensures { result ≡ has_end_from bytes.now seen }
{
    for at in seen..bytes.len() {
        if ends_empty(bytes, at) {
            return true;
        }
    }
    false
}
