//! Reading through joined lines, byte by byte.

ghost use Rattle.std.specs.Prelude.{◌≡◌, ◌<◌, ◌≤◌, [], ◌∷◌, length, MatchOption, IfSome};
ghost use Rattle.lis_transducers.specs.Joined.{joined};
ghost use Rattle.lis_csource.specs.Joints.{joint_len};

/// How many bytes the joint has that the bytes begin with; 0 if they begin with none.
fn joint_len(bytes: &[u8]) -> usize
    ensures value { result ≡ joint_len bytes.now }
    ensures within { result ≤ length bytes.now }
{
    if bytes.len() < 2 || bytes[0] != b'\\' {
        return 0;
    }
    if bytes[1] == b'\n' {
        return 2;
    }
    if bytes.len() > 2 && bytes[1] == b'\r' && bytes[2] == b'\n' {
        return 3;
    }
    0
}

fn past_joints(bytes: &[u8]) -> &[u8]
    ensures same { joined result.now ≡ joined bytes.now }
    ensures none { joint_len result.now ≡ 0 }
    ensures within { length result.now ≤ length bytes.now }
{
    let mut rest = bytes;
    loop {
        let len = joint_len(rest);
        if len == 0 {
            return rest;
        }
        let (_, behind) = rest.split_at(len);
        rest = behind;
    }
}

/// The first byte when the lines are joined, and what follows it.
pub fn next_byte(bytes: &[u8]) -> Option<(u8, &[u8])>
    ensures joined { MatchOption result (joined bytes.now ≡ [])
        (λ found. joined bytes.now ≡ found.0 ∷ joined found.1.now) }
    ensures shorter { IfSome result (λ found. length found.1.now < length bytes.now) }
{
    let rest = past_joints(bytes);
    match rest {
        [] => None,
        [byte, behind @ ..] => Some((*byte, behind)),
    }
}
