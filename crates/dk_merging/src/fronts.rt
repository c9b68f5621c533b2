// What stands in front of what is kept.
ghost use Rattle.std.specs.Prelude.{◌≡◌};
ghost use Rattle.dk_merging.specs.Fronts.{begins_kept, front_of};

// Whether a line begins that says what is kept of samples, or the last one.
fn begins_kept(bytes: &[u8]) -> bool
    ensures { result ≡ begins_kept bytes.now }
{
    bytes.starts_with(b"samples ") || bytes.starts_with(b"end-state")
}

/// The bytes in front of the first line of `samples`, or of `end-state` where there is none.
pub(crate) fn front_of(bytes: &[u8]) -> &[u8]
    ensures { result.now ≡ front_of bytes.now }
{
    let mut begins = true;
    for place in 0..bytes.len() {
        if begins && begins_kept(&bytes[place..]) {
            return &bytes[..place];
        }
        begins = bytes[place] == b'\n';
    }
    bytes
}
