//! Fronts of texts.

ghost use Rattle.std.specs.Prelude.{◌≡◌, bytes_eq};
ghost use Rattle.c_token.specs.Line.{TestsFront};

fn is_same(a: &[u8], b: &[u8]) -> bool
    ensures { result ≡ bytes_eq a.now b.now }
{
    a == b
}

/// Whether bytes begin with others.
pub(crate) fn has_front(bytes: &[u8], front: &[u8]) -> bool
    ensures { TestsFront result front.now bytes.now }
{
    if bytes.len() < front.len() {
        return false;
    }
    if !is_same(bytes.split_at(front.len()).0, front) {
        return false;
    }
    true
}
