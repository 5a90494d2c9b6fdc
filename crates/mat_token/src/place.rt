//! How places move along a text.

ghost use Rattle.std.specs.Prelude.{◌≡◌, ◌+◌, ◌<◌, ◌≤◌, ◌^◌, length};
ghost use Rattle.mat_token.specs.Reads.{next_place, place_after};

use fic_base::Place;

/// The place one byte on.
fn next_place(at: Place, b: u8) -> Place
    requires offset { at.offset < 2 ^ 31 }
    requires line { at.line < 2 ^ 31 }
    requires col { at.col < 2 ^ 31 }
    ensures exact { result ≡ next_place at b }
    ensures line { result.line ≤ at.line + 1 }
    ensures col { result.col ≤ at.col + 1 }
{
    if b == b'\n' {
        Place {
            offset: at.offset + 1,
            line: at.line + 1,
            col: 1,
        }
    } else {
        Place {
            offset: at.offset + 1,
            line: at.line,
            col: at.col + 1,
        }
    }
}

/// The place behind a text.
pub(crate) fn place_after(at: Place, text: &[u8]) -> Place
    requires offset { at.offset + length text.now < 2 ^ 31 }
    requires line { at.line + length text.now < 2 ^ 31 }
    requires col { at.col + length text.now < 2 ^ 31 }
    ensures exact { result ≡ place_after at text.now }
    ensures offset { result.offset ≡ at.offset + length text.now }
    ensures line { result.line ≤ at.line + length text.now }
    ensures col { result.col ≤ at.col + length text.now }
{
    let mut place = at;
    for b in text {
        place = next_place(place, *b);
    }
    place
}
