ghost use Rattle.std.specs.Prelude.{◌≡◌, ◌+◌, ◌^◌, ◌<◌, ◌≤◌, [], length, fold};
ghost use Rattle.al_lex.specs.Position.{IsAt, IsBounded, step};

use al_base::Place;

/// Where a piece begins in its text.
#[derive(Clone, Copy)]
pub(crate) struct Position {
    /// How many bytes stand before it.
    pub(crate) at: usize,
    pub(crate) place: Place,
    /// Whether only spaces and tabs stand before it on its line.
    pub(crate) fresh: bool,
}

/// The beginning of a text.
pub(crate) fn beginning() -> Position
    ensures { IsAt [] result }
{
    Position {
        at: 0,
        place: Place { line: 1, col: 1 },
        fresh: true,
    }
}

fn behind_byte(here: Position, b: u8) -> Position
    requires bounded { IsBounded here }
    requires room { here.at < 2 ^ 20 }
    ensures value { result ≡ step here b }
    ensures bounded { IsBounded result }
{
    let place = if b == b'\n' {
        Place {
            line: here.place.line + 1,
            col: 1,
        }
    } else {
        Place {
            line: here.place.line,
            col: here.place.col + 1,
        }
    };
    Position {
        at: here.at + 1,
        place,
        fresh: b == b'\n' || (here.fresh && (b == b' ' || b == b'\t')),
    }
}

/// The position behind these bytes, which stand at the position.
pub(crate) fn behind_bytes(here: Position, bytes: &[u8]) -> Position
    requires bounded { IsBounded here }
    requires room { here.at + length bytes.now ≤ 2 ^ 20 }
    ensures { result ≡ fold step here bytes.now }
{
    let mut there = here;
    for b in bytes {
        there = behind_byte(there, *b);
    }
    there
}
