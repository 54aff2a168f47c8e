//! The eight rooms, and their tags.

ghost use Rattle.std.specs.Prelude.{◌≡◌, ◌<◌, Some};
ghost use Rattle.std.specs.Option.{option_map};
ghost use Rattle.lis_line.specs.Tagged.{room_of};

/// One of the eight rooms.
#[derive(Clone, Copy)]
pub struct Room {
    pub number: u8,
    ghost below: { number < 8 },
}

/// The room of a tag: `@` and a digit from 0 to 7, and nothing else.
pub fn room_of(word: &[u8]) -> Option<Room>
    ensures { option_map (λ room. room.number) result ≡ room_of word.now }
{
    match word {
        [b'@', digit @ b'0'..=b'7'] => Some(Room {
            number: *digit - b'0',
        }),
        _ => None,
    }
}
