// A cursor reads its text word by word, and has the next word read already.
mod steps;
mod stops;

use super::ahead::Ahead;

// Of its text it reads the first 65535 units, so that every place is a u16.
#[derive(Drop)]
pub struct Cursor<'a> {
    text: &'a [u8],
    ahead: Ahead,
}
