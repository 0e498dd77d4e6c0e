// A rule text and the buffer for its parts, as it is filled.
ghost use Rattle.std.specs.Prelude.{◌≡◌, [], ◌∷◌, length, replicate};
ghost use Rattle.std.specs.Result.{is_err};
ghost use Rattle.parts.specs.declared.Part.TheVariants.{Blank};
ghost use Rattle.rules.specs.Held.{Holds, Put, room_of};

use list::{Full, List};
use parts::Part;

// The parts of the text so far, and whether there was room for the last of them.
// A full list stays full: reading goes on behind it, since every other refusal comes first.
#[derive(Drop)]
pub struct Sink<'a> {
    pub text: &'a [u8],
    list: List<'a, Part>,
    last: Result<(), Full>,
}

impl<'a> Sink<'a> {
    // Nothing yet, and every slot blank.
    pub fn new(text: &'a [u8], parts: &'a mut [Part]) -> Sink<'a>
        ensures text { result.text ≡ text.entry }
        ensures empty { Holds [] result }
        ensures space { room_of result ≡ length parts.old }
    {
        let mut list = List::new(parts);
        list.blank(Part::Blank);
        Sink {
            text,
            list,
            last: Ok(()),
        }
    }

    // One part more.
    pub fn put(&mut self, part: Part)
        ensures { Put (part ∷ []) self.old self.new }
    {
        self.last = self.list.push(part);
    }

    // Was there no room for a part?
    pub fn is_short(&self) -> bool
        ensures { result ≡ is_err self.now.last }
    {
        self.last.is_err()
    }

    // Every slot blank.
    pub fn blank(&mut self)
        ensures { self.new.list.slots.now ≡ replicate (room_of self.old) Blank }
    {
        self.list.blank(Part::Blank);
    }

    // The buffer, whole.
    pub fn into_parts(self) -> &'a [Part]
        ensures { result.now ≡ self.entry.list.slots.now }
    {
        let Sink {
            text: _,
            list,
            last: _,
        } = self;
        list.into_slots()
    }
}
