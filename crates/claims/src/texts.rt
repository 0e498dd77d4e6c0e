// The text of a claim, held by where it lies.
ghost use Rattle.std.specs.Prelude.{◌≡◌, ◌*◌, ◌<◌, length, IfSome};
ghost use Rattle.std.specs.Option.{option_map};
ghost use Rattle.claims.specs.Texts.{source_of, start_of, part_of};

// The two texts that a claim's text may lie in.
#[derive(Clone, Copy, PartialEq, Eq, Debug, Default)]
pub enum Origin {
    #[default]
    Rules,
    Packet,
}

// Places count from 0, by units in the rule text and by bytes in the packet; the length counts units.
#[derive(Clone, Copy, PartialEq, Eq, Debug, Default)]
pub struct Text {
    pub origin: Origin,
    pub place: u16,
    pub len: u16,
}

// A text as it is handed out: its bytes, and where they lie.
#[derive(Clone, Copy, PartialEq, Eq, Debug)]
pub struct Part<'a> {
    pub bytes: &'a [u8],
    pub origin: Origin,
    pub place: u16,
}

// The rule text and the packet, in which the texts of claims lie.
#[derive(Clone, Copy)]
pub struct Texts<'a> {
    pub rules: &'a [u8],
    pub packet: &'a [u8],
}

impl<'a> Texts<'a> {
    fn of(&self, origin: Origin) -> &'a [u8]
        ensures { result.now ≡ source_of self.now.rules.now self.now.packet.now origin }
    {
        match origin {
            Origin::Rules => self.rules,
            Origin::Packet => self.packet,
        }
    }

    // The text as a part of the rule text or of the packet, or none where it lies outside.
    pub fn part(&self, text: Text) -> Option<Part<'a>>
        ensures bytes { option_map (λ p. p.bytes.now) result ≡ part_of self.now.rules.now self.now.packet.now text }
        ensures size { IfSome result (λ p. (length p.bytes.now ≡ 2 * text.len) × (text.len < 65536)) }
        ensures place { IfSome result (λ p. (p.origin ≡ text.origin) × (p.place ≡ text.place)) }
    {
        let from = start(text);
        let to = from + 2 * usize::from(text.len);
        let bytes = self.of(text.origin).get(from..to)?;
        Some(Part {
            bytes,
            origin: text.origin,
            place: text.place,
        })
    }
}

fn start(text: Text) -> usize
    ensures { result ≡ start_of text }
{
    match text.origin {
        Origin::Rules => 2 * usize::from(text.place),
        Origin::Packet => usize::from(text.place),
    }
}
