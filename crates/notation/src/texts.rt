// Text as units in bytes, high byte first: whole units and nothing else.
ghost use Rattle.std.specs.Prelude.{◌≡◌, [], ◌∷◌, ◌++◌, IfOk, OnOk, OnErr};
ghost use Rattle.units.specs.Units.{units, unit_bytes};
ghost use Rattle.notation.specs.Letters.{utf16, spelling};

use std::alloc::{AllocError, Global};

#[derive(Drop)]
pub struct UnitText {
    bytes: Vec<u8>,
    pub ghost whole: { bytes.items ≡ unit_bytes (units bytes.items) },
}

impl UnitText {
    pub fn new(heap: Global) -> UnitText
        ensures { result.bytes.items ≡ [] }
    {
        UnitText {
            bytes: Vec::new(heap),
        }
    }

    pub fn bytes(&self) -> &[u8]
        ensures { result.now ≡ self.now.bytes.items }
    {
        self.bytes.as_slice()
    }

    // One unit more; where memory fails, nothing more.
    pub fn push_unit(&mut self, unit: u16) -> Result<(), AllocError>
        ensures more { OnOk result (self.new.bytes.items ≡ self.old.bytes.items ++ unit_bytes (unit ∷ [])) }
        ensures same { OnErr result (self.new.bytes.items ≡ self.old.bytes.items) }
    {
        self.bytes.extend_from_slice(&unit.to_be_bytes())
    }

    // A character's units more.
    pub fn push_char(&mut self, c: char) -> Result<(), AllocError>
        ensures { OnOk result (self.new.bytes.items ≡ self.old.bytes.items ++ unit_bytes (utf16 c)) }
    {
        let mut pair = [0; 2];
        for unit in c.encode_utf16(&mut pair).iter() {
            self.push_unit(*unit)?;
        }
        Ok(())
    }

    // Another text's units more; where memory fails, nothing more.
    pub fn append(&mut self, more: &UnitText) -> Result<(), AllocError>
        ensures more { OnOk result (self.new.bytes.items ≡ self.old.bytes.items ++ more.now.bytes.items) }
        ensures same { OnErr result (self.new.bytes.items ≡ self.old.bytes.items) }
    {
        self.bytes.extend_from_slice(more.bytes())
    }
}

// The units of the characters.
pub fn spell(heap: Global, letters: &[char]) -> Result<UnitText, AllocError>
    ensures { IfOk result (λ t. t.bytes.items ≡ unit_bytes (spelling letters.now)) }
{
    let mut text = UnitText::new(heap);
    for c in letters {
        text.push_char(*c)?;
    }
    Ok(text)
}
