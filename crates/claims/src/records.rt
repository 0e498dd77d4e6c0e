// The claim record: plain, copied freely, 32 bytes.
use super::texts::Text;
use super::values::Value;

#[derive(Clone, Copy, PartialEq, Eq, Debug, Default)]
pub struct Claim {
    pub typ: Text,
    pub word: Text,
    pub value: Value,
}
