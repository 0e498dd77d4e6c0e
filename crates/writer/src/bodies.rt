// The claims of a source, one after the other: measured, and then written behind the head.
ghost use Rattle.std.specs.Prelude.{◌≡◌, ◌+◌, ◌≤◌, length};
ghost use Rattle.std.specs.List.{AllByRecursion};
ghost use Rattle.writer.specs.Shown.{Measured, Writable, shown_body};
ghost use Rattle.writer.specs.Writing.{written};

use super::fields::write_claim;
use super::fits::is_writable;
use super::shown::claim_size;
use claims::{Claims, Source, Texts};

// The bytes that the claims take; none where one of them cannot be carried.
pub fn body_size<S: Source>(source: &S, texts: &Texts) -> Option<usize>
    ensures { Measured texts.now.rules.now texts.now.packet.now (S.Source.list source.now) result }
{
    let mut sum = 0;
    for claim in Claims::of(source) {
        if !is_writable(claim, texts) {
            return None;
        }
        sum += claim_size(claim, texts);
    }
    Some(sum)
}

pub fn write_body<S: Source>(source: &S, texts: &Texts, out: &mut [u8])
    requires writable { AllByRecursion (Writable texts.now.rules.now texts.now.packet.now) (S.Source.list source.now) }
    requires room { 3 + length (shown_body texts.now.rules.now texts.now.packet.now (S.Source.list source.now)) ≤ length out.old }
    ensures { out.new ≡ written out.old 3 (shown_body texts.now.rules.now texts.now.packet.now (S.Source.list source.now)) }
{
    let mut at = 3;
    for claim in Claims::of(source) {
        at += write_claim(&mut out[at..], claim, texts);
    }
}
