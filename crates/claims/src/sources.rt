// A source of claims, the source of one claim, and a slice of records as a source.
ghost use Rattle.std.specs.Prelude.{◌≡◌, ◌≤◌, List, [], ◌∷◌, length, take, drop};
ghost use Rattle.std.specs.Iterator.{YieldsFirst, item_count};
ghost use Rattle.std.specs.List.{slice_get};
ghost use Rattle.claims.specs.declared.records.Claim.{Claim as Record};

use super::records::Claim;

// A list of at most 512 claims. Neither call changes anything.
pub trait Source {
    ghost list: { Self → List Record };

    fn count(&self) -> usize
        ensures value { result ≡ length (list self.now) }
        ensures few { result ≤ 512 }
        ensures same { self.exit.now ≡ self.entry.now };

    // The claim of a number from 0, or none past the end.
    fn claim_at(&self, n: usize) -> Option<Claim>
        ensures value { result ≡ slice_get (list self.now) n }
        ensures same { self.exit.now ≡ self.entry.now };
}

// A source that is only lent: whoever stands on it leaves it with its owner.
impl<S: Source> Source for &S {
    ghost list = { λ s. S.Source.list s.now };

    fn count(&self) -> usize {
        (**self).count()
    }

    fn claim_at(&self, n: usize) -> Option<Claim> {
        (**self).claim_at(n)
    }
}

// The claims of a source, one after the other.
#[derive(Drop)]
pub struct Claims<'s, S: Source> {
    source: &'s S,
    next: usize,
    end: usize,
    ghost ends: { end ≡ length (S.Source.list source.now) },
    ghost few: { end ≤ 512 },
}

impl<'s, S: Source> Claims<'s, S> {
    pub fn of(source: &'s S) -> Claims<'s, S>
        ensures all { drop result.next (S.Source.list result.source.now) ≡ S.Source.list source.now }
        ensures few { length (S.Source.list source.now) ≤ 512 }
    {
        Claims {
            source,
            next: 0,
            end: source.count(),
        }
    }
}

impl<S: Source> Iterator for Claims<'_, S> {
    type Item = Claim;

    ghost next_gives = { YieldsFirst (λ c. drop c.next (S.Source.list c.source.now)) };

    ghost remaining = { item_count (λ c. drop c.next (S.Source.list c.source.now)) };

    fn next(&mut self) -> Option<Claim> {
        let n = self.next;
        if n >= self.end {
            return None;
        }
        self.next = n + 1;
        self.source.claim_at(n)
    }
}

// A copy of one claim.
#[derive(Clone, Copy)]
pub struct One {
    claim: Claim,
}

impl One {
    pub fn new(claim: Claim) -> One
        ensures { result.claim ≡ claim }
    {
        One { claim }
    }
}

impl Source for One {
    ghost list = { λ s. s.claim ∷ [] };

    fn count(&self) -> usize {
        1
    }

    fn claim_at(&self, n: usize) -> Option<Claim> {
        (n == 0).then_some(self.claim)
    }
}

// The first 512 records of a slice.
#[derive(Clone, Copy)]
pub struct Listed<'a> {
    claims: &'a [Claim],
    ghost few: { length claims.now ≤ 512 },
}

impl<'a> Listed<'a> {
    pub fn over(claims: &'a [Claim]) -> Listed<'a>
        ensures { result.claims.now ≡ take 512 claims.now }
    {
        Listed {
            claims: claims.get(..512).unwrap_or(claims),
        }
    }
}

impl Source for Listed<'_> {
    ghost list = { λ s. s.claims.now };

    fn count(&self) -> usize {
        self.claims.len()
    }

    fn claim_at(&self, n: usize) -> Option<Claim> {
        self.claims.get(n).copied()
    }
}
