// Whether a text matches a tree: the places of the tree's atoms that a run may have reached, as the bits of a set.
// Each unit of the text takes one step from set to set, so the cost is the units of the text times the places.
// An automaton stands for a tree with its anchors; what matching means is defined on the tree alone.
#![tactic(auto)]

ghost use Rattle.std.specs.Prelude.{◌≡◌, Bool, not, take, Decides};
ghost use Rattle.units.specs.Units.{units};
ghost use Rattle.automaton.specs.Language.{fits, Tree, Matches};
ghost use Rattle.automaton.specs.Places.{bit, follow_of, Stands};
ghost use Rattle.automaton.specs.Run.{room, ends, stepped};

use units::{Units, fold};

// What takes one unit: a unit that folds alike, or any.
#[derive(Clone, Copy, PartialEq, Eq, Debug)]
pub enum Atom {
    Plain(u16),
    Any,
}

// A place: what stands there, and the set of the places that may come next. The set is held in two halves: a u64 would be
// aligned to 8 bytes, a place would take 16 in place of 12, and a pattern, which is copied and kept, a third more.
#[derive(Clone, Copy)]
pub struct Place {
    pub atom: Atom,
    low: u32,
    high: u32,
}

const _: () = prove!(std::mem::size_of::<Place>() == 12);

// The places are numbered from 0; the first `count` are in use. Beside the count they stand in an array, not in an
// ArrayVec, which cannot be copied: `pattern::Pattern`, which is public and holds an automaton, is `Copy`, and a type
// that can do less would promise less.
#[derive(Clone, Copy)]
pub struct Automaton {
    pub head: bool,
    pub tail: bool,
    pub nullable: bool,
    pub firsts: u64,
    pub lasts: u64,
    pub count: usize,
    pub places: [Place; 60],
}

// How far the runs have come: the places that one may have reached, and whether one may begin here.
#[derive(Clone, Copy)]
struct Reached {
    set: u64,
    fresh: bool,
}

impl Atom {
    // Does the atom take the unit?
    fn takes(self, u: u16) -> bool
        ensures { result ≡ fits self u }
    {
        match self {
            Atom::Plain(c) => fold(c) == fold(u),
            Atom::Any => true,
        }
    }
}

impl Place {
    pub fn new(atom: Atom, follow: u64) -> Place
        ensures takes { result.atom ≡ atom }
        ensures leads { follow_of result ≡ follow }
    {
        Place {
            atom,
            low: (follow % 0x1_0000_0000) as u32,
            high: (follow >> 32) as u32,
        }
    }

    // The places that may come next.
    pub fn follow(self) -> u64
        ensures { result ≡ follow_of self }
    {
        (u64::from(self.high) << 32) + u64::from(self.low)
    }
}

// Is the place p in the set? A set is a plain number, whose operators are those of sets: a type of its own would only
// repeat them.
pub fn has(set: u64, p: usize) -> bool
    ensures { result ≡ bit set p }
{
    p < 64 && (set >> p) % 2 == 1
}

impl Automaton {
    // The places in use, never more than there is room for.
    fn used(&self) -> &[Place]
        ensures { result.now ≡ take (room self.now) self.now.places }
    {
        &self.places[..self.count.min(60)]
    }

    // One unit on: of the places where a run may begin or go on, those whose atom takes u.
    fn step(&self, r: Reached, u: u16) -> Reached
        ensures set { result.set ≡ stepped self.now r.fresh r.set u }
        ensures fresh { result.fresh ≡ not self.now.head }
    {
        let mut next = if r.fresh { self.firsts } else { 0 };
        let mut mask = 0;
        for (i, place) in self.used().iter().enumerate() {
            if has(r.set, i) {
                next |= place.follow();
            }
            if place.atom.takes(u) {
                mask |= 1u64 << i;
            }
        }
        Reached {
            set: next & mask,
            fresh: !self.head,
        }
    }

    // Does a run end here?
    fn ended(&self, r: Reached) -> bool
        ensures { result ≡ ends self.now r.fresh r.set }
    {
        r.fresh && self.nullable || self.lasts & r.set != 0
    }
}

// Does the text match the tree that the automaton stands for?
pub fn matches(a: &Automaton, text: &[u8]) -> bool
    ensures { (head tail : Bool) (t : Tree) → Stands a.now head tail t → Decides result (Matches head tail t (units text.now)) }
{
    let mut r = Reached {
        set: 0,
        fresh: true,
    };
    for u in Units::of(text) {
        if !a.tail && a.ended(r) {
            return true;
        }
        r = a.step(r, u);
    }
    a.ended(r)
}
