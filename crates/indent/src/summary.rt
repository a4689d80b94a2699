// Summaries: the sets of numbers that the root of a subtree may carry.
ghost use Rattle.std.specs.Prelude.{◌≡◌};
ghost use Rattle.indent.specs.Summaries.{through, meet, passed, Allowed, Both, Passes, Inhabited};
ghost use Rattle.indent.specs.Codes.{encode, decode, Encodes, Decodes};
ghost use Rattle.indent.specs.declared.relation.Relation.{Relation};
ghost use Rattle.indent.specs.declared.summary.Summary.{Summary};

use super::relation::Relation;

// The numbers that the root of a subtree may carry: every whole number, those up to one, or one alone.
#[derive(Clone, Copy, Debug, PartialEq, Eq)]
pub enum Summary {
    Free,
    AtMost(u16),
    Exact(u16),
}

fn below(m: u16) -> Option<Summary>
    ensures { result ≡ Rattle.indent.specs.Summaries.below m }
{
    m.checked_sub(1).map(Summary::AtMost)
}

impl Summary {
    // The numbers of a parent that a child with this summary allows; none where there is no such number.
    pub fn through(self, relation: Relation) -> Option<Summary>
        ensures { result ≡ through relation self }
    {
        match (relation, self) {
            (Relation::Equal, _) => Some(self),
            (Relation::Any, _) | (_, Summary::Free) => Some(Summary::Free),
            (Relation::Greater, Summary::AtMost(m) | Summary::Exact(m)) => below(m),
            (Relation::AtLeast, Summary::AtMost(m) | Summary::Exact(m)) => Some(Summary::AtMost(m)),
        }
    }

    // The numbers that both summaries have; none where there is no such number.
    pub fn meet(self, other: Summary) -> Option<Summary>
        ensures { result ≡ meet self other }
    {
        match (self, other) {
            (Summary::Free, _) => Some(other),
            (_, Summary::Free) => Some(self),
            (Summary::AtMost(m), Summary::AtMost(n)) => Some(Summary::AtMost(m.min(n))),
            (Summary::AtMost(m), Summary::Exact(c)) => (c <= m).then_some(other),
            (Summary::Exact(c), Summary::AtMost(m)) => (c <= m).then_some(self),
            (Summary::Exact(c), Summary::Exact(d)) => (c == d).then_some(self),
        }
    }

    // A rule's summary so far, met with what a child at one place more allows.
    pub fn pass(self, relation: Relation, child: Summary) -> Option<Summary>
        ensures { result ≡ passed self relation child }
    {
        self.meet(child.through(relation)?)
    }
}

// The code of a summary in a row: free 0, at most m is 1 + 2m, exact c is 2 + 2c.
impl From<Summary> for u32 {
    ghost from_gives = { Encodes };

    fn from(summary: Summary) -> u32 {
        match summary {
            Summary::Free => 0,
            Summary::AtMost(m) => 1 + 2 * u32::from(m),
            Summary::Exact(c) => 2 + 2 * u32::from(c),
        }
    }
}

// The summary that a row's number is the code of; every number is the code of one.
impl From<u16> for Summary {
    ghost from_gives = { Decodes };

    fn from(code: u16) -> Summary {
        if code == 0 {
            Summary::Free
        } else if code % 2 == 1 {
            Summary::AtMost(code / 2)
        } else {
            Summary::Exact(code / 2 - 1)
        }
    }
}

// That `through` gives exactly the parent numbers for which some child number meets the relation, that `meet` has
// exactly the numbers of both, and that no summary is empty.
pub fn summaries_stand()
    ensures through { (r : Relation) (s : Summary) → Allowed r s (through r s) }
    ensures meet { (s t : Summary) → Both s t (meet s t) }
    ensures pass { (s : Summary) (r : Relation) (child : Summary) → Passes s r child (passed s r child) }
    ensures inhabited { Inhabited }
{}
