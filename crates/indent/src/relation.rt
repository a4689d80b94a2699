// The four relations between the number of a child and that of its parent.
ghost use Rattle.indent.specs.Relations.{Reads};

// What a place of a rule asks of the child's number: equal to the parent's, greater, at least as great, or any.
#[derive(Clone, Copy, Debug, PartialEq, Eq)]
pub enum Relation {
    Equal,
    Greater,
    AtLeast,
    Any,
}

// A byte that is the character of no relation.
#[derive(Clone, Copy, Debug, PartialEq, Eq)]
pub struct UnknownRelation(pub u8);

impl TryFrom<u8> for Relation {
    type Error = UnknownRelation;

    ghost try_from_gives = { Reads };

    // The relation that a byte of a rule row is the character of.
    fn try_from(byte: u8) -> Result<Relation, UnknownRelation> {
        match byte as char {
            '=' => Ok(Relation::Equal),
            '>' => Ok(Relation::Greater),
            '~' => Ok(Relation::AtLeast),
            '*' => Ok(Relation::Any),
            _ => Err(UnknownRelation(byte)),
        }
    }
}
