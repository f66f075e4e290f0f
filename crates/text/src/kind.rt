// The kinds of words.
ghost use Rattle.std.specs.Prelude.{◌≡◌, ◌≤◌};
ghost use Rattle.text.specs.Kinds.{number, Numbered};

// What a node is: the constants, the connectives, equality, the two blocks, and what has a name. The order is that of the keywords; a kind's
// number is its place there.
#[derive(Clone, Copy)]
pub enum Kind {
    Top,
    Bottom,
    Not,
    And,
    Or,
    Implies,
    Iff,
    Equals,
    All,
    Exists,
    Predicate,
    Function,
    Variable,
    Constant,
}

// A number that is no kind's.
#[derive(Clone, Copy)]
pub struct NoKind(pub u64);

impl From<Kind> for u64 {
    ghost from_gives = { λ kind result. result ≡ number kind };

    fn from(kind: Kind) -> u64 {
        kind as u64
    }
}

impl TryFrom<u64> for Kind {
    type Error = NoKind;

    ghost try_from_gives = { Numbered };

    fn try_from(number: u64) -> Result<Kind, NoKind> {
        match number {
            0 => Ok(Kind::Top),
            1 => Ok(Kind::Bottom),
            2 => Ok(Kind::Not),
            3 => Ok(Kind::And),
            4 => Ok(Kind::Or),
            5 => Ok(Kind::Implies),
            6 => Ok(Kind::Iff),
            7 => Ok(Kind::Equals),
            8 => Ok(Kind::All),
            9 => Ok(Kind::Exists),
            10 => Ok(Kind::Predicate),
            11 => Ok(Kind::Function),
            12 => Ok(Kind::Variable),
            13 => Ok(Kind::Constant),
            _ => Err(NoKind(number)),
        }
    }
}
