// Which register a byte selects.
ghost use Rattle.std.specs.Prelude.{◌≡◌};
ghost use Rattle.rules.specs.Selection.{selects};
ghost use Rattle.parts.specs.Numbers.{register_number};

// The registers that are written.
#[derive(Clone, Copy, Debug, PartialEq, Eq)]
pub enum Register {
    Wr0,
    Wr1,
    Wr2,
    Wr3,
    Wr4,
    Wr5,
    Wr6,
}

// The register, if the byte selects one.
#[tactic(auto, unfolding(rules::specs::Selection::selects, rules::specs::Choice::first_of, rules::specs::Choice::every, rules::specs::Choice::pick))]
pub fn register_of(byte: u8) -> Option<Register>
    ensures { register_number result ≡ selects byte }
{
    if byte < 128 {
        return Some(match byte % 8 {
            0 => Register::Wr2,
            4 => Register::Wr1,
            _ => Register::Wr0,
        });
    }
    match byte % 4 {
        0 => Some(Register::Wr3),
        1 => Some(Register::Wr4),
        2 if byte < 192 && byte % 8 == 2 => Some(Register::Wr5),
        3 => Some(Register::Wr6),
        _ => None,
    }
}
