// The special bytes, by what each of them does.
ghost use Rattle.std.specs.Prelude.{◌≡◌};
ghost use Rattle.rules.specs.Signs.{sign};
ghost use Rattle.signs.specs.Signs.{sign_of};

#[derive(Clone, Copy, PartialEq, Eq)]
pub enum Sign {
    Plain,
    Dot,
    OpensClass,
    ClosesClass,
    OpensGroup,
    ClosesGroup,
    Bar,
    Star,
    Plus,
    Query,
    OpensCount,
    ClosesCount,
    Hat,
    Dollar,
    Backslash,
}

impl From<u8> for Sign {
    ghost from_gives = { λ c s. sign_of s ≡ sign c };

    fn from(c: u8) -> Sign {
        match c {
            b'.' => Sign::Dot,
            b'[' => Sign::OpensClass,
            b']' => Sign::ClosesClass,
            b'(' => Sign::OpensGroup,
            b')' => Sign::ClosesGroup,
            b'|' => Sign::Bar,
            b'*' => Sign::Star,
            b'+' => Sign::Plus,
            b'?' => Sign::Query,
            b'{' => Sign::OpensCount,
            b'}' => Sign::ClosesCount,
            b'^' => Sign::Hat,
            b'$' => Sign::Dollar,
            b'\\' => Sign::Backslash,
            _ => Sign::Plain,
        }
    }
}
