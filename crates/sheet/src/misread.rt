// Why a text is not read: the scope's numbers by name.
ghost use Rattle.std.specs.Prelude.{◌≡◌};
ghost use Rattle.sheet.specs.Answers.{misread_number, misread_place};

#[derive(Clone, Copy, Debug, PartialEq, Eq)]
pub enum Misread {
    // It leaves every sheet at this place.
    Shape(usize),
    TooMany,
    WrongStart,
}

impl Misread {
    pub fn number(self) -> u32
        ensures { result ≡ misread_number self }
    {
        match self {
            Misread::Shape(_) => 8,
            Misread::TooMany => 5,
            Misread::WrongStart => 7,
        }
    }

    // Where the text leaves every sheet, and else 0.
    pub fn place(self) -> usize
        ensures { result ≡ misread_place self }
    {
        match self {
            Misread::Shape(place) => place,
            _ => 0,
        }
    }
}
