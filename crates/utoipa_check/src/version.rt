//! Whether a text names a version of the standard (the field `openapi` of an OpenAPI Object: OpenAPI 3.1, section 4.8.1).
ghost use Rattle.std.specs.Prelude.{◌≡◌, ℤ, List, ◌∷◌, [], is_some};
ghost use Rattle.utoipa_base.specs.Version.{read_version, piece_number, and_number};
ghost use Rattle.utoipa_check.specs.Version.{names_version_after};

/// The numbers of a version text so far.
#[derive(Clone, Copy, Drop)]
enum Numbers {
    /// None.
    Nothing,
    /// The number 3.
    Three,
    /// The numbers 3 and 1.
    ThreeOne,
    /// The numbers 3 and 2.
    ThreeTwo,
    /// Three numbers, the first two of which name a version.
    Whole,
    /// Numbers that begin no version.
    Others,
}

impl Numbers {
    /// With one more number.
    fn and(self, number: i8) -> Numbers
        ensures { (rest : List ℤ) → names_version_after result rest ≡ names_version_after self (number ∷ rest) }
    {
        match self {
            Numbers::Nothing if number == 3 => Numbers::Three,
            Numbers::Three if number == 1 => Numbers::ThreeOne,
            Numbers::Three if number == 2 => Numbers::ThreeTwo,
            Numbers::ThreeOne => Numbers::Whole,
            Numbers::ThreeTwo => Numbers::Whole,
            _ => Numbers::Others,
        }
    }

    /// With the number of a piece, if it counts.
    fn and_piece(self, piece: &str) -> Numbers
        ensures { (rest : List ℤ) → names_version_after result rest
            ≡ names_version_after self (and_number (piece_number piece.now) rest) }
    {
        match number_of(piece) {
            Some(number) => self.and(number),
            None => self,
        }
    }

    /// Whether the numbers name a version, where none is still to come.
    fn name_version(self) -> bool
        ensures { result ≡ names_version_after self [] }
    {
        matches!(self, Numbers::Whole)
    }
}

/// The number of a piece that is an optional sign and digits with a value from -128 to 127.
fn number_of(piece: &str) -> Option<i8>
    ensures { result ≡ piece_number piece.now }
{
    match piece.parse::<i8>() {
        Ok(number) => Some(number),
        Err(_) => None,
    }
}

/// Whether a text names a version. Pieces between the dots that are no numbers from -128 to 127 don't count.
pub(crate) fn is_version(text: &str) -> bool
    ensures { result ≡ is_some (read_version text.now) }
{
    let mut numbers = Numbers::Nothing;
    let mut rest = text;
    while let Some((piece, later)) = rest.split_once('.') {
        numbers = numbers.and_piece(piece);
        rest = later;
    }
    numbers.and_piece(rest).name_version()
}
