// What the definitions say together.
ghost use Rattle.std.specs.Prelude.{◌≡◌, ℕ, List};
ghost use Rattle.fdc_main.specs.Meaning.{Meaning, DeckMeans};
ghost use Rattle.fdc_main.specs.Responses.{Response, Responds};
ghost use Rattle.fdc_main.specs.declared.command_line.DeckMode.{DeckMode as Asked};

/// Bytes mean at most one thing: they are too long, or refused at one line by one number or limit, or accepted with one program and one input.
pub fn one_meaning()
    ensures { (bytes : List ℕ) (m n : Meaning) → DeckMeans bytes m → DeckMeans bytes n → m ≡ n }
{}

/// A mode that reads a deck has at most one response to what bytes mean.
pub fn one_response()
    ensures { (mode : Asked) (m : Meaning) (r s : Response) → Responds mode m r → Responds mode m s → r ≡ s }
{}
