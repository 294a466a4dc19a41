// What the definition of the words says.
ghost use Rattle.std.specs.Prelude.{◌≡◌, ◌↔◌, List, Some};
ghost use Rattle.fdc_main.specs.WordsGrammar.{IsWritten};
ghost use Rattle.fdc_main.specs.Words.{Text, mode_of};
ghost use Rattle.fdc_main.specs.declared.command_line.Mode.{Mode};

/// Words say a mode exactly where they are written as the grammar of the command line has it.
pub fn mode_is_written()
    ensures { (words : List Text) (mode : Mode) → (mode_of words ≡ Some mode) ↔ IsWritten words mode }
{}
