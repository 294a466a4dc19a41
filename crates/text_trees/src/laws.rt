// What follows from the rules of tokens and lines.
ghost use Rattle.std.specs.Prelude.{◌≡◌, ℕ, true, List};
ghost use Rattle.fd_lexer.specs.declared.token.Lexed.{Lexed};
ghost use Rattle.fd_lexer.specs.View.{token_lines};
ghost use Rattle.fd_lexer.specs.Text.{IsReading};
ghost use Rattle.fd_ast.specs.Tree.{ProgramTree};
ghost use Rattle.fd_parser.specs.Text.{IsText};
ghost use Rattle.fd_names.specs.Written.{IsWritten};

/// The names in the tree of a text are plain, and its statements stand behind its declarations.
pub fn trees_are_written()
    ensures { (text : List ℕ) (x : Lexed) (t : ProgramTree) → IsReading text x → x.ended ≡ true → IsText (token_lines x) t → IsWritten t }
{}
