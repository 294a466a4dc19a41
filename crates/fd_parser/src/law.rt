// Laws of the grammar.
ghost use Rattle.std.specs.Prelude.{◌≡◌, ◌≤◌, ℕ, Bool, true, List};
ghost use Rattle.fd_base.specs.declared.numbering.Line.{Line};
ghost use Rattle.fd_lexer.specs.declared.token.Lexed.{Lexed};
ghost use Rattle.fd_lexer.specs.View.{Tok, TokenLine, token_lines};
ghost use Rattle.fd_lexer.specs.Text.{IsReading};
ghost use Rattle.fd_ast.specs.Tree.{ProgramTree, nesting_among};
ghost use Rattle.fd_parser.specs.Forms.{LineForm, IsForm};
ghost use Rattle.fd_parser.specs.Program.{FormLine, IsProgram};
ghost use Rattle.fd_parser.specs.declared.refusal.ParseRefusal.TheVariants.{At};
ghost use Rattle.fd_parser.specs.Text.{IsText, AreFine, IsRefusal};
ghost use Rattle.fd_parser.specs.Source.{IsSource};

/// A line has at most one form.
pub fn one_form()
    ensures { (l : Line) (ts : List Tok) (f g : LineForm) → IsForm l ts f → IsForm l ts g → f ≡ g }
{}

/// Lines have at most one tree.
pub fn one_program()
    ensures { (ts : List FormLine) (x y : ProgramTree) → IsProgram ts x → IsProgram ts y → x ≡ y }
{}

/// Logical lines are a source with at most one tree.
pub fn one_text()
    ensures { (ls : List TokenLine) (x y : ProgramTree) → IsText ls x → IsText ls y → x ≡ y }
{}

/// Logical lines are not refused in two ways, and lines without a refusal that are a source with its END line are not
/// refused at all.
pub fn one_refusal()
    ensures refusal { (ls : List TokenLine) (ended : Bool) (end_line k l : Line) (m n : ℕ) → IsRefusal ls ended end_line (At k m) → IsRefusal ls ended end_line (At l n) → (k ≡ l) × (m ≡ n) }
    ensures text { (ls : List TokenLine) (end_line l : Line) (n : ℕ) (x : ProgramTree) → IsText ls x → AreFine ls → IsRefusal ls true end_line (At l n) → ⊥ }
{}

/// The IFs and loops of a source without refusals stand in one another at most 32 deep.
pub fn nesting_is_bounded()
    ensures { (ls : List TokenLine) (x : ProgramTree) → IsText ls x → AreFine ls → nesting_among x.body ≤ 32 }
{}

/// Bytes have at most one tree, one END line and one rest.
pub fn one_source()
    ensures { (bytes : List ℕ) (x y : ProgramTree) (k l : Line) (m n : ℕ) → IsSource bytes x k m → IsSource bytes y l n → (x ≡ y) × (k ≡ l) × (m ≡ n) }
{}

/// The tree of bytes is the tree of their reading.
pub fn sources_are_read()
    ensures read { (bytes : List ℕ) (x : Lexed) (t : ProgramTree) → IsReading bytes x → x.ended ≡ true → IsText (token_lines x) t → IsSource bytes t x.end_line x.rest }
    ensures reading { (bytes : List ℕ) (t : ProgramTree) (k : Line) (rest : ℕ) → IsSource bytes t k rest → (x : Lexed) × IsReading bytes x }
    ensures text { (bytes : List ℕ) (x : Lexed) (t : ProgramTree) (k : Line) (rest : ℕ) → IsReading bytes x → IsSource bytes t k rest → IsText (token_lines x) t × (x.ended ≡ true) × (x.end_line ≡ k) × (x.rest ≡ rest) }
{}
