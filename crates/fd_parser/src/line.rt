// Lines by their first word.
ghost use Rattle.std.specs.Prelude.{◌≡◌, [], ◌∷◌, List, map, IfOk, MatchResult};
ghost use Rattle.fd_ast.specs.Tree.{DeclTree, attr_tree, decl_tree};
ghost use Rattle.fd_parser.specs.declared.fault.Fault.TheVariants as faults;
ghost use Rattle.fd_parser.specs.Declarations as of;
ghost use Rattle.fd_parser.specs.Lexemes.{toks};
ghost use Rattle.fd_parser.specs.Forms.{LineForm, line_form, IsDeclared, IsElseRest, IsChoice, IsEnd, IsDistribution, IsOneWord, IsOther, IsForm};
ghost use Rattle.fd_parser.specs.Answer.{GivesAll};

use crate::fault::Fault;
use crate::form::{Form, do_rest, if_rest, simple, then_rest};
use crate::lexeme::{Lexemes, after_word, ended, expect_word, first_name, is_over};
use crate::mapping::{
    align_rest, decomposition_rest, distribute_rest, integer_rest, parameter_rest,
};
use crate::simple::one_stmt;
use fd_ast::{TAttr, TAttrList, TDecl, TStmt};
use fd_base::{Line, Memory};
use std::alloc::Global;

/// The declarations that the tokens are, but for DISTRIBUTE.
pub fn declared<'a>(alloc: Global, line: Line, tokens: Lexemes<'a>) -> Result<Vec<TDecl>, Fault>
    ensures found { IfOk result (λ made. IsDeclared line (toks tokens.now) (map decl_tree made.items)) }
    ensures only { (xs : List DeclTree) → IsDeclared line (toks tokens.now) xs → GivesAll (λ made. map decl_tree made.items) result xs }
{
    if let Some(rest) = after_word(tokens, b"PARAMETER") {
        let list = parameter_rest(alloc, line, rest)?;
        return Ok(list);
    }
    if let Some(rest) = after_word(tokens, b"INTEGER") {
        let list = integer_rest(alloc, line, rest)?;
        return Ok(list);
    }
    if let Some(rest) = after_word(tokens, b"DECOMPOSITION") {
        let list = decomposition_rest(alloc, line, rest)?;
        return Ok(list);
    }
    let rest = expect_word(tokens, b"ALIGN")?;
    let decl = align_rest(alloc, line, rest)?;
    let list = one_decl(alloc, decl)?;
    Ok(list)
}

fn one_decl(alloc: Global, decl: TDecl) -> Result<Vec<TDecl>, Memory>
    ensures { IfOk result (λ made. made.items ≡ decl ∷ []) }
{
    let mut list = Vec::new(alloc);
    list.push(decl)?;
    Ok(list)
}

/// The line of an IF that the tokens are.
pub fn choice<'a>(alloc: Global, line: Line, tokens: Lexemes<'a>) -> Result<Form, Fault>
    ensures found { IfOk result (λ made. IsChoice line (toks tokens.now) (line_form made)) }
    ensures only { (f : LineForm) → IsChoice line (toks tokens.now) f → GivesAll line_form result f }
{
    if let Some(rest) = after_word(tokens, b"IF") {
        let form = if_rest(alloc, line, rest)?;
        return Ok(form);
    }
    if let Some(rest) = after_word(tokens, b"ELSEIF") {
        let condition = then_rest(alloc, rest)?;
        return Ok(Form::ElseIf(condition));
    }
    if let Some(rest) = after_word(tokens, b"ELSE") {
        let form = else_rest(alloc, rest)?;
        return Ok(form);
    }
    let rest = expect_word(tokens, b"ENDIF")?;
    ended(rest)?;
    Ok(Form::EndIf)
}

// What stands behind ELSE.
fn else_rest<'a>(alloc: Global, tokens: Lexemes<'a>) -> Result<Form, Fault>
    ensures found { IfOk result (λ made. IsElseRest (toks tokens.now) (line_form made)) }
    ensures only { (f : LineForm) → IsElseRest (toks tokens.now) f → GivesAll line_form result f }
{
    if is_over(tokens) {
        return Ok(Form::Else);
    }
    let rest = expect_word(tokens, b"IF")?;
    let condition = then_rest(alloc, rest)?;
    Ok(Form::ElseIf(condition))
}

/// ENDDO, END IF or END DO.
pub fn end_form<'a>(tokens: Lexemes<'a>) -> Result<Form, Fault>
    ensures found { IfOk result (λ made. IsEnd (toks tokens.now) (line_form made)) }
    ensures only { (f : LineForm) → IsEnd (toks tokens.now) f → GivesAll line_form result f }
{
    if let Some(rest) = after_word(tokens, b"ENDDO") {
        ended(rest)?;
        return Ok(Form::EndDo);
    }
    let rest = expect_word(tokens, b"END")?;
    if let Some(rest) = after_word(rest, b"IF") {
        ended(rest)?;
        return Ok(Form::EndIf);
    }
    let rest = expect_word(rest, b"DO")?;
    ended(rest)?;
    Ok(Form::EndDo)
}

// What stands behind DISTRIBUTE.
fn distribution<'a>(alloc: Global, line: Line, tokens: Lexemes<'a>) -> Result<Form, Fault>
    ensures found { IfOk result (λ made. IsDistribution line (toks tokens.now) (line_form made)) }
    ensures only { (f : LineForm) → IsDistribution line (toks tokens.now) f → GivesAll line_form result f }
{
    let (name, list) = distribute_rest(alloc, tokens)?;
    if has_map(&list) {
        let stmt = TStmt::Remap(line, name, TAttrList::from_vec(list));
        let stmts = one_stmt(alloc, stmt)?;
        return Ok(Form::Simple(stmts));
    }
    let decl = TDecl::Distribute(line, name, TAttrList::from_vec(list));
    let decls = one_decl(alloc, decl)?;
    Ok(Form::Declarations(decls))
}

// Whether an attribute is a map name.
fn has_map(attrs: &[TAttr]) -> bool
    ensures { result ≡ of.has_map (map attr_tree attrs.now) }
{
    for attr in attrs {
        if is_map(attr) {
            return true;
        }
    }
    false
}

fn is_map(attr: &TAttr) -> bool
    ensures { result ≡ of.is_map (attr_tree attr.now) }
{
    match attr {
        TAttr::Named(_) => true,
        TAttr::Whole | TAttr::Block | TAttr::Cyclic | TAttr::BlockCyclic(_) => false,
    }
}

/// The line that the tokens are where it begins with DO, DISTRIBUTE, PROGRAM, ENDDO or END.
pub fn other<'a>(alloc: Global, line: Line, tokens: Lexemes<'a>) -> Result<Form, Fault>
    ensures found { IfOk result (λ made. IsOther line (toks tokens.now) (line_form made)) }
    ensures only { (f : LineForm) → IsOther line (toks tokens.now) f → GivesAll line_form result f }
{
    if let Some(rest) = after_word(tokens, b"DO") {
        let form = do_rest(alloc, rest)?;
        return Ok(form);
    }
    if let Some(rest) = after_word(tokens, b"DISTRIBUTE") {
        let form = distribution(alloc, line, rest)?;
        return Ok(form);
    }
    if let Some(rest) = after_word(tokens, b"PROGRAM") {
        one_word(rest)?;
        return Ok(Form::Program);
    }
    let form = end_form(tokens)?;
    Ok(form)
}

// A name, and nothing behind it.
fn one_word<'a>(tokens: Lexemes<'a>) -> Result<(), Fault>
    ensures { MatchResult result (λ _. IsOneWord (toks tokens.now)) (λ e. (e ≡ faults.Syntax) × (IsOneWord (toks tokens.now) → ⊥)) }
{
    let Some((_, rest)) = first_name(tokens) else {
        return Err(Fault::Syntax);
    };
    ended(rest)?;
    Ok(())
}

/// The form of the line that the tokens are.
pub fn form<'a>(alloc: Global, line: Line, tokens: Lexemes<'a>) -> Result<Form, Fault>
    ensures found { IfOk result (λ made. IsForm line (toks tokens.now) (line_form made)) }
    ensures only { (f : LineForm) → IsForm line (toks tokens.now) f → GivesAll line_form result f }
{
    match declared(alloc, line, tokens) {
        Ok(list) => Ok(Form::Declarations(list)),
        Err(Fault::Memory) => Err(Fault::Memory),
        Err(Fault::Syntax) => {
            let form = undeclared(alloc, line, tokens)?;
            Ok(form)
        }
    }
}

// The form of a line that is no declaration but a DISTRIBUTE.
fn undeclared<'a>(alloc: Global, line: Line, tokens: Lexemes<'a>) -> Result<Form, Fault>
    requires { (xs : List DeclTree) → IsDeclared line (toks tokens.now) xs → ⊥ }
    ensures found { IfOk result (λ made. IsForm line (toks tokens.now) (line_form made)) }
    ensures only { (f : LineForm) → IsForm line (toks tokens.now) f → GivesAll line_form result f }
{
    match choice(alloc, line, tokens) {
        Ok(form) => Ok(form),
        Err(Fault::Memory) => Err(Fault::Memory),
        Err(Fault::Syntax) => {
            let form = other_or_simple(alloc, line, tokens)?;
            Ok(form)
        }
    }
}

// The form of a line that is neither such a declaration nor a line of an IF.
fn other_or_simple<'a>(alloc: Global, line: Line, tokens: Lexemes<'a>) -> Result<Form, Fault>
    requires not_declared { (xs : List DeclTree) → IsDeclared line (toks tokens.now) xs → ⊥ }
    requires no_choice { (f : LineForm) → IsChoice line (toks tokens.now) f → ⊥ }
    ensures found { IfOk result (λ made. IsForm line (toks tokens.now) (line_form made)) }
    ensures only { (f : LineForm) → IsForm line (toks tokens.now) f → GivesAll line_form result f }
{
    match other(alloc, line, tokens) {
        Ok(form) => Ok(form),
        Err(Fault::Memory) => Err(Fault::Memory),
        Err(Fault::Syntax) => {
            let list = simple(alloc, line, tokens)?;
            Ok(Form::Simple(list))
        }
    }
}
