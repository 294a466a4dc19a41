//! The checked program, and what a run of it in sequence is.
#![tactic(auto)]

mod condition;
mod constants;
mod expression;
mod form;
mod item;
mod laws;
mod limits;
mod linear;
mod mapping_laws;
mod order;
mod program;
mod run;
mod statement;
mod sums;
mod words;

pub use condition::Cond;
pub use constants::Extreme;
pub use expression::{Expr, ExprList, Func, Op2, Ref};
pub use form::{Atom, Form, FormList, FormRefusal, Home, Term, TermList};
pub use item::{Event, Item, ItemList, SiteList, Widened, WidenedList};
pub use laws::{
    forms_are_sound, reads_are_own_or_needed, same_names_give_same_needs, steps_rise,
    steps_store_words, stores_are_words, while_again, widening_keeps_limits,
};
pub use linear::{
    atoms_are_ordered, constant_form, equal_sums_are_equal, form_keeps_value, form_of, forms_of,
};
pub use mapping_laws::{elements_follow_positions, mappings_are_consistent};
pub use order::{compare_forms, compare_lists};
pub use program::{Array, ArrayList, Decomp, DecompList, NameList, Program};
pub use run::{Outcome, Printed, PrintedList};
pub use statement::{Part, PartList, Ref2, Remapped, Stmt, StmtList};
pub use words::numbers_are_words;
