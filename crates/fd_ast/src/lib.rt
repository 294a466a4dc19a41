//! The syntax tree of a source, as its text has it: nothing is looked up, checked or computed.
#![tactic(auto)]

mod condition;
mod declaration;
mod expression;
mod statement;

pub use condition::TCond;
pub use declaration::{NameList, TAttr, TAttrList, TDecl, TDeclList, TDim, TDimList};
pub use expression::{Op, TExpr, TExprList};
pub use statement::{TItem, TItemList, TStmt, TStmtList, Tree};
