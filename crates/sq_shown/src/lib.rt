//! What written files show: signatures with their printed forms, identifiers, declarations and the layout.
#![tactic(auto)]

mod declaration;
mod form;
mod identifier;
mod naming;
mod showing;
mod signature;

pub use declaration::{ModelDecl, QueryFile, QuerySig};
pub use form::{go_form, is_weak_in_go};
pub use identifier::{constant_name, model_identifier, numbered, package_name, pascal};
pub use naming::{fields_are_apart, fields_are_words, identifiers_are_words};
pub use showing::{fields, shown};
pub use signature::{Command, Language, Output, Param, Shown, ShownField, Signature};
