//! What is true of the identifiers that written files give: laws, which cost nothing when the
//! program runs.

ghost use Rattle.std.specs.Prelude.{◌≡◌, ◌<◌, ◌^◌, ◌++◌, List, true, false, length, map, codes};
ghost use Rattle.std.specs.List.{list_all};
ghost use Rattle.sq_shown.specs.declared.signature.Output.{Output};
ghost use Rattle.sq_shown.specs.declared.signature.ShownField.{ShownField};
ghost use Rattle.sq_shown.specs.Identifiers.{constant_name, model_identifier, package_name, pascal};
ghost use Rattle.sq_shown.specs.Lines.{Text};
ghost use Rattle.sq_shown.specs.Names.{has_equal};
ghost use Rattle.sq_shown.specs.Signature.{fields, shown_columns};
ghost use Rattle.sq_shown.specs.Words.{is_word};

/// Identifiers are words: those of fields and models for every name of SQL, those of a query's
/// constant and rows where the query's name is a word, and that of a package for every folder.
pub fn identifiers_are_words()
    ensures fields { (name : Text) → is_word (pascal name) ≡ true }
    ensures models { (schema name : Text) → is_word (model_identifier schema name) ≡ true }
    ensures constants { (query : Text) → is_word query ≡ true → is_word (constant_name query) ≡ true }
    ensures rows { (query : Text) → is_word query ≡ true → is_word (query ++ codes "Row") ≡ true }
    ensures packages { (out : Text) → is_word (package_name out) ≡ true }
{}

/// The fields of a struct and the columns of a query are named by words.
pub fn fields_are_words()
    ensures fields { (columns : List Output)
        → list_all (λ (field : ShownField). is_word field.name) (fields columns) ≡ true }
    ensures columns { (columns : List Output)
        → list_all (λ (field : ShownField). is_word field.name) (shown_columns columns) ≡ true }
{}

/// No two fields of a struct have one name, nor two columns of a query.
pub fn fields_are_apart()
    ensures fields { (columns : List Output) → length columns < 2 ^ 64
        → has_equal (map (λ (field : ShownField). field.name) (fields columns)) ≡ false }
    ensures columns { (columns : List Output) → length columns < 2 ^ 64
        → has_equal (map (λ (field : ShownField). field.name) (shown_columns columns)) ≡ false }
{}
