//! What holds of writing and reading.
ghost use Rattle.std.specs.Prelude.{◌≡◌, List, map};
ghost use Rattle.sq_base.specs.declared.file.File.{File};
ghost use Rattle.sq_shown.specs.declared.declaration.ModelDecl.{ModelDecl};
ghost use Rattle.sq_shown.specs.declared.declaration.QueryFile.{QueryFile};
ghost use Rattle.sq_shown.specs.declared.declaration.QuerySig.{QuerySig};
ghost use Rattle.sq_shown.specs.declared.signature.Shown.{Shown};
ghost use Rattle.sq_shown.specs.Layout.{layout, queries_of};
ghost use Rattle.sq_shown.specs.Signature.{shown};
ghost use Rattle.sq_reader.specs.Parts.{Text};
ghost use Rattle.sq_reader.specs.Readable.{IsReadable};
ghost use Rattle.sq_reader.specs.Reading.{Reads};

/// Files read as one list of signatures at most.
#[tactic(auto, using(crate::proofs::Once::at_most_one))]
pub fn reads_as_one()
    ensures { (files : List File) → (one : List Shown) → (other : List Shown) → Reads files one → Reads files other → one ≡ other }
{}

/// What is written for models and queries reads as the queries' shown signatures.
#[tactic(auto, using(crate::proofs::Written::written_again))]
pub fn reads_as_written()
    ensures { (package_name : Text) → (models : List ModelDecl) → (files : List QueryFile) → IsReadable package_name models files → Reads (layout package_name models files) (map (λ (query : QuerySig). shown query.signature) (queries_of files)) }
{}
