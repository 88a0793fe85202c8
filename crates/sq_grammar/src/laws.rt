//! What holds of the grammar and of its parsers.
ghost use Rattle.std.specs.Prelude.{◌≡◌, ◌≤◌, ◌↔◌, ℕ, suc, List, Some};
ghost use Rattle.sq_syntax.specs.declared.ddl.Ddl.{Ddl};
ghost use Rattle.sq_syntax.specs.declared.query.Query.{Query};
ghost use Rattle.sq_syntax.specs.declared.statement.Statement.{Statement};
ghost use Rattle.sq_syntax.specs.declared.token.Token.{Token};
ghost use Rattle.sq_syntax.specs.Grammar.{nesting_depth, IsExpression, IsQuery};
ghost use Rattle.sq_syntax.specs.Schemas.{IsDdl};
ghost use Rattle.sq_syntax.specs.Statements.{IsStatement};
ghost use Rattle.sq_grammar.specs.Levels.{Expr};
ghost use Rattle.sq_grammar.specs.Schemas.{ddl};
ghost use Rattle.sq_grammar.specs.Statements.{statements};
ghost use Rattle.sq_grammar.specs.Whole.{expressions, queries, whole};

/// Tokens spell one expression at most.
#[tactic(auto, using(crate::proofs::OneTree::one_expression))]
pub fn one_expression()
    ensures { (tokens : List Token) → (x : Expr) → (y : Expr) → IsExpression tokens x → IsExpression tokens y → x ≡ y }
{}

/// Tokens spell one query at most.
#[tactic(auto, using(crate::proofs::OneTree::one_query))]
pub fn one_query()
    ensures { (tokens : List Token) → (x : Query) → (y : Query) → IsQuery tokens x → IsQuery tokens y → x ≡ y }
{}

/// What is read of all tokens, to a depth above theirs, is exactly what they spell.
pub fn read_exactly()
    ensures as_expression { (depth : ℕ) → (tokens : List Token) → (x : Expr) → nesting_depth tokens ≤ depth → (whole (expressions (suc depth)) tokens ≡ Some x) ↔ IsExpression tokens x }
    ensures as_query { (depth : ℕ) → (tokens : List Token) → (x : Query) → nesting_depth tokens ≤ depth → (whole (queries (suc depth)) tokens ≡ Some x) ↔ IsQuery tokens x }
{}

/// Tokens spell one statement at most.
#[tactic(auto, using(crate::proofs::OneStatement::one_statement))]
pub fn one_statement()
    ensures { (tokens : List Token) → (x : Statement) → (y : Statement) → IsStatement tokens x → IsStatement tokens y → x ≡ y }
{}

/// What is read of all tokens as a statement, to a depth above theirs, is exactly what they spell.
pub fn read_statements_exactly()
    ensures { (depth : ℕ) → (tokens : List Token) → (x : Statement) → nesting_depth tokens ≤ depth → (whole (statements (suc depth)) tokens ≡ Some x) ↔ IsStatement tokens x }
{}

/// Tokens spell one schema statement at most.
#[tactic(auto, using(crate::proofs::OneDdl::one_ddl))]
pub fn one_ddl()
    ensures { (tokens : List Token) → (x : Ddl) → (y : Ddl) → IsDdl tokens x → IsDdl tokens y → x ≡ y }
{}

/// What is read of all tokens as a schema statement is exactly what they spell.
pub fn read_ddl_exactly()
    ensures { (tokens : List Token) → (x : Ddl) → (whole ddl tokens ≡ Some x) ↔ IsDdl tokens x }
{}
