//! What stands in an expression, in the order of its tokens.

use crate::words::Done;
use sq_base::Place;
use sq_syntax::{
    Arguments, ColumnName, Comparison, Expression, Factor, From, Identifier, Node, Operator,
    Parameter, ParameterName, QualifiedName, Query, Sort, TypeName, TypeWord,
};

/// A tree, or what keeps a place beside it.
#[derive(Clone, Copy)]
pub enum Part<'a> {
    Expression(&'a Node<Expression>),
    Query(&'a Query),
    Factor(&'a Factor),
    From(&'a From),
    /// A part without a tree of its own: its place, and the numbers of its first and last token.
    Stretch(Place, u32, u32),
    /// A name or a word with its place.
    Word(Place, &'a str),
}

pub fn in_name<'a>(name: &'a Identifier, found: &mut Vec<Part<'a>>) -> Done {
    found.push(Part::Word(name.place, name.name.as_str()))?;
    Ok(())
}

pub fn in_names<'a>(names: &'a [Identifier], found: &mut Vec<Part<'a>>) -> Done {
    for name in names {
        in_name(name, found)?;
    }
    Ok(())
}

pub fn in_qualified<'a>(name: &'a QualifiedName, found: &mut Vec<Part<'a>>) -> Done {
    if let Some(schema) = &name.schema {
        in_name(schema, found)?;
    }
    in_name(&name.name, found)
}

fn in_column<'a>(name: &'a ColumnName, found: &mut Vec<Part<'a>>) -> Done {
    match name {
        ColumnName::Bare(column) => in_name(column, found),
        ColumnName::OfRange(range, column) => {
            in_name(range, found)?;
            in_name(column, found)
        }
        ColumnName::OfTable(schema, table, column) => {
            in_name(schema, found)?;
            in_name(table, found)?;
            in_name(column, found)
        }
    }
}

fn in_type<'a>(name: &'a TypeName, found: &mut Vec<Part<'a>>) -> Done {
    match &name.word {
        TypeWord::Named(word) => in_qualified(word, found)?,
        TypeWord::DoublePrecision(place) => found.push(Part::Word(*place, "double precision"))?,
        TypeWord::CharacterVarying(place) => found.push(Part::Word(*place, "character varying"))?,
    }
    Ok(())
}

pub fn in_expressions<'a>(trees: &'a [Node<Expression>], found: &mut Vec<Part<'a>>) -> Done {
    for tree in trees {
        found.push(Part::Expression(tree))?;
    }
    Ok(())
}

pub fn in_sorts<'a>(items: &'a [Sort<Node<Expression>>], found: &mut Vec<Part<'a>>) -> Done {
    for item in items {
        found.push(Part::Expression(&item.key))?;
    }
    Ok(())
}

fn comparison_word(comparison: Comparison) -> &'static str {
    match comparison {
        Comparison::Less => "<",
        Comparison::Greater => ">",
        Comparison::Equal => "=",
        Comparison::LessEqual => "<=",
        Comparison::GreaterEqual => ">=",
        Comparison::NotEqual => "<>",
    }
}

fn operator_word(operator: &Operator) -> &str {
    match operator {
        Operator::Power => "^",
        Operator::Times => "*",
        Operator::Divide => "/",
        Operator::Modulo => "%",
        Operator::Plus => "+",
        Operator::Minus => "-",
        Operator::Comparison(comparison) => comparison_word(*comparison),
        Operator::Other(bytes) => str::from_utf8(bytes.as_slice()).unwrap_or("other"),
    }
}

/// The parts of an expression.
pub fn in_expression<'a>(form: &'a Expression, found: &mut Vec<Part<'a>>) -> Done {
    match form {
        Expression::Constant(_) | Expression::Moment(_) => {}
        Expression::Parameter(Parameter::Called(_, ParameterName::Identifier(name))) => {
            in_name(name, found)?
        }
        Expression::Parameter(_) => {}
        Expression::Column(name) => in_column(name, found)?,
        Expression::Bracketed(x) | Expression::Extract(_, x) | Expression::Tested(x, _) => {
            found.push(Part::Expression(x.get()))?
        }
        Expression::Scalar(query) | Expression::Exists(query) | Expression::ArrayQuery(query) => {
            found.push(Part::Query(query.get()))?
        }
        Expression::ArrayList(items) | Expression::Pooled(_, items) => {
            in_expressions(items.as_slice(), found)?
        }
        Expression::Case(subject, arms, last) => {
            if let Some(x) = subject {
                found.push(Part::Expression(x.get()))?;
            }
            for arm in arms.as_slice() {
                found.push(Part::Expression(&arm.condition))?;
                found.push(Part::Expression(&arm.value))?;
            }
            if let Some(x) = last {
                found.push(Part::Expression(x.get()))?;
            }
        }
        Expression::Cast(x, to) => {
            found.push(Part::Expression(x.get()))?;
            in_type(to, found)?;
        }
        Expression::TypedText(to, _) => in_type(to, found)?,
        Expression::Call(name, arguments, filter) => {
            in_name(name, found)?;
            if let Arguments::List(_, items, order) = arguments {
                in_expressions(items.as_slice(), found)?;
                in_sorts(order.as_slice(), found)?;
            }
            if let Some(x) = filter {
                found.push(Part::Expression(x.get()))?;
            }
        }
        Expression::Subscript(x, links) => {
            found.push(Part::Expression(x.get()))?;
            for link in links.as_slice() {
                found.push(Part::Word(link.place, "["))?;
                found.push(Part::Expression(&link.index))?;
            }
        }
        Expression::Converted(x, links) => {
            found.push(Part::Expression(x.get()))?;
            for link in links.as_slice() {
                found.push(Part::Word(link.place, "::"))?;
                in_type(&link.to, found)?;
            }
        }
        Expression::Signed(signs, x) => {
            for sign in signs.as_slice() {
                let word = if sign.is_minus { "-" } else { "+" };
                found.push(Part::Word(sign.place, word))?;
            }
            found.push(Part::Expression(x.get()))?;
        }
        Expression::Collated(x, links) => {
            found.push(Part::Expression(x.get()))?;
            for link in links.as_slice() {
                found.push(Part::Word(link.place, "COLLATE"))?;
                in_name(&link.name, found)?;
            }
        }
        Expression::AtTimeZone(x, links) => {
            found.push(Part::Expression(x.get()))?;
            for link in links.as_slice() {
                found.push(Part::Word(link.place, "AT"))?;
                found.push(Part::Expression(&link.operand))?;
            }
        }
        Expression::And(x, links) => {
            found.push(Part::Expression(x.get()))?;
            for link in links.as_slice() {
                found.push(Part::Word(link.place, "AND"))?;
                found.push(Part::Expression(&link.operand))?;
            }
        }
        Expression::Or(x, links) => {
            found.push(Part::Expression(x.get()))?;
            for link in links.as_slice() {
                found.push(Part::Word(link.place, "OR"))?;
                found.push(Part::Expression(&link.operand))?;
            }
        }
        Expression::Operation(x, links) => {
            found.push(Part::Expression(x.get()))?;
            for link in links.as_slice() {
                found.push(Part::Word(link.place, operator_word(&link.operator)))?;
                found.push(Part::Expression(&link.operand))?;
            }
        }
        Expression::Between(x, _, _, low, high) => {
            found.push(Part::Expression(x.get()))?;
            found.push(Part::Expression(low.get()))?;
            found.push(Part::Expression(high.get()))?;
        }
        Expression::InList(x, _, items) => {
            found.push(Part::Expression(x.get()))?;
            in_expressions(items.as_slice(), found)?;
        }
        Expression::InQuery(x, _, query) | Expression::AnyQuery(x, _, _, query) => {
            found.push(Part::Expression(x.get()))?;
            found.push(Part::Query(query.get()))?;
        }
        Expression::NullIf(x, y)
        | Expression::Like(x, _, _, y)
        | Expression::Compared(x, _, y)
        | Expression::AnyArray(x, _, _, y)
        | Expression::Distinct(x, _, y) => {
            found.push(Part::Expression(x.get()))?;
            found.push(Part::Expression(y.get()))?;
        }
        Expression::Not(places, x) => {
            for place in places.as_slice() {
                found.push(Part::Word(*place, "NOT"))?;
            }
            found.push(Part::Expression(x.get()))?;
        }
    }
    Ok(())
}
