//! The symbol of a word or a sign. The first byte decides which few texts it is compared with.

ghost use Rattle.std.specs.Prelude.{◌≡◌, ◌∷◌, [], MatchOption, bytes_eq};
ghost use Rattle.sq_syntax.specs.Symbols.{find, words, signs};

use sq_syntax::Symbol;

/// The bytes are those of the text.
pub fn same(text: &str, bytes: &[u8]) -> bool
    ensures { result ≡ bytes_eq text.now bytes.now }
{
    text.as_bytes() == bytes
}

fn split(bytes: &[u8]) -> Option<(u8, &[u8])>
    ensures { MatchOption result (bytes.now ≡ []) (λ p. bytes.now ≡ p.0 ∷ p.1.now) }
{
    let (first, rest) = bytes.split_first()?;
    Some((*first, rest))
}

fn after_a(rest: &[u8]) -> Option<Symbol>
    ensures { result ≡ find words (97 ∷ rest.now) }
{
    if same("ll", rest) {
        Some(Symbol::All)
    } else if same("nd", rest) {
        Some(Symbol::And)
    } else if same("ny", rest) {
        Some(Symbol::Any)
    } else if same("rg", rest) {
        Some(Symbol::Arg)
    } else if same("rray", rest) {
        Some(Symbol::Array)
    } else if same("s", rest) {
        Some(Symbol::As)
    } else if same("sc", rest) {
        Some(Symbol::Asc)
    } else if same("t", rest) {
        Some(Symbol::At)
    } else {
        None
    }
}

fn after_b(rest: &[u8]) -> Option<Symbol>
    ensures { result ≡ find words (98 ∷ rest.now) }
{
    if same("etween", rest) {
        Some(Symbol::Between)
    } else if same("y", rest) {
        Some(Symbol::By)
    } else {
        None
    }
}

fn after_c(rest: &[u8]) -> Option<Symbol>
    ensures { result ≡ find words (99 ∷ rest.now) }
{
    if same("ase", rest) {
        Some(Symbol::Case)
    } else if same("ast", rest) {
        Some(Symbol::Cast)
    } else if same("haracter", rest) {
        Some(Symbol::Character)
    } else if same("oalesce", rest) {
        Some(Symbol::Coalesce)
    } else if same("ollate", rest) {
        Some(Symbol::Collate)
    } else if same("ross", rest) {
        Some(Symbol::Cross)
    } else if same("urrent_date", rest) {
        Some(Symbol::CurrentDate)
    } else if same("urrent_timestamp", rest) {
        Some(Symbol::CurrentTimestamp)
    } else {
        None
    }
}

fn after_d(rest: &[u8]) -> Option<Symbol>
    ensures { result ≡ find words (100 ∷ rest.now) }
{
    if same("esc", rest) {
        Some(Symbol::Desc)
    } else if same("istinct", rest) {
        Some(Symbol::Distinct)
    } else if same("ouble", rest) {
        Some(Symbol::Double)
    } else {
        None
    }
}

fn after_e(rest: &[u8]) -> Option<Symbol>
    ensures { result ≡ find words (101 ∷ rest.now) }
{
    if same("lse", rest) {
        Some(Symbol::Else)
    } else if same("nd", rest) {
        Some(Symbol::End)
    } else if same("xcept", rest) {
        Some(Symbol::Except)
    } else if same("xists", rest) {
        Some(Symbol::Exists)
    } else if same("xtract", rest) {
        Some(Symbol::Extract)
    } else {
        None
    }
}

fn after_f(rest: &[u8]) -> Option<Symbol>
    ensures { result ≡ find words (102 ∷ rest.now) }
{
    if same("alse", rest) {
        Some(Symbol::False)
    } else if same("ilter", rest) {
        Some(Symbol::Filter)
    } else if same("irst", rest) {
        Some(Symbol::First)
    } else if same("or", rest) {
        Some(Symbol::For)
    } else if same("rom", rest) {
        Some(Symbol::From)
    } else if same("ull", rest) {
        Some(Symbol::Full)
    } else {
        None
    }
}

fn after_g(rest: &[u8]) -> Option<Symbol>
    ensures { result ≡ find words (103 ∷ rest.now) }
{
    if same("reatest", rest) {
        Some(Symbol::Greatest)
    } else if same("roup", rest) {
        Some(Symbol::Group)
    } else {
        None
    }
}

fn after_h(rest: &[u8]) -> Option<Symbol>
    ensures { result ≡ find words (104 ∷ rest.now) }
{
    if same("aving", rest) {
        Some(Symbol::Having)
    } else {
        None
    }
}

fn after_i(rest: &[u8]) -> Option<Symbol>
    ensures { result ≡ find words (105 ∷ rest.now) }
{
    if same("like", rest) {
        Some(Symbol::Ilike)
    } else if same("n", rest) {
        Some(Symbol::In)
    } else if same("nner", rest) {
        Some(Symbol::Inner)
    } else if same("ntersect", rest) {
        Some(Symbol::Intersect)
    } else if same("s", rest) {
        Some(Symbol::Is)
    } else if same("snull", rest) {
        Some(Symbol::IsNull)
    } else {
        None
    }
}

fn after_j(rest: &[u8]) -> Option<Symbol>
    ensures { result ≡ find words (106 ∷ rest.now) }
{
    if same("oin", rest) {
        Some(Symbol::Join)
    } else {
        None
    }
}

fn after_k(rest: &[u8]) -> Option<Symbol>
    ensures { result ≡ find words (107 ∷ rest.now) }
{
    if same("ey", rest) {
        Some(Symbol::Key)
    } else {
        None
    }
}

fn after_l(rest: &[u8]) -> Option<Symbol>
    ensures { result ≡ find words (108 ∷ rest.now) }
{
    if same("ast", rest) {
        Some(Symbol::Last)
    } else if same("east", rest) {
        Some(Symbol::Least)
    } else if same("eft", rest) {
        Some(Symbol::Left)
    } else if same("ike", rest) {
        Some(Symbol::Like)
    } else if same("imit", rest) {
        Some(Symbol::Limit)
    } else if same("ocaltimestamp", rest) {
        Some(Symbol::LocalTimestamp)
    } else if same("ocked", rest) {
        Some(Symbol::Locked)
    } else {
        None
    }
}

fn after_m(rest: &[u8]) -> Option<Symbol>
    ensures { result ≡ find words (109 ∷ rest.now) }
{
    if same("aterialized", rest) {
        Some(Symbol::Materialized)
    } else {
        None
    }
}

fn after_n(rest: &[u8]) -> Option<Symbol>
    ensures { result ≡ find words (110 ∷ rest.now) }
{
    if same("arg", rest) {
        Some(Symbol::Narg)
    } else if same("o", rest) {
        Some(Symbol::No)
    } else if same("ot", rest) {
        Some(Symbol::Not)
    } else if same("otnull", rest) {
        Some(Symbol::NotNull)
    } else if same("owait", rest) {
        Some(Symbol::NoWait)
    } else if same("ull", rest) {
        Some(Symbol::Null)
    } else if same("ullif", rest) {
        Some(Symbol::NullIf)
    } else if same("ulls", rest) {
        Some(Symbol::Nulls)
    } else {
        None
    }
}

fn after_o(rest: &[u8]) -> Option<Symbol>
    ensures { result ≡ find words (111 ∷ rest.now) }
{
    if same("f", rest) {
        Some(Symbol::Of)
    } else if same("ffset", rest) {
        Some(Symbol::Offset)
    } else if same("n", rest) {
        Some(Symbol::On)
    } else if same("r", rest) {
        Some(Symbol::Or)
    } else if same("rder", rest) {
        Some(Symbol::Order)
    } else if same("uter", rest) {
        Some(Symbol::Outer)
    } else {
        None
    }
}

fn after_p(rest: &[u8]) -> Option<Symbol>
    ensures { result ≡ find words (112 ∷ rest.now) }
{
    if same("recision", rest) {
        Some(Symbol::Precision)
    } else {
        None
    }
}

fn after_r(rest: &[u8]) -> Option<Symbol>
    ensures { result ≡ find words (114 ∷ rest.now) }
{
    if same("ight", rest) {
        Some(Symbol::Right)
    } else if same("ow", rest) {
        Some(Symbol::Row)
    } else if same("ows", rest) {
        Some(Symbol::Rows)
    } else {
        None
    }
}

fn after_s(rest: &[u8]) -> Option<Symbol>
    ensures { result ≡ find words (115 ∷ rest.now) }
{
    if same("elect", rest) {
        Some(Symbol::Select)
    } else if same("hare", rest) {
        Some(Symbol::Share)
    } else if same("kip", rest) {
        Some(Symbol::Skip)
    } else if same("lice", rest) {
        Some(Symbol::Slice)
    } else if same("ome", rest) {
        Some(Symbol::Some)
    } else if same("qlc", rest) {
        Some(Symbol::Sqlc)
    } else if same("ymmetric", rest) {
        Some(Symbol::Symmetric)
    } else {
        None
    }
}

fn after_t(rest: &[u8]) -> Option<Symbol>
    ensures { result ≡ find words (116 ∷ rest.now) }
{
    if same("hen", rest) {
        Some(Symbol::Then)
    } else if same("ime", rest) {
        Some(Symbol::Time)
    } else if same("rue", rest) {
        Some(Symbol::True)
    } else {
        None
    }
}

fn after_u(rest: &[u8]) -> Option<Symbol>
    ensures { result ≡ find words (117 ∷ rest.now) }
{
    if same("nion", rest) {
        Some(Symbol::Union)
    } else if same("nknown", rest) {
        Some(Symbol::Unknown)
    } else if same("pdate", rest) {
        Some(Symbol::Update)
    } else if same("sing", rest) {
        Some(Symbol::Using)
    } else {
        None
    }
}

fn after_v(rest: &[u8]) -> Option<Symbol>
    ensures { result ≡ find words (118 ∷ rest.now) }
{
    if same("arying", rest) {
        Some(Symbol::Varying)
    } else {
        None
    }
}

fn after_w(rest: &[u8]) -> Option<Symbol>
    ensures { result ≡ find words (119 ∷ rest.now) }
{
    if same("hen", rest) {
        Some(Symbol::When)
    } else if same("here", rest) {
        Some(Symbol::Where)
    } else if same("ith", rest) {
        Some(Symbol::With)
    } else if same("ithout", rest) {
        Some(Symbol::Without)
    } else {
        None
    }
}

fn after_z(rest: &[u8]) -> Option<Symbol>
    ensures { result ≡ find words (122 ∷ rest.now) }
{
    if same("one", rest) {
        Some(Symbol::Zone)
    } else {
        None
    }
}

/// The symbol that a folded word is.
pub fn word_symbol(word: &[u8]) -> Option<Symbol>
    ensures { result ≡ find words word.now }
{
    let (first, rest) = split(word)?;
    match first {
        b'a' => after_a(rest),
        b'b' => after_b(rest),
        b'c' => after_c(rest),
        b'd' => after_d(rest),
        b'e' => after_e(rest),
        b'f' => after_f(rest),
        b'g' => after_g(rest),
        b'h' => after_h(rest),
        b'i' => after_i(rest),
        b'j' => after_j(rest),
        b'k' => after_k(rest),
        b'l' => after_l(rest),
        b'm' => after_m(rest),
        b'n' => after_n(rest),
        b'o' => after_o(rest),
        b'p' => after_p(rest),
        b'r' => after_r(rest),
        b's' => after_s(rest),
        b't' => after_t(rest),
        b'u' => after_u(rest),
        b'v' => after_v(rest),
        b'w' => after_w(rest),
        b'z' => after_z(rest),
        _ => None,
    }
}

/// The symbol that a sign is.
pub fn sign_symbol(sign: &[u8]) -> Option<Symbol>
    ensures { result ≡ find signs sign.now }
{
    if same("(", sign) {
        Some(Symbol::Open)
    } else if same(")", sign) {
        Some(Symbol::Close)
    } else if same("[", sign) {
        Some(Symbol::OpenSquare)
    } else if same("]", sign) {
        Some(Symbol::CloseSquare)
    } else if same(",", sign) {
        Some(Symbol::Comma)
    } else if same(";", sign) {
        Some(Symbol::Semicolon)
    } else if same(".", sign) {
        Some(Symbol::Dot)
    } else if same("::", sign) {
        Some(Symbol::Colons)
    } else if same("^", sign) {
        Some(Symbol::Power)
    } else if same("*", sign) {
        Some(Symbol::Times)
    } else if same("/", sign) {
        Some(Symbol::Divide)
    } else if same("%", sign) {
        Some(Symbol::Modulo)
    } else if same("+", sign) {
        Some(Symbol::Plus)
    } else if same("-", sign) {
        Some(Symbol::Minus)
    } else if same("<", sign) {
        Some(Symbol::Less)
    } else if same(">", sign) {
        Some(Symbol::Greater)
    } else if same("=", sign) {
        Some(Symbol::Equal)
    } else if same("<=", sign) {
        Some(Symbol::LessEqual)
    } else if same(">=", sign) {
        Some(Symbol::GreaterEqual)
    } else if same("<>", sign) {
        Some(Symbol::NotEqual)
    } else {
        None
    }
}
