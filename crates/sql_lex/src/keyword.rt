//! Keywords: the words of the grammar.
ghost use Rattle.std.specs.Prelude.{◌≡◌, ◌↔◌, Some, map};
ghost use Rattle.std.specs.Str.{str_eq_ignore_ascii_case};
ghost use Rattle.sql_lex.specs.Keyword.{IsWordOf, keyword_at, keyword_of};
ghost use Rattle.sql_lex.specs.declared.keyword.Keyword.{Keyword};

/// A word of the grammar. No other word begins a token.
#[derive(Clone, Copy, Debug, PartialEq, Eq)]
pub enum Keyword {
    Select,
    Distinct,
    As,
    From,
    Left,
    Join,
    Lateral,
    On,
    True,
    False,
    Where,
    Order,
    By,
    Offset,
    Limit,
    Union,
    All,
    Unnest,
    Asc,
    Desc,
    Nulls,
    First,
    Last,
    Uuid,
    Null,
    Arg,
    Global,
    Array,
    Row,
    Part,
    Case,
    When,
    Then,
    Else,
    End,
    Cast,
    Len,
    CountOf,
    SumOf,
    MinOf,
    MaxOf,
    AnyOf,
    AllOf,
    AssertSingle,
    AssertExists,
    AssertDistinct,
    Int,
    Text,
    Bool,
    Or,
    And,
    Not,
    Is,
}

const KEYWORDS: [(&[u8], Keyword); 53] = [
    (b"SELECT", Keyword::Select),
    (b"DISTINCT", Keyword::Distinct),
    (b"AS", Keyword::As),
    (b"FROM", Keyword::From),
    (b"LEFT", Keyword::Left),
    (b"JOIN", Keyword::Join),
    (b"LATERAL", Keyword::Lateral),
    (b"ON", Keyword::On),
    (b"TRUE", Keyword::True),
    (b"FALSE", Keyword::False),
    (b"WHERE", Keyword::Where),
    (b"ORDER", Keyword::Order),
    (b"BY", Keyword::By),
    (b"OFFSET", Keyword::Offset),
    (b"LIMIT", Keyword::Limit),
    (b"UNION", Keyword::Union),
    (b"ALL", Keyword::All),
    (b"UNNEST", Keyword::Unnest),
    (b"ASC", Keyword::Asc),
    (b"DESC", Keyword::Desc),
    (b"NULLS", Keyword::Nulls),
    (b"FIRST", Keyword::First),
    (b"LAST", Keyword::Last),
    (b"UUID", Keyword::Uuid),
    (b"NULL", Keyword::Null),
    (b"ARG", Keyword::Arg),
    (b"GLOBAL", Keyword::Global),
    (b"ARRAY", Keyword::Array),
    (b"ROW", Keyword::Row),
    (b"PART", Keyword::Part),
    (b"CASE", Keyword::Case),
    (b"WHEN", Keyword::When),
    (b"THEN", Keyword::Then),
    (b"ELSE", Keyword::Else),
    (b"END", Keyword::End),
    (b"CAST", Keyword::Cast),
    (b"LEN", Keyword::Len),
    (b"COUNT_OF", Keyword::CountOf),
    (b"SUM_OF", Keyword::SumOf),
    (b"MIN_OF", Keyword::MinOf),
    (b"MAX_OF", Keyword::MaxOf),
    (b"ANY_OF", Keyword::AnyOf),
    (b"ALL_OF", Keyword::AllOf),
    (b"ASSERT_SINGLE", Keyword::AssertSingle),
    (b"ASSERT_EXISTS", Keyword::AssertExists),
    (b"ASSERT_DISTINCT", Keyword::AssertDistinct),
    (b"INT", Keyword::Int),
    (b"TEXT", Keyword::Text),
    (b"BOOL", Keyword::Bool),
    (b"OR", Keyword::Or),
    (b"AND", Keyword::And),
    (b"NOT", Keyword::Not),
    (b"IS", Keyword::Is),
];

fn same_word(a: &[u8], b: &[u8]) -> bool
    ensures { result ≡ str_eq_ignore_ascii_case a.now b.now }
{
    a.eq_ignore_ascii_case(b)
}

/// The first entry of the word, without regard to case.
fn entry(mut table: &[(&[u8], Keyword)], word: &[u8]) -> Option<Keyword>
    ensures { result ≡ keyword_at (map (λ k. (k.0.now, k.1)) table.entry.now) word.now }
{
    while let [first, rest @ ..] = table {
        if same_word(first.0, word) {
            return Some(first.1);
        }
        table = rest;
    }
    None
}

/// The keyword that a word is, without regard to case.
pub fn keyword_of(word: &[u8]) -> Option<Keyword>
    ensures value { result ≡ keyword_of word.now }
    ensures word { (k : Keyword) → (result ≡ Some k) ↔ IsWordOf k word.now }
{
    entry(&KEYWORDS, word)
}
