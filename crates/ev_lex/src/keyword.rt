//! Keywords: the words that the grammars name.
ghost use Rattle.std.specs.Prelude.{◌≡◌, ◌↔◌, Some, None, map};
ghost use Rattle.std.specs.Str.{str_eq_ignore_ascii_case};
ghost use Rattle.ev_lex.specs.Keyword.{IsWordOf, is_reserved, keyword_at, keyword_of};
ghost use Rattle.ev_lex.specs.declared.keyword.Keyword.{Keyword};

/// A word that a grammar names. The EdgeDB documentation's page on reserved keywords has more; only these are words of this language.
#[derive(Clone, Copy, Debug, PartialEq, Eq)]
pub enum Keyword {
    // Reserved: never a name.
    Select,
    With,
    Filter,
    Order,
    By,
    Offset,
    Limit,
    For,
    In,
    Union,
    If,
    Else,
    And,
    Or,
    Not,
    Exists,
    Distinct,
    Is,
    Global,
    Optional,
    Required,
    Single,
    Multi,
    True,
    False,
    Like,
    Ilike,
    Intersect,
    Except,
    Insert,
    Update,
    Delete,
    Group,
    // Names elsewhere, in queries.
    Asc,
    Desc,
    Empty,
    First,
    Last,
    Then,
    // Names elsewhere, in schemas.
    Module,
    Abstract,
    Type,
    Extending,
    Property,
    Link,
    Index,
    On,
    Annotation,
    Overloaded,
    Delegated,
    Constraint,
    Default,
    Target,
    Restrict,
    Access,
    Policy,
    Allow,
    Deny,
    All,
    Using,
    Read,
    Write,
}

const KEYWORDS: [(&[u8], Keyword); 62] = [
    (b"select", Keyword::Select),
    (b"with", Keyword::With),
    (b"filter", Keyword::Filter),
    (b"order", Keyword::Order),
    (b"by", Keyword::By),
    (b"offset", Keyword::Offset),
    (b"limit", Keyword::Limit),
    (b"for", Keyword::For),
    (b"in", Keyword::In),
    (b"union", Keyword::Union),
    (b"if", Keyword::If),
    (b"else", Keyword::Else),
    (b"and", Keyword::And),
    (b"or", Keyword::Or),
    (b"not", Keyword::Not),
    (b"exists", Keyword::Exists),
    (b"distinct", Keyword::Distinct),
    (b"is", Keyword::Is),
    (b"global", Keyword::Global),
    (b"optional", Keyword::Optional),
    (b"required", Keyword::Required),
    (b"single", Keyword::Single),
    (b"multi", Keyword::Multi),
    (b"true", Keyword::True),
    (b"false", Keyword::False),
    (b"like", Keyword::Like),
    (b"ilike", Keyword::Ilike),
    (b"intersect", Keyword::Intersect),
    (b"except", Keyword::Except),
    (b"insert", Keyword::Insert),
    (b"update", Keyword::Update),
    (b"delete", Keyword::Delete),
    (b"group", Keyword::Group),
    (b"asc", Keyword::Asc),
    (b"desc", Keyword::Desc),
    (b"empty", Keyword::Empty),
    (b"first", Keyword::First),
    (b"last", Keyword::Last),
    (b"then", Keyword::Then),
    (b"module", Keyword::Module),
    (b"abstract", Keyword::Abstract),
    (b"type", Keyword::Type),
    (b"extending", Keyword::Extending),
    (b"property", Keyword::Property),
    (b"link", Keyword::Link),
    (b"index", Keyword::Index),
    (b"on", Keyword::On),
    (b"annotation", Keyword::Annotation),
    (b"overloaded", Keyword::Overloaded),
    (b"delegated", Keyword::Delegated),
    (b"constraint", Keyword::Constraint),
    (b"default", Keyword::Default),
    (b"target", Keyword::Target),
    (b"restrict", Keyword::Restrict),
    (b"access", Keyword::Access),
    (b"policy", Keyword::Policy),
    (b"allow", Keyword::Allow),
    (b"deny", Keyword::Deny),
    (b"all", Keyword::All),
    (b"using", Keyword::Using),
    (b"read", Keyword::Read),
    (b"write", Keyword::Write),
];

fn same_word(a: &[u8], b: &[u8]) -> bool
    ensures { result ≡ str_eq_ignore_ascii_case a.now b.now }
{
    a.eq_ignore_ascii_case(b)
}

/// The first entry of the word, without regard to case.
fn entry(mut table: &[(&[u8], Keyword)], word: &[u8]) -> Option<Keyword>
    ensures { result ≡ keyword_at (map (λ k. (k.0.now, k.1)) table.entry.now) word.now }
{
    while let [first, rest @ ..] = table {
        if same_word(first.0, word) {
            return Some(first.1);
        }
        table = rest;
    }
    None
}

/// The keyword that a word is, without regard to case.
pub fn keyword_of(word: &str) -> Option<Keyword>
    ensures value { result ≡ keyword_of word.now }
    ensures word { (k : Keyword) → (result ≡ Some k) ↔ IsWordOf k word.now }
{
    entry(&KEYWORDS, word.as_bytes())
}

/// Whether the keyword is reserved, so that no name is written like it.
pub fn is_reserved(keyword: Keyword) -> bool
    ensures { result ≡ is_reserved keyword }
{
    match keyword {
        Keyword::Asc
        | Keyword::Desc
        | Keyword::Empty
        | Keyword::First
        | Keyword::Last
        | Keyword::Then
        | Keyword::Module
        | Keyword::Abstract
        | Keyword::Type
        | Keyword::Extending
        | Keyword::Property
        | Keyword::Link
        | Keyword::Index
        | Keyword::On
        | Keyword::Annotation
        | Keyword::Overloaded
        | Keyword::Delegated
        | Keyword::Constraint
        | Keyword::Default
        | Keyword::Target
        | Keyword::Restrict
        | Keyword::Access
        | Keyword::Policy
        | Keyword::Allow
        | Keyword::Deny
        | Keyword::All
        | Keyword::Using
        | Keyword::Read
        | Keyword::Write => false,
        _ => true,
    }
}
