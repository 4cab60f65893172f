//! What the next token begins, where the grammar of schemas goes by sets of tokens or by the meaning of a word.
ghost use Rattle.std.specs.Prelude.{◌≡◌};
ghost use Rattle.exact.specs.Reading.{Reads, heads, one};
ghost use Rattle.sdl_grammar.specs.Words as words;
ghost use Rattle.sdl_parse.specs.Ahead.{member_form_ahead, item_form_ahead};

use eql_cursor::Cursor;
use ev_lex::{Keyword, Sign};
use exact::ReadError;
use sdl_grammar::{ItemForm, ItemWord, MemberForm, MemberWord};
use std::alloc::Global;

/// Whether a type comes next, behind a name.
#[tactic(auto, using(crate::proofs::Ahead::typing_ahead))]
pub fn sees_typing(tokens: &Cursor<'_>) -> bool
    ensures { result ≡ heads words.is_typing tokens.now }
{
    tokens.sees(Sign::Colon) || tokens.sees(Sign::Arrow)
}

/// Whether a type or a value comes next, behind the name of a pointer.
#[tactic(auto, using(crate::proofs::Ahead::pointing_ahead))]
pub fn sees_pointing(tokens: &Cursor<'_>) -> bool
    ensures { result ≡ heads words.is_pointing tokens.now }
{
    tokens.sees(Sign::Colon) || (tokens.sees(Sign::Arrow) || tokens.sees(Sign::Assign))
}

/// Whether a further member or item may come next.
#[tactic(auto, using(crate::proofs::Ahead::more_ahead))]
pub fn goes_on(tokens: &Cursor<'_>) -> bool
    ensures { result ≡ heads words.goes_on tokens.now }
{
    !(tokens.closes(Sign::RightBrace) || tokens.sees(Sign::Semicolon))
}

/// Whether a declaration comes next.
#[tactic(auto, using(crate::proofs::Ahead::decl_ahead))]
pub fn sees_decl(tokens: &Cursor<'_>) -> bool
    ensures { result ≡ heads words.is_decl tokens.now }
{
    tokens.sees_word(Keyword::Abstract)
        || (tokens.sees_word(Keyword::Type) || tokens.sees_word(Keyword::Global))
}

/// Whether a part of a file comes next.
#[tactic(auto, using(crate::proofs::Ahead::part_ahead))]
pub fn sees_part(tokens: &Cursor<'_>) -> bool
    ensures { result ≡ heads words.is_part tokens.now }
{
    tokens.sees_word(Keyword::Module) || sees_decl(tokens)
}

fn member_form(tokens: &Cursor<'_>) -> MemberForm
    ensures { result ≡ member_form_ahead tokens.now }
{
    if tokens.sees_word(Keyword::Overloaded) {
        MemberForm::Overloaded
    } else if tokens.sees_word(Keyword::Property) {
        MemberForm::Property
    } else if tokens.sees_word(Keyword::Link) {
        MemberForm::Link
    } else if tokens.sees_word(Keyword::Index) {
        MemberForm::Index
    } else if tokens.sees_word(Keyword::Annotation) {
        MemberForm::Annotation
    } else if tokens.sees_word(Keyword::Access) {
        MemberForm::Access
    } else {
        MemberForm::Other
    }
}

fn item_form(tokens: &Cursor<'_>) -> ItemForm
    ensures { result ≡ item_form_ahead tokens.now }
{
    if tokens.sees_word(Keyword::Overloaded) {
        ItemForm::Overloaded
    } else if tokens.sees_word(Keyword::Property) {
        ItemForm::Property
    } else if tokens.sees_word(Keyword::Constraint) {
        ItemForm::Constraint
    } else if tokens.sees_word(Keyword::Delegated) {
        ItemForm::Delegated
    } else if tokens.sees_word(Keyword::Default) {
        ItemForm::Default
    } else if tokens.sees_word(Keyword::On) {
        ItemForm::On
    } else if tokens.sees_word(Keyword::Annotation) {
        ItemForm::Annotation
    } else {
        ItemForm::Other
    }
}

/// Takes the word that a member begins with.
#[tactic(auto, using(crate::proofs::Ahead::member_word_read))]
pub fn member_word(alloc: Global, tokens: &mut Cursor<'_>) -> Result<MemberWord, ReadError>
    ensures { Reads (one words.member_word_of tokens.old) result tokens.new }
{
    let form = member_form(tokens);
    let name = tokens.name(alloc)?;
    Ok(MemberWord { form, name })
}

/// Takes the word that an item begins with.
#[tactic(auto, using(crate::proofs::Ahead::item_word_read))]
pub fn item_word(alloc: Global, tokens: &mut Cursor<'_>) -> Result<ItemWord, ReadError>
    ensures { Reads (one words.item_word_of tokens.old) result tokens.new }
{
    let form = item_form(tokens);
    let name = tokens.name(alloc)?;
    Ok(ItemWord { form, name })
}
