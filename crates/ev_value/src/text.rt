//! Text and bytes that contracts see as lists.
ghost use Rattle.std.specs.Prelude.{◌≡◌, ◌++◌, string_bytes, nat_eq, length, IfOk};
ghost use Rattle.std.specs.Cmp.{partial_equiv_from_equiv, partial_order_from_total, partial_order_from_own_ties};
ghost use Rattle.std.specs.Cmp.Lexicographic.{pointwise, slice_cmp, nat_list_cmp_total, nat_list_eq_equiv, texts_ties};
ghost use Rattle.std.specs.Cmp.Rules.{comparing};
ghost use Rattle.std.specs.Str.{chars};
ghost use Rattle.std.specs.Ordering.{nat_cmp, as_partial_cmp};
ghost use Rattle.std.proofs.Common.{rules};

use sqlite_items::Items;
use std::alloc::{AllocError, Global};
use std::cmp::Ordering;
use std::marker::Model;
use uuid::Uuid;

/// Bytes of any kind, as a document or an answer. Contracts see the list of them.
pub type Bytes = Items<u8>;

/// A text in UTF-8, ordered by its bytes. Contracts see its bytes.
#[derive(Drop)]
pub struct Text {
    inner: String,
}

impl Model for Text {
    ghost use Rattle.std.specs.Prelude.{ℕ, List, string_bytes};
    ghost use Rattle.std.specs.Coded.{coded_list, coded_ℕ};

    ghost Value = { List ℕ };

    ghost coded = { coded_list coded_ℕ };

    ghost view = { λ t. string_bytes t.inner };
}

impl Text {
    ghost use Rattle.ev_value.specs.JsonText.{id_text};

    pub fn new(inner: String) -> Text
        ensures { result ≡ string_bytes inner }
    {
        Text { inner }
    }

    pub fn from_str(alloc: Global, text: &str) -> Result<Text, AllocError>
        ensures { IfOk result (λ t. t ≡ text.now) }
    {
        Ok(Text {
            inner: String::from_str(alloc, text)?,
        })
    }

    /// The text of a uuid in lower case with hyphens (RFC 9562, section 4).
    pub fn of_id(alloc: Global, id: u128) -> Result<Text, AllocError>
        ensures { IfOk result (λ t. t ≡ id_text id) }
    {
        let mut buffer = [0u8; 36];
        let text = Uuid::from_u128(id).hyphenated().encode_lower(&mut buffer);
        Text::from_str(alloc, text)
    }

    pub fn as_str(&self) -> &str
        ensures { result.now ≡ self.now }
    {
        self.inner.as_str()
    }

    /// How many characters the text has, and not how many bytes.
    pub fn characters(&self) -> usize
        ensures { result ≡ length (chars self.now) }
    {
        self.as_str().chars().count()
    }

    /// The same text, in memory of its own.
    pub fn copied(&self, alloc: Global) -> Result<Text, AllocError>
        ensures { IfOk result (λ t. t ≡ self.now) }
    {
        Text::from_str(alloc, self.as_str())
    }

    /// This text with another behind it, in memory of its own.
    pub fn joined(&self, next: &Text) -> Result<Text, AllocError>
        ensures { IfOk result (λ t. t ≡ self.now ++ next.now) }
    {
        let mut inner = self.inner.clone()?;
        inner.push_str(next.as_str())?;
        Ok(Text { inner })
    }
}

impl PartialEq for Text {
    ghost eq = { pointwise nat_eq };

    ghost laws = { partial_equiv_from_equiv nat_list_eq_equiv };

    fn eq(&self, other: &Text) -> bool {
        self.as_str() == other.as_str()
    }
}

impl Eq for Text {
    ghost laws = { nat_list_eq_equiv };
}

impl PartialOrd for Text {
    ghost partial_cmp = { as_partial_cmp (slice_cmp nat_cmp) };

    ghost laws = { partial_order_from_own_ties (partial_order_from_total nat_list_cmp_total) texts_ties };

    fn partial_cmp(&self, other: &Text) -> Option<Ordering> {
        Some(self.cmp(other))
    }
}

impl Ord for Text {
    ghost cmp = { slice_cmp nat_cmp };

    ghost total = { nat_list_cmp_total };

    ghost matches_partial_cmp = { Prim.search (comparing, rules) };

    ghost matches_eq = { texts_ties };

    fn cmp(&self, other: &Text) -> Ordering {
        self.as_str().cmp(other.as_str())
    }
}
