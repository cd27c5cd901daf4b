ghost use Rattle.std.specs.Prelude.{◌≡◌, ◌<◌, IfOk, length, string_bytes, bytes_eq, refl};
ghost use Rattle.std.proofs.Common.{rules};
ghost use Rattle.std.specs.Cmp.{partial_equiv_from_equiv};
ghost use Rattle.std.specs.Cmp.Lexicographic.{nat_list_eq_equiv, nat_list_cmp_total, texts_ties, texts_po};
ghost use Rattle.std.specs.Cmp.Rules.{hashing};
ghost use Rattle.std.specs.Hash as fed;
ghost use Rattle.std.specs.Ordering.{as_partial_cmp};
ghost use Rattle.graph_value.specs.Name.{name_cmp};

use crate::NoMemory;
use std::alloc::Global;
use std::cmp::Ordering;
use std::hash::{Hash, Hasher};
use std::marker::Model;
use std::sync::ArcStr;

/// A text of UTF-8, which contracts see as the list of its bytes.
#[derive(Debug, Drop)]
pub struct Text {
    inner: String,
}

impl Model for Text {
    ghost use Rattle.std.specs.Prelude.{List, ℕ, string_bytes};

    ghost Value = { List ℕ };

    ghost view = { λ t. string_bytes t.inner };
}

impl Text {
    /// The same text, in memory of its own.
    pub fn from_str(alloc: Global, text: &str) -> Result<Text, NoMemory>
        ensures { IfOk result (λ t. t ≡ text.now) }
    {
        let inner = String::from_str(alloc, text)?;
        Ok(Text { inner })
    }

    /// The text that a string holds.
    pub fn from_string(inner: String) -> Text
        ensures { result ≡ string_bytes inner }
    {
        Text { inner }
    }

    pub fn as_str(&self) -> &str
        ensures { result.now ≡ self.now }
    {
        self.inner.as_str()
    }

    pub fn copy(&self, alloc: Global) -> Result<Text, NoMemory>
        ensures { IfOk result (λ t. t ≡ self.now) }
    {
        Text::from_str(alloc, self.as_str())
    }
}

impl PartialEq for Text {
    ghost eq = { bytes_eq };

    ghost laws = { partial_equiv_from_equiv nat_list_eq_equiv };

    fn eq(&self, other: &Text) -> bool {
        self.as_str() == other.as_str()
    }
}

impl Eq for Text {
    ghost laws = { nat_list_eq_equiv };
}

impl PartialOrd for Text {
    ghost partial_cmp = { as_partial_cmp name_cmp };

    ghost laws = { texts_po };

    fn partial_cmp(&self, other: &Text) -> Option<Ordering> {
        Some(self.cmp(other))
    }
}

/// Byte by byte.
impl Ord for Text {
    ghost cmp = { name_cmp };

    ghost total = { nat_list_cmp_total };

    ghost matches_partial_cmp = { λ a b. refl };

    ghost matches_eq = { texts_ties };

    fn cmp(&self, other: &Text) -> Ordering {
        self.as_str().cmp(other.as_str())
    }
}

impl Hash for Text {
    ghost hash_input = { fed.str };

    ghost respects_eq = { Prim.search (hashing, rules) };

    fn hash<H: Hasher>(&self, state: &mut H) {
        self.as_str().hash(state);
    }
}

/// A text that isn't empty: the name of a property, a label or a kind of edge. Its copies share it.
#[derive(Debug, Drop)]
pub struct Name {
    text: ArcStr,
}

impl Model for Name {
    ghost use Rattle.std.specs.Prelude.{List, ℕ, ◌<◌, length};
    ghost use Rattle.std.specs.Arc.{arc_str_bytes};

    ghost Value = { List ℕ };

    ghost view = { λ n. arc_str_bytes n.text };

    ghost invariant = { λ n. 0 < length (arc_str_bytes n.text) };
}

impl Name {
    /// The same text as a name.
    pub fn from_str(alloc: Global, text: &str) -> Result<Name, NoMemory>
        requires { 0 < length text.now }
        ensures { IfOk result (λ n. n ≡ text.now) }
    {
        let text = ArcStr::from_str(alloc, text)?;
        Ok(Name { text })
    }

    pub fn as_str(&self) -> &str
        ensures text { result.now ≡ self.now }
        ensures named { 0 < length self.now }
    {
        self.text.as_str()
    }

    /// The same name. It allocates nothing: the error says that the name has as many owners as can be counted.
    pub fn copy(&self) -> Result<Name, NoMemory>
        ensures { IfOk result (λ n. n ≡ self.now) }
    {
        let text = self.text.clone()?;
        Ok(Name { text })
    }
}

impl PartialEq for Name {
    ghost eq = { bytes_eq };

    ghost laws = { partial_equiv_from_equiv nat_list_eq_equiv };

    fn eq(&self, other: &Name) -> bool {
        self.as_str() == other.as_str()
    }
}

impl Eq for Name {
    ghost laws = { nat_list_eq_equiv };
}

impl PartialOrd for Name {
    ghost partial_cmp = { as_partial_cmp name_cmp };

    ghost laws = { texts_po };

    fn partial_cmp(&self, other: &Name) -> Option<Ordering> {
        Some(self.cmp(other))
    }
}

/// Byte by byte.
impl Ord for Name {
    ghost cmp = { name_cmp };

    ghost total = { nat_list_cmp_total };

    ghost matches_partial_cmp = { λ a b. refl };

    ghost matches_eq = { texts_ties };

    fn cmp(&self, other: &Name) -> Ordering {
        self.as_str().cmp(other.as_str())
    }
}

impl Hash for Name {
    ghost hash_input = { fed.str };

    ghost respects_eq = { Prim.search (hashing, rules) };

    fn hash<H: Hasher>(&self, state: &mut H) {
        self.as_str().hash(state);
    }
}
