ghost use Rattle.std.specs.Prelude.{◌≡◌, IfOk, IsUtf8, string_bytes};
ghost use Rattle.own_base.specs.Name.{IsName};

use crate::make_copy::MakeCopy;
use std::alloc::{AllocError, Global};
use std::cmp::Ordering;
use std::hash::{Hash, Hasher};
use std::marker::Model;
use std::sync::ArcStr;

/// A text, which contracts see as its UTF-8 bytes. It is compared and ordered by its bytes, and shares them with its
/// copies, behind one pointer.
#[derive(Debug, Drop)]
pub struct Text {
    text: ArcStr<Global>,
}

/// The size of a text in memory, besides what it shares: one pointer.
const _: () = prove!(size_of::<Text>() == 8);

impl Model for Text {
    ghost use Rattle.std.specs.Prelude.{List, ℕ};
    ghost use Rattle.std.specs.Arc.{arc_str_bytes};

    ghost Value = { List ℕ };

    ghost view = { λ text. arc_str_bytes text.text };
}

impl Text {
    /// Holds the same bytes.
    pub fn from_str(alloc: Global, text: &str) -> Result<Text, AllocError>
        ensures { IfOk result (λ held. held ≡ text.now) }
    {
        let text = ArcStr::from_str(alloc, text)?;
        Ok(Text { text })
    }

    /// Holds the bytes of a string, which it takes over.
    pub fn from_string(text: String) -> Result<Text, AllocError>
        ensures { IfOk result (λ held. held ≡ string_bytes text) }
    {
        let text = ArcStr::from_string(text)?;
        Ok(Text { text })
    }

    /// Lends the bytes. Takes no memory.
    pub fn bytes(&self) -> &[u8]
        ensures same { result.now ≡ self.now }
        ensures utf8 { IsUtf8 self.now }
    {
        self.text.as_str().as_bytes()
    }

    /// Lends the text. Takes no memory.
    pub fn as_str(&self) -> &str
        ensures { result.now ≡ self.now }
    {
        self.text.as_str()
    }
}

impl MakeCopy for Text {
    /// A text that equals this one and shares its bytes; `AllocError` comes only where their count of texts is full.
    fn copy(&self, _alloc: Global) -> Result<Text, AllocError> {
        let text = self.text.clone()?;
        Ok(Text { text })
    }
}

impl PartialEq for Text {
    ghost use Rattle.std.specs.Prelude.{◌==◌};
    ghost use Rattle.std.specs.Cmp.Lexicographic.{pointwise};
    ghost use Rattle.std.proofs.Common.{rules};
    ghost use Rattle.std.specs.Cmp.Rules.{comparing};

    ghost eq = { pointwise ◌==◌ };

    ghost laws = { Prim.search (comparing, rules) };

    fn eq(&self, other: &Text) -> bool {
        self.bytes() == other.bytes()
    }
}

impl Eq for Text {
    ghost use Rattle.std.proofs.Common.{rules};
    ghost use Rattle.std.specs.Cmp.Rules.{comparing};

    ghost laws = { Prim.search (comparing, rules) };
}

impl Ord for Text {
    ghost use Rattle.std.specs.Cmp.Lexicographic.{slice_cmp};
    ghost use Rattle.std.specs.Ordering.{nat_cmp};
    ghost use Rattle.std.proofs.Common.{rules};
    ghost use Rattle.std.specs.Cmp.Rules.{comparing};

    ghost cmp = { slice_cmp nat_cmp };

    ghost total = { Prim.search (comparing, rules) };

    ghost matches_partial_cmp = { Prim.search (comparing, rules) };

    ghost matches_eq = { Prim.search (comparing, rules) };

    fn cmp(&self, other: &Text) -> Ordering {
        self.bytes().cmp(other.bytes())
    }
}

impl PartialOrd for Text {
    ghost use Rattle.std.specs.Cmp.{partial_order_from_own_ties};
    ghost use Rattle.std.specs.Cmp.Lexicographic.{slice_cmp};
    ghost use Rattle.std.specs.Ordering.{nat_cmp, as_partial_cmp};
    ghost use Rattle.std.proofs.Common.{rules};
    ghost use Rattle.std.specs.Cmp.Rules.{comparing};

    ghost partial_cmp = { as_partial_cmp (slice_cmp nat_cmp) };

    ghost laws = { partial_order_from_own_ties (Prim.search (comparing, rules)) (Prim.search (comparing, rules)) };

    fn partial_cmp(&self, other: &Text) -> Option<Ordering> {
        Some(self.cmp(other))
    }
}

impl Hash for Text {
    ghost use Rattle.std.specs.Hash as fed;
    ghost use Rattle.std.proofs.Common.{rules};
    ghost use Rattle.std.specs.Cmp.Rules.{hashing};

    ghost hash_input = { λ text. fed.str text };

    ghost respects_eq = { Prim.search (hashing, rules) };

    fn hash<H: Hasher>(&self, state: &mut H) {
        self.text.as_str().hash(state);
    }
}

/// The most bytes of a name.
pub const NAME_BYTES: usize = 64;

/// The name of a table, a view or a column, which contracts see as its bytes: a letter or `_`, then letters, digits
/// or `_`, in lower case and at most `NAME_BYTES` of them.
#[derive(Debug, Drop, PartialEq, Eq, PartialOrd, Ord, Hash)]
pub struct Name {
    text: Text,
}

impl Model for Name {
    ghost use Rattle.std.specs.Prelude.{List, ℕ};

    ghost Value = { List ℕ };

    ghost view = { λ name. name.text };

    ghost use Rattle.own_base.specs.Name.{IsName};

    ghost invariant = { λ name. IsName name.text };

    ghost inverse = { λ bytes. record { text = bytes } };
}

impl Name {
    /// Holds the same bytes.
    pub fn from_str(alloc: Global, text: &str) -> Result<Name, AllocError>
        requires { IsName text.now }
        ensures { IfOk result (λ name. name ≡ text.now) }
    {
        let text = Text::from_str(alloc, text)?;
        Ok(Name { text })
    }

    /// Holds the bytes of a string, which it takes over.
    pub fn from_string(text: String) -> Result<Name, AllocError>
        requires { IsName (string_bytes text) }
        ensures { IfOk result (λ name. name ≡ string_bytes text) }
    {
        let text = Text::from_string(text)?;
        Ok(Name { text })
    }

    /// Lends the bytes. Takes no memory.
    pub fn bytes(&self) -> &[u8]
        ensures same { result.now ≡ self.now }
        ensures name { IsName self.now }
    {
        self.text.bytes()
    }

    /// Lends the name's text. Takes no memory.
    pub fn as_str(&self) -> &str
        ensures { result.now ≡ self.now }
    {
        self.text.as_str()
    }
}

impl MakeCopy for Name {
    fn copy(&self, alloc: Global) -> Result<Name, AllocError> {
        let text = self.text.copy(alloc)?;
        Ok(Name { text })
    }
}
