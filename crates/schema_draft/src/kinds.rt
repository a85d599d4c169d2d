//! What the kinds of columns and of references say.
ghost use Rattle.std.specs.Prelude.{◌≡◌};
ghost use Rattle.schema_model.specs.Kinds as spec;

use own_model::{Kind, RefKind};

/// Whether two kinds are one.
pub fn is_same_kind(one: Kind, other: Kind) -> bool
    ensures { result ≡ spec.is_same_kind one other }
{
    match one {
        Kind::Int => matches!(other, Kind::Int),
        Kind::Text => matches!(other, Kind::Text),
        Kind::Sum => matches!(other, Kind::Sum),
    }
}

/// Whether a reference of this kind gives an edge: all but REFERENCES do.
pub fn gives_edge(kind: RefKind) -> bool
    ensures { result ≡ spec.gives_edge kind }
{
    match kind {
        RefKind::Plain => false,
        RefKind::OwnedBy | RefKind::Owns | RefKind::AccessedBy | RefKind::Accesses => true,
    }
}

/// Whether a reference of this kind gives ownership.
pub fn gives_ownership(kind: RefKind) -> bool
    ensures { result ≡ spec.gives_ownership kind }
{
    match kind {
        RefKind::OwnedBy | RefKind::Owns => true,
        RefKind::Plain | RefKind::AccessedBy | RefKind::Accesses => false,
    }
}

/// Whether the table that has the column is the lower one.
pub fn is_upward(kind: RefKind) -> bool
    ensures { result ≡ spec.is_upward kind }
{
    match kind {
        RefKind::OwnedBy | RefKind::AccessedBy => true,
        RefKind::Plain | RefKind::Owns | RefKind::Accesses => false,
    }
}

/// Whether the table that has the column is the upper one.
pub fn is_downward(kind: RefKind) -> bool
    ensures { result ≡ spec.is_downward kind }
{
    match kind {
        RefKind::Owns | RefKind::Accesses => true,
        RefKind::Plain | RefKind::OwnedBy | RefKind::AccessedBy => false,
    }
}

/// Whether it is OWNED_BY.
pub fn is_owned_by(kind: RefKind) -> bool
    ensures { result ≡ spec.is_owned_by kind }
{
    matches!(kind, RefKind::OwnedBy)
}

/// Whether it is OWNS.
pub fn is_owns(kind: RefKind) -> bool
    ensures { result ≡ spec.is_owns kind }
{
    matches!(kind, RefKind::Owns)
}
