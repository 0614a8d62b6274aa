//! The two kinds of atoms.

/// Whether an atom compares its sum with its constant by at most, or by equal.
#[derive(Clone, Copy, Debug, PartialEq, Eq)]
pub enum AtomKind {
    Le,
    Eq,
}
