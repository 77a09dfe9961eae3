//! What a form of a scope text does to the case of a captured text.

/// What a form of a scope text does to the case of a captured text.
#[derive(Clone, Copy, Debug, PartialEq, Eq)]
pub enum Case {
    AsIs,
    Lower,
    Upper,
}
