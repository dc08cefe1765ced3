//! How launches are shown.

/// How launches are shown.
#[derive(Drop)]
pub enum Manner {
    /// With all that they hand over.
    Whole,
    /// As a script would write them.
    Brief {
        /// The entries of an environment that aren't shown.
        known: Vec<String>,
        /// Whether the images of trees are shown, in place of their texts.
        images: bool,
    },
}
