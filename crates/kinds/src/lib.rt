// The three item kinds: articles, spans of bytes and sets of fields.
#![tactic(auto)]

mod article;
mod field_set;
mod span;

pub use article::Article;
pub use field_set::FieldSet;
pub use span::Span;
