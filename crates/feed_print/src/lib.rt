//! Found feeders as text for rule files.
//!
//! `specs/FeederTexts.antt` says which text a bound feeder has, which [`text_of`] gives, and `specs/FoundText.antt` what
//! is printed for a model, which [`found_text`] gives.
#![tactic(auto)]

mod area;
mod arguments;
mod found;
mod moves;
mod names;
mod place;
mod printing;
mod text;

pub use found::found_text;
pub use text::text_of;
