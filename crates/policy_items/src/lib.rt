//! The parts of a policy's items: names, fields, variants, attributes and sections, each tested as the rules of types say.
#![tactic(auto)]

mod attributes;
mod fields;
mod names;
mod sections;

pub use attributes::are_attributes;
pub use fields::{are_effect_fields, are_fact_fields, are_fields, are_parameters};
pub use names::{are_variants, is_free_name};
pub use sections::{attributes_of, has_its_sections};
